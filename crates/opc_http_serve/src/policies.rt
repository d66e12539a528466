//! The states of the policy of a gate, in a folder.
ghost use Rattle.std.specs.Prelude.{◌≡◌, IfOk, string_bytes};
ghost use Rattle.opc_state.specs.Changes.{IsKept};
ghost use Rattle.opc_state.specs.State.{State};
ghost use Rattle.opc_http_serve.specs.Policies.{IsBrought, IsPolicyFollowed, IsPolicyKept, export_of};

use opc_board::text::KeptText;
use opc_gate::gate::Gate;
use opc_import::write_policy;
use opc_machine::request::{Answer, Request};
use opc_policy_changes::changing::may_change;
use opc_policy_folder::fault::PolicyFault;
use opc_policy_folder::folder::Folder;
use opc_policy_folder::keeping::keep;
use opc_state::tables::Tables;
use opc_terms::fault::Fault;
use std::alloc::Global;

/// A folder into which the states of a policy are brought.
#[derive(Drop)]
pub struct PolicyFolder<'a, N> {
    pub folders: &'a N,
    pub path: &'a str,
    /// The last state could not be brought there.
    pub is_due: bool,
}

/// The policy file of a gate.
fn export_of<T: Tables>(alloc: Global, gate: &mut Gate<T>) -> Result<String, Fault>
    ensures kept { IsKept T.meaning gate.old gate.new }
    ensures text { T.meaning.is_sure gate.new → (s : State) → T.meaning.represents gate.old s
        → IfOk result (λ text. string_bytes text ≡ export_of s) }
{
    let rows = gate.export(alloc)?;
    match write_policy(alloc, rows.as_slice()) {
        Ok(text) => Ok(text),
        Err(_) => Err(Fault::NoMemory),
    }
}

/// Brings the policy of a gate into a folder, if it is not the present state there. Returns its name, if it was brought.
pub fn bring<T: Tables, N: Folder>(
    alloc: Global,
    gate: &mut Gate<T>,
    folders: &N,
    folder: &str,
    moment: u64,
) -> Result<Option<KeptText>, PolicyFault>
    ensures kept { IsKept T.meaning gate.old gate.new }
    ensures brought { T.meaning.is_sure gate.new → (s : State) → T.meaning.represents gate.old s
        → IfOk result (IsBrought N.holds N.writes N.publishes folders.now folder.now moment s) }
{
    let text = match export_of(alloc, gate) {
        Ok(text) => text,
        Err(fault) => return Err(PolicyFault::Gate(fault)),
    };
    match keep(alloc, folders, folder, moment, text.as_str().as_bytes()) {
        Ok(name) => Ok(name),
        Err(error) => Err(PolicyFault::System(error)),
    }
}

impl<N: Folder> PolicyFolder<'_, N> {
    /// Follows a request that was handled. It loads no policy if the request cannot have changed it, and the last state
    /// is there.
    fn follow<T: Tables>(
        &mut self,
        alloc: Global,
        gate: &mut Gate<T>,
        moment: u64,
        request: &Request,
        answer: &Answer,
    ) -> Result<Option<KeptText>, PolicyFault>
        ensures kept { IsKept T.meaning gate.old gate.new }
        ensures followed { T.meaning.is_sure gate.new → (s : State) → T.meaning.represents gate.old s
            → IsPolicyFollowed N.holds N.writes N.publishes s moment request.now answer.now result self.old self.new }
    {
        if !self.is_due && !may_change(request, answer) {
            return Ok(None);
        }
        let brought = bring(alloc, gate, self.folders, self.path, moment);
        self.is_due = brought.is_err();
        brought
    }
}

/// Follows a request that was handled, if the policy is brought into a folder.
pub(crate) fn follow<T: Tables, N: Folder>(
    alloc: Global,
    gate: &mut Gate<T>,
    folder: &mut Option<PolicyFolder<'_, N>>,
    moment: u64,
    request: &Request,
    answer: &Answer,
) -> Result<Option<KeptText>, PolicyFault>
    ensures kept { IsKept T.meaning gate.old gate.new }
    ensures followed { T.meaning.is_sure gate.new → (s : State) → T.meaning.represents gate.old s
        → IsPolicyKept N.holds N.writes N.publishes s moment request.now answer.now result folder.old folder.new }
{
    match folder {
        Some(folder) => folder.follow(alloc, gate, moment, request, answer),
        None => Ok(None),
    }
}
