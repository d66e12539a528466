//! What follows an exchange besides its response.
use opc_board::text::KeptText;
use opc_gate::gate::Gate;
use opc_io::sink::Sink;
use opc_machine::request::{Answer, Request};
use opc_policy_folder::fault::PolicyFault;
use opc_state::tables::Tables;
use std::alloc::Global;

/// What follows exchanges: whether their log entries are requested, and what is done once a request is handled, before
/// its response.
pub trait Trail {
    ghost use Rattle.std.specs.Prelude.{◌≡◌, ℕ, Bool, List, Option, Result};
    ghost use Rattle.opc_machine.specs.declared.request.Answer.{Answer};
    ghost use Rattle.opc_machine.specs.declared.request.Request.{Request};
    ghost use Rattle.opc_policy_folder.specs.declared.fault.PolicyFault.{PolicyFault};
    ghost use Rattle.opc_state.specs.Changes.{IsKept};
    ghost use Rattle.opc_state.specs.State.{State};

    /// Whether the log entry of an exchange is requested.
    ghost tells: { Self → Bool };

    /// A request was handled at this time, with this answer, and led to this state, while a writer held this. Then this
    /// is what became of the policy.
    ghost follows: { Self → (after : State) → (moment : ℕ) → Request → Answer → (held : Option (List ℕ))
        → Result (Option (List ℕ)) PolicyFault → Self → Type 0 };

    /// What is not about the policy stays.
    ghost stays: { Self → Self → Type 0 };

    fn is_told(&self) -> bool
        ensures { result ≡ tells self.now };

    /// Follows a request that was handled, before anything of its response is written.
    fn follow<T: Tables, K: Sink>(
        &mut self,
        alloc: Global,
        gate: &mut Gate<T>,
        sink: &K,
        moment: u64,
        request: &Request,
        answer: &Answer,
    ) -> Result<Option<KeptText>, PolicyFault>
        ensures kept { IsKept T.meaning gate.old gate.new }
        ensures stays { stays self.old self.new }
        ensures follows { T.meaning.is_sure gate.new → (s : State) → T.meaning.represents gate.old s
            → follows self.old s moment request.now answer.now (K.held sink.now) result self.new };
}

/// Nothing follows.
impl Trail for () {
    ghost use Rattle.std.specs.Prelude.{◌≡◌, ⊤, None, Ok, false};

    ghost tells = { λ _. false };

    ghost follows = { λ _ _ _ _ _ _ policy _. policy ≡ Ok None };

    ghost stays = { λ _ _. ⊤ };

    fn is_told(&self) -> bool {
        false
    }

    fn follow<T: Tables, K: Sink>(
        &mut self,
        _alloc: Global,
        _gate: &mut Gate<T>,
        _sink: &K,
        _moment: u64,
        _request: &Request,
        _answer: &Answer,
    ) -> Result<Option<KeptText>, PolicyFault> {
        Ok(None)
    }
}
