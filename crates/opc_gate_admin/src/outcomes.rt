//! The outcomes of operations: an effect by one edit, or a refusal for a name.
ghost use Rattle.std.specs.Prelude.{◌≡◌, ◌∷◌, [], IfOk, None, Ok};
ghost use Rattle.opc_terms.specs.declared.fault.Fault.TheVariants as why;
ghost use Rattle.opc_gate_admin.specs.Operations.{IsDoneBy};

use opc_machine::outcome::{Outcome, done, refused};
use opc_names::name::{Name, NameKind};
use opc_state::change::Edit;
use opc_terms::fault::{Fault, Subject};
use opc_terms::store_fault::StoreFault;
use std::alloc::{AllocError, Global};

/// Something with this name is in the way.
pub(crate) fn exists<K: NameKind<N>, const N: usize>(
    name: &Name<K, N>,
) -> Result<Outcome, StoreFault>
    ensures { result ≡ Ok (Outcome.Refused (record { fault = why.Exists name.now; rule = None })) }
{
    refused(Fault::Exists(Subject::of(name)), None)
}

/// Nothing with this name is stored.
pub(crate) fn missing<K: NameKind<N>, const N: usize>(
    name: &Name<K, N>,
) -> Result<Outcome, StoreFault>
    ensures { result ≡ Ok (Outcome.Refused (record { fault = why.Missing name.now; rule = None })) }
{
    refused(Fault::Missing(Subject::of(name)), None)
}

fn one(alloc: Global, edit: Edit) -> Result<Vec<Edit>, AllocError>
    ensures { IfOk result (λ edits. edits.items ≡ edit ∷ []) }
{
    let mut edits = Vec::new(alloc);
    edits.push(edit)?;
    Ok(edits)
}

/// An effect by one edit, without lines.
pub(crate) fn done_by(alloc: Global, edit: Edit) -> Result<Outcome, StoreFault>
    ensures { IfOk result (λ o. IsDoneBy edit o) }
{
    let edits = one(alloc, edit)?;
    done(alloc, edits, None)
}
