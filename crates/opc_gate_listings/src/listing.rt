//! The outcome of a listing.
ghost use Rattle.std.specs.Prelude.{IfOk, None};
ghost use Rattle.opc_state.specs.State.{State};
ghost use Rattle.opc_machine.specs.Effects.{IsOutcome};
ghost use Rattle.opc_machine.specs.Outcome.{does};

use opc_board::line::Line;
use opc_machine::outcome::{Effect, Outcome};
use opc_rows::Rows;
use opc_terms::store_fault::StoreFault;
use std::alloc::Global;

// Lines, without a rule that decided; nothing changes.
pub(crate) fn listing(alloc: Global, lines: Rows<Line>) -> Result<Outcome, StoreFault>
    ensures { (s : State) → IfOk result (IsOutcome s (does s lines None)) }
{
    Ok(Outcome::Done(Effect {
        edits: Vec::new(alloc),
        lines,
        rule: None,
    }))
}
