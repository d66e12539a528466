//! The console that a request names, and for whom it acts.
ghost use Rattle.std.specs.Prelude.{◌≡◌, IfSome};
ghost use Rattle.std.specs.Option.{option_and_then};
ghost use Rattle.opc_board.specs.Invariants.{console_at};
ghost use Rattle.opc_state.specs.Asked.{Answers, Loads};
ghost use Rattle.opc_state.specs.Invariants.{IsKeyed};
ghost use Rattle.opc_machine.specs.Inputs.{console_of, input_of};
ghost use Rattle.opc_machine.specs.Machine.{user_acting};

use opc_board::rows::ConsoleRow;
use opc_gate_rulings::ruling::acting_user_on;
use opc_machine::request::Request;
use opc_names::name::{ConsoleName, UserId};
use opc_state::tables::Tables;
use opc_terms::store_fault::StoreFault;
use std::alloc::Global;

pub(crate) fn console_of(request: &Request) -> Option<ConsoleName>
    ensures { result ≡ console_of (input_of request.now) }
{
    match request {
        Request::Command { console, .. }
        | Request::Admin { console, .. }
        | Request::ListProfiles { console, .. }
        | Request::ListAccount { console, .. }
        | Request::Import { console, .. } => Some(*console),
        Request::Event(_) => None,
    }
}

// The row of the console that a request names. If it names one, the state is in the order of its keys.
pub(crate) fn console_on<T: Tables>(
    tables: &mut T,
    request: &Request,
) -> Result<Option<ConsoleRow>, StoreFault>
    ensures console { Loads T.meaning tables.old tables.new result
        (λ s console. console ≡ option_and_then (console_at s.board) (console_of (input_of request.now))) }
    ensures keyed { Answers T.meaning tables.old tables.new result
        (λ s _. IfSome (console_of (input_of request.now)) (λ _. IsKeyed s)) }
{
    match console_of(request) {
        Some(name) => tables.console(&name),
        None => Ok(None),
    }
}

// For whom the console of a request acts, if it names one that is there.
pub(crate) fn acting_user_at<T: Tables>(
    tables: &mut T,
    alloc: Global,
    request: &Request,
) -> Result<Option<UserId>, StoreFault>
    ensures { Loads T.meaning tables.old tables.new result (λ s user. user ≡ user_acting s (input_of request.now)) }
{
    match console_on(tables, request)? {
        Some(console) => acting_user_on(tables, alloc, &console),
        None => Ok(None),
    }
}
