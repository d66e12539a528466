//! Why rows are refused, as the tables show it.
ghost use Rattle.std.specs.Prelude.{◌≡◌, Some};
ghost use Rattle.opc_state.specs.Changes.{IsKept};
ghost use Rattle.opc_state.specs.PolicyFile.{rows_of};
ghost use Rattle.opc_state.specs.State.{State};
ghost use Rattle.opc_machine.specs.Inputs.{console_of, input_of};
ghost use Rattle.opc_cli_questions.specs.Refusals.{TellsOf};
ghost use Rattle.opc_cli_program.specs.Refusals.{TellsWho, reason_of, who_is_there};

use opc_cli_failures::failure::{Failure, Place};
use opc_cli_failures::reason::Reason;
use opc_cli_questions::refusals::refused;
use opc_gate::gate::Gate;
use opc_gate::request::Request;
use opc_names::name::{ConsoleName, UserId};
use opc_policy_members::row::Row;
use opc_state::tables::Tables;
use opc_terms::fault::{Fault, Subject};
use std::alloc::Global;

/// Where a first policy comes from.
#[derive(Clone, Copy)]
pub(crate) enum FirstPolicy {
    /// The policy file that a run names.
    Named,
    /// An import, whose rows are in this place.
    Imported(Place),
}

impl FirstPolicy {
    /// The place of its rows.
    fn place(self) -> Place {
        match self {
            FirstPolicy::Named => Place::PolicyFile,
            FirstPolicy::Imported(place) => place,
        }
    }

    /// Why it is refused where users are stored.
    fn if_users(self) -> Reason {
        match self {
            FirstPolicy::Named => Reason::UsersRun,
            FirstPolicy::Imported(_) => Reason::UsersImported,
        }
    }
}

/// The fault of the rows of a text that are refused over what the tables hold, with the row whose fault it is, if that
/// is found.
fn refused_over<T: Tables>(
    alloc: Global,
    gate: &mut Gate<T>,
    place: Place,
    text: &[u8],
    rows: &[Row],
    fault: Fault,
) -> Failure
    ensures fault { result.fault ≡ fault }
    ensures told { T.meaning.is_sure gate.new → (s : State) → T.meaning.represents gate.old s
        → TellsOf text.now (rows_of s.policy s.board.consoles) rows.now result.cause }
    ensures kept { IsKept T.meaning gate.old gate.new }
{
    match gate.export(alloc) {
        Ok(stored) => refused(alloc, place, text, &stored, rows, fault),
        Err(_) => Failure { fault, cause: None },
    }
}

/// The fault of a first policy that was not taken, and its cause.
#[tactic(auto, using(crate::proofs::Kept::untouched))]
pub(crate) fn not_taken<T: Tables>(
    alloc: Global,
    gate: &mut Gate<T>,
    policy: FirstPolicy,
    text: &[u8],
    rows: &[Row],
    fault: Fault,
) -> Failure
    ensures fault { result.fault ≡ fault }
    ensures kept { IsKept T.meaning gate.old gate.new }
{
    match fault {
        Fault::NotEmpty => Failure::of(fault, Place::Database, policy.if_users()),
        Fault::Exists(_) | Fault::Missing(_) => {
            refused_over(alloc, gate, policy.place(), text, rows, fault)
        }
        // The code and the text of any other fault say enough.
        _ => Failure::of_gate(fault),
    }
}

/// Why nobody with SPECIAL is found: this user acts, or nobody.
fn reason_of(user: Option<UserId>) -> Reason
    ensures { result ≡ reason_of user }
{
    match user {
        Some(user) => Reason::NotSpecial(Subject::of(&user)),
        None => Reason::NobodyOn,
    }
}

/// The fault, with the console at which nobody with SPECIAL is found, and why.
fn not_special(fault: Fault, console: &ConsoleName, user: Option<UserId>) -> Failure
    ensures fault { result.fault ≡ fault }
    ensures cause { result.cause ≡ Some (who_is_there console.now user) }
{
    Failure::of(fault, Place::Console(Subject::of(console)), reason_of(user))
}

/// The fault of an import at a console for which nobody with SPECIAL acts, and who acts for it, if that can be loaded.
#[tactic(auto, using(crate::proofs::Kept::untouched))]
fn refused_at<T: Tables>(
    alloc: Global,
    gate: &mut Gate<T>,
    console: &ConsoleName,
    request: &Request,
) -> Failure
    ensures fault { result.fault ≡ Fault.NotSpecial }
    ensures who { console_of (input_of request.now) ≡ Some console.now
        → T.meaning.is_sure gate.new → (s : State) → T.meaning.represents gate.old s
        → TellsWho s (input_of request.now) result }
    ensures kept { IsKept T.meaning gate.old gate.new }
{
    match gate.acting_user(alloc, request) {
        Ok(user) => not_special(Fault::NotSpecial, console, user),
        Err(_) => Failure::of_gate(Fault::NotSpecial),
    }
}

/// The fault of an import that is refused at a console, and its cause. The rows come from this place.
#[tactic(auto, using(crate::proofs::Kept::untouched))]
pub(crate) fn not_imported<T: Tables>(
    alloc: Global,
    gate: &mut Gate<T>,
    place: Place,
    text: &[u8],
    request: &Request,
    fault: Fault,
) -> Failure
    ensures fault { result.fault ≡ fault }
    ensures who { T.meaning.is_sure gate.new → (s : State) → T.meaning.represents gate.old s
        → TellsWho s (input_of request.now) result }
    ensures kept { IsKept T.meaning gate.old gate.new }
{
    let Request::Import { console, rows, .. } = request else {
        return Failure::of_gate(fault);
    };
    match fault {
        Fault::NotSpecial => refused_at(alloc, gate, console, request),
        Fault::LogonRequired => not_special(fault, console, None),
        Fault::NoConsole => Failure::of(
            fault,
            Place::Console(Subject::of(console)),
            Reason::NoSuchConsole,
        ),
        Fault::Exists(_) | Fault::Missing(_) => {
            refused_over(alloc, gate, place, text, rows.as_slice(), fault)
        }
        // The code and the text of any other fault say enough.
        _ => Failure::of_gate(fault),
    }
}
