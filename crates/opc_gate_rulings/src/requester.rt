//! The console of a request, and who acts there.
ghost use Rattle.std.specs.Prelude.{◌≡◌, ◌&&◌, IfOk, Some};
ghost use Rattle.std.specs.Option.{is_none};
ghost use Rattle.opc_board.specs.Invariants.{Name, console_at};
ghost use Rattle.opc_state.specs.Asked.{Answers, Loads};
ghost use Rattle.opc_state.specs.State.{State};
ghost use Rattle.opc_machine.specs.Rights.{is_owner, is_special, sees_all};
ghost use Rattle.opc_machine.specs.Rulings.{is_required, is_revoked};
ghost use Rattle.opc_gate_rulings.specs.Requester.{IsConsoleFor, IsOfStored, IsRequester};

use crate::ruling::acting_on;
use opc_board::rows::ConsoleRow;
use opc_machine::outcome::Refusal;
use opc_policy_members::profile::Profile;
use opc_policy_members::user::User;
use opc_state::tables::Tables;
use opc_terms::fault::Fault;
use opc_terms::mode::Mode;
use opc_terms::rule::Rule;
use opc_terms::store_fault::StoreFault;
use std::alloc::Global;

/// A console that may make a request, and who acts there, if anybody does.
#[derive(Clone, Copy)]
pub struct Requester {
    pub console: ConsoleRow,
    pub user: Option<User>,
}

/// Who makes a request at a console, or why nobody may.
#[derive(Clone, Copy)]
pub enum Asking {
    By(Requester),
    Refused(Refusal),
}

/// The console of a name, whose row is loaded: it must be there (E10), and online (E11).
pub fn console_for(console: Option<ConsoleRow>) -> Result<ConsoleRow, Refusal>
    ensures console { (s : State) → (name : Name) → console ≡ console_at s.board name → IsConsoleFor s name result }
    ensures row { IfOk result (λ row. console ≡ Some row) }
{
    let Some(row) = console else {
        return Err(Refusal {
            fault: Fault::NoConsole,
            rule: None,
        });
    };
    if !row.online {
        return Err(Refusal {
            fault: Fault::ConsoleOffline,
            rule: None,
        });
    }
    Ok(row)
}

// Whether nobody is logged on at a console that requires a logon.
fn lacks_logon(console: &ConsoleRow) -> bool
    ensures { result ≡ is_required console.now.mode && is_none console.now.user }
{
    match console.mode {
        Mode::Required => console.user.is_none(),
        Mode::Optional | Mode::Auto => false,
    }
}

fn is_revoked(user: &Option<User>) -> bool
    ensures { result ≡ is_revoked user.now }
{
    match user {
        Some(user) => user.revoked,
        None => false,
    }
}

/// The console of a request, whose row is loaded, and who acts there. It must be there and online; somebody must be
/// logged on if its mode is REQUIRED (E12), and the acting user must not be revoked (E13). If a user is logged on who
/// is not stored, this fails.
pub fn requester_on<T: Tables>(
    tables: &mut T,
    alloc: Global,
    console: Option<ConsoleRow>,
) -> Result<Asking, StoreFault>
    ensures asking { Loads T.meaning tables.old tables.new result
        (λ s asking. (name : Name) → console ≡ console_at s.board name → IsRequester s name asking) }
    ensures stored { Answers T.meaning tables.old tables.new result (λ s asking. IsOfStored s.policy asking) }
{
    let console = match console_for(console) {
        Ok(console) => console,
        Err(refusal) => return Ok(Asking::Refused(refusal)),
    };
    if lacks_logon(&console) {
        return Ok(Asking::Refused(Refusal {
            fault: Fault::LogonRequired,
            rule: Some(Rule::LogonRequired),
        }));
    }
    let user = acting_on(tables, alloc, &console)?;
    if is_revoked(&user) {
        return Ok(Asking::Refused(Refusal {
            fault: Fault::Revoked,
            rule: Some(Rule::Revoked),
        }));
    }
    Ok(Asking::By(Requester { console, user }))
}

/// Whether there is a user, and the user is SPECIAL.
pub fn is_special(user: &Option<User>) -> bool
    ensures { result ≡ is_special user.now }
{
    match user {
        Some(user) => user.special,
        None => false,
    }
}

/// Whether the acting user is SPECIAL or AUDITOR.
pub fn sees_all(user: &Option<User>) -> bool
    ensures { result ≡ sees_all user.now }
{
    match user {
        Some(user) => user.special || user.auditor,
        None => false,
    }
}

/// Whether a user owns a profile.
pub fn owns(user: &User, profile: &Profile) -> bool
    ensures { result ≡ is_owner (Some user.now) (Some profile.now) }
{
    profile.owner == user.id
}

/// Whether the acting user owns a profile.
pub fn is_owner(user: &Option<User>, profile: &Profile) -> bool
    ensures { result ≡ is_owner user.now (Some profile.now) }
{
    match user {
        Some(user) => owns(user, profile),
        None => false,
    }
}
