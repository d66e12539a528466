//! The outcomes of commands and events: loads, and no change.
ghost use Rattle.std.specs.Prelude.{◌≡◌, ◌≢◌, IfOk, None, Some, [], false};
ghost use Rattle.opc_board.specs.declared.fault.BoardFault.TheVariants.{NoMemory};
ghost use Rattle.opc_board.specs.Consoles.{logged_on};
ghost use Rattle.opc_board.specs.Effect.{is_session_command};
ghost use Rattle.opc_board.specs.Invariants.{Name, console_at, unit_kind};
ghost use Rattle.opc_state.specs.Asked.{Loads};
ghost use Rattle.opc_gate_commands.specs.Acted.{allowed_command};
ghost use Rattle.opc_gate_commands.specs.Named.{unit_named};
ghost use Rattle.opc_gate_footprints.specs.Loading.{IsUnitOf};
ghost use Rattle.opc_machine.specs.Commands.{
  board_command as board_outcome,
  command_in,
  command_outcome,
  denial_fault,
  event_outcome,
  is_display,
  is_password,
  known_by,
  logoff as logoff_outcome,
  logon_fault,
  logon as logon_outcome,
  without_need as no_need_outcome,
  typed as typed_outcome,
  need_of,
};
ghost use Rattle.opc_machine.specs.Effects.{IsOutcome};
ghost use Rattle.opc_machine.specs.Faults.{board_fault};
ghost use Rattle.opc_machine.specs.Outcome.{does};
ghost use Rattle.opc_gate_rulings.specs.RulingBasis.{IsRulingBasis};

use crate::displays::{display_on, is_display};
use crate::effects::{act_on, apply_event, log_off, log_on};
use opc_board::event::Event;
use opc_board::fault::BoardFault;
use opc_board::rows::{ConsoleRow, UnitRow};
use opc_gate_footprints::footprint::{console_footprint_on, event_footprint_on, footprint_on};
use opc_gate_rulings::requester::console_for;
use opc_gate_rulings::ruling::{
    RulingBasis, logon_ruling_on, ruling_basis_at, ruling_on, shown_lines,
};
use opc_machine::fault;
use opc_machine::outcome::{Effect, Outcome, Refusal, done, refused};
use opc_names::name::UserId;
use opc_policy::ruling::Ruling;
use opc_policy_members::user::User;
use opc_reader::line::read_command;
use opc_reader_commands::command::{Command, Password};
use opc_state::tables::Tables;
use opc_table::need;
use opc_terms::fault::Fault;
use opc_terms::need::Need;
use opc_terms::rule::Rule;
use opc_terms::store_fault::StoreFault;
use opc_terms::unit_kind::UnitKindAt;
use sha2::{Digest, Sha256};
use std::alloc::Global;

// The command that a text is, or the refusal of one that is none.
fn command_in(text: &str) -> Result<Command<'_>, Refusal>
    ensures { result ≡ command_in text.now }
{
    match read_command(text) {
        Ok(command) => Ok(command),
        Err(fault) => Err(Refusal {
            fault: fault::of_line(fault),
            rule: None,
        }),
    }
}

fn denial_fault(rule: &Rule) -> Fault
    ensures { result ≡ denial_fault rule.now }
{
    match rule {
        Rule::LogonRequired => Fault::LogonRequired,
        Rule::Revoked => Fault::Revoked,
        Rule::Profile { .. } | Rule::NoProfile => Fault::DeniedProfile,
        Rule::ConsoleGroup { .. } => Fault::DeniedGroup,
    }
}

fn logon_fault(rule: &Rule) -> Fault
    ensures { result ≡ logon_fault rule.now }
{
    match rule {
        Rule::Revoked => Fault::Revoked,
        // READ on the console is denied by a profile, and no other rule denies a logon.
        _ => Fault::DeniedConsole,
    }
}

// The unit that a command names, if what the command needs depends on what the unit is.
fn unit_named<T: Tables>(
    tables: &mut T,
    command: &Command<'_>,
) -> Result<Option<UnitRow>, StoreFault>
    ensures { Loads T.meaning tables.old tables.new result (λ s unit. unit ≡ unit_named s.board command.now) }
{
    match command {
        Command::Cancel(name) => tables.unit(&name.value),
        Command::Force(name) => tables.unit(&name.value),
        Command::Stop(name) => tables.unit(&name.value),
        Command::Modify(name, _) => tables.unit(&name.value),
        // What the other commands need does not depend on a unit.
        _ => Ok(None),
    }
}

fn unit_kind(unit: &Option<UnitRow>) -> UnitKindAt
    ensures { result ≡ unit_kind unit.now }
{
    match unit {
        Some(unit) => unit.kind.found(),
        None => UnitKindAt::Absent,
    }
}

// The fault of what the board refuses; if an allocation failed, the request is aborted.
fn board_fault(fault: BoardFault) -> Result<Fault, StoreFault>
    ensures { IfOk result (λ why. (fault ≢ NoMemory) × (why ≡ board_fault fault)) }
{
    match fault {
        BoardFault::NoMemory => Err(StoreFault::NoMemory),
        fault => Ok(fault::of_board(fault)),
    }
}

// The outcome of a command, if a rule allows it and it does more than show. The unit that it names may be loaded
// already.
fn effect_on<T: Tables>(
    tables: &mut T,
    alloc: Global,
    basis: &RulingBasis,
    console: &ConsoleRow,
    command: &Command<'_>,
    unit: Option<UnitRow>,
    rule: Rule,
) -> Result<Outcome, StoreFault>
    requires session { is_session_command command.now ≡ false }
    requires display { is_display command.now ≡ false }
    ensures { Loads T.meaning tables.old tables.new result
        (λ s o. console_at s.board console.now.name ≡ Some console.now → IsUnitOf s unit
        → IsRulingBasis s console.now basis.now
        → IsOutcome s (allowed_command s console.now command.now rule) o) }
{
    let board = footprint_on(tables, alloc, command, console, unit)?;
    let acted = match act_on(alloc, board, command, &console.name) {
        Ok(acted) => acted,
        Err(fault) => return refused(board_fault(fault)?, Some(rule)),
    };
    let lines = shown_lines(tables, alloc, basis, console, acted.lines)?;
    Ok(Outcome::Done(Effect {
        edits: acted.edits,
        lines,
        rule: Some(rule),
    }))
}

fn board_command<T: Tables>(
    tables: &mut T,
    alloc: Global,
    console: &ConsoleRow,
    command: &Command<'_>,
    unit: Option<UnitRow>,
    need: &Need,
) -> Result<Outcome, StoreFault>
    requires { is_session_command command.now ≡ false }
    ensures { Loads T.meaning tables.old tables.new result
        (λ s o. console_at s.board console.now.name ≡ Some console.now → IsUnitOf s unit
        → IsOutcome s (board_outcome s console.now command.now need.now) o) }
{
    let basis = ruling_basis_at(tables, alloc, console)?;
    let rule = match ruling_on(tables, alloc, &basis, console, need)? {
        Ruling::Allowed(rule) => rule,
        Ruling::Denied(rule) => return refused(denial_fault(&rule), Some(rule)),
    };
    if is_display(command) {
        display_on(tables, alloc, &basis, console, command, rule)
    } else {
        effect_on(tables, alloc, &basis, console, command, unit, rule)
    }
}

fn is_password(password: &Password, digest: &Option<[u8; 32]>) -> bool
    ensures { result ≡ is_password password.now digest.now }
{
    match digest {
        Some(digest) => {
            let typed = Sha256::digest(password.text().as_bytes());
            digest.as_slice() == typed.as_slice()
        }
        None => false,
    }
}

// The user of a logon, if the password is the user's.
fn known_by<T: Tables>(
    tables: &mut T,
    alloc: Global,
    id: &UserId,
    password: &Password,
) -> Result<Option<User>, StoreFault>
    ensures { Loads T.meaning tables.old tables.new result (λ s user. user ≡ known_by s id.now password.now) }
{
    match tables.user(alloc, id)? {
        Some(user) if is_password(password, &user.digest) => Ok(Some(user)),
        // A missing user and a wrong password are refused alike (E14).
        _ => Ok(None),
    }
}

// A logon that is admitted.
fn admit<T: Tables>(
    tables: &mut T,
    alloc: Global,
    console: &ConsoleRow,
    user: UserId,
    rule: Rule,
) -> Result<Outcome, StoreFault>
    requires { console.now.user ≡ None }
    ensures { Loads T.meaning tables.old tables.new result
        (λ s o. console_at s.board console.now.name ≡ Some console.now
        → IsOutcome s (does (record s { board = logged_on console.now.name user s.board }) [] (Some rule)) o) }
{
    let board = console_footprint_on(tables, alloc, console)?;
    let edits = log_on(alloc, board, console, user)?;
    done(alloc, edits, Some(rule))
}

fn logon<T: Tables>(
    tables: &mut T,
    alloc: Global,
    console: &ConsoleRow,
    id: &UserId,
    password: &Password,
) -> Result<Outcome, StoreFault>
    ensures { Loads T.meaning tables.old tables.new result
        (λ s o. console_at s.board console.now.name ≡ Some console.now
        → IsOutcome s (logon_outcome s console.now id.now password.now) o) }
{
    if let Some(user) = console.user {
        return refused(Fault::AlreadyOn(user), None);
    }
    let Some(user) = known_by(tables, alloc, id, password)? else {
        return refused(Fault::BadLogon, None);
    };
    match logon_ruling_on(tables, alloc, console, &user)? {
        Ruling::Allowed(rule) => admit(tables, alloc, console, *id, rule),
        Ruling::Denied(rule) => refused(logon_fault(&rule), Some(rule)),
    }
}

fn logoff<T: Tables>(
    tables: &mut T,
    alloc: Global,
    console: &ConsoleRow,
) -> Result<Outcome, StoreFault>
    ensures { Loads T.meaning tables.old tables.new result
        (λ s o. console_at s.board console.now.name ≡ Some console.now → IsOutcome s (logoff_outcome s console.now) o) }
{
    if console.user.is_none() {
        return refused(Fault::NotOn, None);
    }
    let board = console_footprint_on(tables, alloc, console)?;
    let edits = log_off(alloc, board, console)?;
    done(alloc, edits, None)
}

// LOGON and LOGOFF, which need nothing.
fn without_need<T: Tables>(
    tables: &mut T,
    alloc: Global,
    console: &ConsoleRow,
    command: &Command<'_>,
) -> Result<Outcome, StoreFault>
    ensures { Loads T.meaning tables.old tables.new result
        (λ s o. console_at s.board console.now.name ≡ Some console.now
        → IsOutcome s (no_need_outcome s console.now command.now) o) }
{
    match command {
        Command::Logon(id, password) => logon(tables, alloc, console, &id.value, &password.value),
        Command::Logoff => logoff(tables, alloc, console),
        // No command gets here: every other one needs something. The answer is the definition's own last case.
        _ => done(alloc, Vec::new(alloc), None),
    }
}

fn typed<T: Tables>(
    tables: &mut T,
    alloc: Global,
    console: &ConsoleRow,
    command: &Command<'_>,
) -> Result<Outcome, StoreFault>
    ensures { Loads T.meaning tables.old tables.new result
        (λ s o. console_at s.board console.now.name ≡ Some console.now
        → IsOutcome s (typed_outcome s console.now command.now (need_of s.board command.now)) o) }
{
    let unit = unit_named(tables, command)?;
    match need(command, unit_kind(&unit)) {
        Some(need) => board_command(tables, alloc, console, command, unit, &need),
        None => without_need(tables, alloc, console, command),
    }
}

/// The outcome of a command that is typed at a console, whose row is loaded. It loads only what the tests that are
/// reached need: no footprint is loaded for a command that is denied.
pub fn command_on<T: Tables>(
    tables: &mut T,
    alloc: Global,
    console: Option<ConsoleRow>,
    text: &str,
) -> Result<Outcome, StoreFault>
    ensures { Loads T.meaning tables.old tables.new result
        (λ s o. (name : Name) → console ≡ console_at s.board name → IsOutcome s (command_outcome s name text.now) o) }
{
    let console = match console_for(console) {
        Ok(console) => console,
        Err(refusal) => return Ok(Outcome::Refused(refusal)),
    };
    match command_in(text) {
        Ok(command) => typed(tables, alloc, &console, &command),
        Err(refusal) => Ok(Outcome::Refused(refusal)),
    }
}

/// The outcome of an event.
pub fn event_on<T: Tables>(
    tables: &mut T,
    alloc: Global,
    event: &Event,
) -> Result<Outcome, StoreFault>
    ensures { Loads T.meaning tables.old tables.new result (λ s o. IsOutcome s (event_outcome s event.now) o) }
{
    let board = event_footprint_on(tables, alloc, event)?;
    match apply_event(alloc, board, event) {
        Ok(edits) => done(alloc, edits, None),
        Err(fault) => refused(board_fault(fault)?, None),
    }
}
