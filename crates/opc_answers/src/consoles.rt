//! The lines of unattended consoles.
ghost use Rattle.std.specs.Prelude.{◌≡◌, IfOk, Some};
ghost use Rattle.std.specs.Option.{is_some, option_and_then, option_copied, option_map};
ghost use Rattle.opc_names.specs.declared.class.Class.TheVariants.{Opercmds};
ghost use Rattle.opc_policy_members.specs.Members.{user_of};
ghost use Rattle.opc_machine.specs.Rulings.{access_ruling, is_required, is_revoked, own_user, ruling};
ghost use Rattle.opc_answers.specs.Made.{state_of};
ghost use Rattle.opc_answers.specs.Deciding.{decider};
ghost use Rattle.opc_answers.specs.Who.{by_decider, console_by, console_line, console_lines, nobody_at, said_of, shows_by};

use crate::room::Room;
use crate::shows::{Said, Shows, said_of};
use crate::wanted::Entered;
use opc_board::board::Board;
use opc_board::rows::ConsoleRow;
use opc_names::name::{ConsoleName, GroupName, UserId};
use opc_policy::ruling::{Ruling, console_ruling, profile_ruling};
use opc_policy_members::policy::Policy;
use opc_policy_members::profile::Profile;
use opc_policy_members::user::User;
use opc_rows::Rows;
use opc_terms::mode::Mode;
use opc_terms::need::Need;
use opc_terms::rule::Rule;
use std::alloc::{AllocError, Global};

/// What is said of a command at a console where nobody is on, whether the console acts for the user of its name, and
/// whether the ruling is that the line is hidden which the command asks for.
#[derive(Clone, Copy)]
pub struct ConsoleLine {
    pub name: ConsoleName,
    pub own: bool,
    pub ruling: Ruling,
    pub hidden: bool,
}

// The id of a console's own user, which is the console's name.
fn own_id(name: &ConsoleName) -> UserId
    ensures { result ≡ name.now }
{
    name.as_kind()
}

/// The console's own user, if it acts for one while unattended.
#[tactic(auto, using(crate::proofs::Ruled::own_found, crate::proofs::Ruled::own_so))]
fn own_user<'a>(policy: &'a Policy, board: &Board, console: &ConsoleRow) -> Option<&'a User>
    ensures user { option_copied result ≡ option_and_then (user_of policy.entry.now.users)
        (own_user (state_of policy.entry.now board.now) console.now) }
    ensures own { is_some (option_copied result)
        ≡ is_some (own_user (state_of policy.entry.now board.now) console.now) }
{
    match console.mode {
        Mode::Auto => policy.users.get(&own_id(&console.name)),
        Mode::Optional | Mode::Required => None,
    }
}

/// Whether the console acts for such a user.
fn is_own(policy: &Policy, board: &Board, console: &ConsoleRow) -> bool
    ensures { result ≡ is_some (own_user (state_of policy.now board.now) console.now) }
{
    own_user(policy, board, console).is_some()
}

/// By the profile that decides or, if none does, by the authority of the console.
fn by_decider(
    decided: Option<&Profile>,
    user: &User,
    console: &ConsoleRow,
    groups: &[GroupName],
    need: &Need,
) -> Ruling
    ensures { result ≡ by_decider (option_copied decided.entry) user.now (Some console.now.name) groups.now
        console.now.auth need.now }
{
    match decided {
        Some(profile) => profile_ruling(profile, user, Some(&console.name), groups, need.level),
        None => console_ruling(console.auth, need),
    }
}

/// The same, and by that authority if the console acts for nobody.
#[tactic(auto, using(crate::proofs::Ruled::access_by))]
fn access_ruling(
    alloc: Global,
    policy: &Policy,
    board: &Board,
    decided: Option<&Profile>,
    need: &Need,
    console: &ConsoleRow,
    user: Option<&User>,
) -> Result<Ruling, AllocError>
    requires { option_copied decided ≡ decider policy.now Opercmds need.now.resource }
    ensures { IfOk result (λ ruling. ruling ≡ access_ruling (state_of policy.now board.now) console.now
        (option_copied user.entry) need.now) }
{
    match user {
        Some(user) => {
            let groups = policy.connects.groups_of(alloc, &user.id)?;
            Ok(by_decider(decided, user, console, &groups, need))
        }
        None => Ok(console_ruling(console.auth, need)),
    }
}

fn is_required(mode: Mode) -> bool
    ensures { result ≡ is_required mode }
{
    match mode {
        Mode::Required => true,
        Mode::Optional | Mode::Auto => false,
    }
}

fn is_revoked(user: Option<&User>) -> bool
    ensures { result ≡ is_revoked (option_copied user.entry) }
{
    match user {
        Some(user) => user.revoked,
        None => false,
    }
}

/// The name of the console's own user, if it acts for one while unattended.
pub(crate) fn own_name(policy: &Policy, board: &Board, console: &ConsoleRow) -> Option<UserId>
    ensures { result ≡ own_user (state_of policy.now board.now) console.now }
{
    match own_user(policy, board, console) {
        Some(_) => Some(own_id(&console.name)),
        None => None,
    }
}

/// The ruling on a command at an unattended console.
#[tactic(auto, using(crate::proofs::Ruled::where_required, crate::proofs::Ruled::where_revoked, crate::proofs::Ruled::where_allowed_to_act,))]
pub(crate) fn ruling(
    alloc: Global,
    policy: &Policy,
    board: &Board,
    decided: Option<&Profile>,
    need: &Need,
    console: &ConsoleRow,
) -> Result<Ruling, AllocError>
    requires { option_copied decided ≡ decider policy.now Opercmds need.now.resource }
    ensures { IfOk result (λ answer. answer ≡ ruling (state_of policy.now board.now) (nobody_at console.now) need.now) }
{
    if is_required(console.mode) {
        return Ok(Ruling::Denied(Rule::LogonRequired));
    }
    let user = own_user(policy, board, console);
    if is_revoked(user) {
        return Ok(Ruling::Denied(Rule::Revoked));
    }
    access_ruling(alloc, policy, board, decided, need, console, user)
}

fn console_ruled(console: &ConsoleRow, own: bool, ruling: &Ruling, hidden: bool) -> ConsoleLine
    ensures { result ≡ record { name = console.now.name; own = own; ruling = ruling.now; hidden = hidden } }
{
    ConsoleLine {
        name: console.name,
        own,
        ruling: *ruling,
        hidden,
    }
}

fn said_of_rulings(command: &Ruling, line: &Ruling) -> Said
    ensures { result ≡ said_of (Some command.now) (Some line.now) }
{
    said_of(&Some(*command), &Some(*line))
}

/// What is said of two rulings, the command's and the line's.
fn console_said(console: &ConsoleRow, own: bool, command: &Ruling, line: &Ruling) -> ConsoleLine
    ensures { result ≡ console_by console.now.name own command.now (Some line.now) }
{
    match said_of_rulings(command, line) {
        Said::OfCommand => console_ruled(console, own, command, false),
        Said::OfLine => console_ruled(console, own, line, false),
        Said::Hidden => console_ruled(console, own, line, true),
    }
}

fn console_by(console: &ConsoleRow, own: bool, command: Ruling, line: Option<Ruling>) -> ConsoleLine
    ensures { result ≡ console_by console.now.name own command line }
{
    match line {
        Some(line) => console_said(console, own, &command, &line),
        None => console_ruled(console, own, &command, false),
    }
}

/// The ruling on the line that a command asks for, if it asks for one.
#[tactic(auto, using(crate::proofs::Shown::decides, crate::proofs::Shown::rules_none, crate::proofs::Shown::rules_one))]
fn line_ruling(
    alloc: Global,
    policy: &Policy,
    board: &Board,
    shows: &Option<Shows>,
    line: &Option<Need>,
    console: &ConsoleRow,
) -> Result<Option<Ruling>, AllocError>
    requires { shows.now ≡ shows_by policy.now line.now }
    ensures { IfOk result (λ answer. answer
        ≡ option_map (ruling (state_of policy.now board.now) (nobody_at console.now)) line.now) }
{
    let Some(shows) = shows else {
        return Ok(None);
    };
    let ruled = ruling(
        alloc,
        policy,
        board,
        shows.decided.as_ref(),
        &shows.need,
        console,
    )?;
    Ok(Some(ruled))
}

/// What is said of a command at a console where nobody is on.
fn console_line(
    alloc: Global,
    room: &Room,
    decided: Option<&Profile>,
    shows: &Option<Shows>,
    entered: &Entered,
    console: &ConsoleRow,
) -> Result<ConsoleLine, AllocError>
    requires command { option_copied decided ≡ decider room.now.policy Opercmds entered.now.need.resource }
    requires line { shows.now ≡ shows_by room.now.policy entered.now.line }
    ensures { IfOk result (λ line. line ≡ console_line (state_of room.now.policy room.now.board) entered.now.need
        entered.now.line console.now) }
{
    let (policy, board) = (&room.policy, &room.board);
    let own = is_own(policy, board, console);
    let command = ruling(alloc, policy, board, decided, &entered.need, console)?;
    let line = line_ruling(alloc, policy, board, shows, &entered.line, console)?;
    Ok(console_by(console, own, command, line))
}

/// The line of a command at each of these consoles, unattended.
pub(crate) fn console_lines(
    alloc: Global,
    room: &Room,
    decided: Option<&Profile>,
    shows: &Option<Shows>,
    entered: &Entered,
    consoles: &[ConsoleRow],
) -> Result<Rows<ConsoleLine>, AllocError>
    requires command { option_copied decided ≡ decider room.now.policy Opercmds entered.now.need.resource }
    requires line { shows.now ≡ shows_by room.now.policy entered.now.line }
    ensures { IfOk result (λ lines. lines ≡ console_lines (state_of room.now.policy room.now.board) entered.now.need
        entered.now.line consoles.now) }
{
    // Named for the prover, which otherwise cannot infer the types of a line.
    let (_no_rule, _no_ruling): (Option<Rule>, Option<Ruling>) = (None, None);
    let mut lines = Rows::new(alloc);
    for console in consoles {
        lines.push(console_line(alloc, room, decided, shows, entered, console)?)?;
    }
    Ok(lines)
}
