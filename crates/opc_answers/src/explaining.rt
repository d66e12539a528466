//! Why a command may or may not be entered.
ghost use Rattle.std.specs.Prelude.{◌≡◌, ◌≢◌, IfErr, IfOk, Ok, Err, Some};
ghost use Rattle.std.specs.Option.{option_copied};
ghost use Rattle.opc_names.specs.declared.class.Class.TheVariants.{Console};
ghost use Rattle.opc_names.specs.declared.level.Level.TheVariants.{Read};
ghost use Rattle.opc_terms.specs.declared.fault.Fault.TheVariants as why;
ghost use Rattle.opc_policy.specs.Explained.{explanation};
ghost use Rattle.opc_answers.specs.Explaining.{
  at_console,
  at_none,
  by_profiles,
  console_named,
  explained_in,
  logon_explained,
  unless_denied,
  unless_digest,
  with_logon,
  with_ruling,
  without_console,
};
ghost use Rattle.opc_answers.specs.Made.{member_of, state_of};
ghost use Rattle.opc_answers.specs.Who.{no_logon_at};

use crate::consoles::{own_name, ruling};
use crate::deciding::decider;
use crate::doors::doors_at;
use crate::lines::{logon_ruling, ruling_with};
use crate::logons::{Instead, NoLogon, off_for, resource_of};
use crate::members::UserWithGroups;
use crate::room::Room;
use crate::who::{AskedAt, console_of};
use opc_board::rows::ConsoleRow;
use opc_names::class::Class;
use opc_names::level::Level;
use opc_names::name::{ConsoleName, UserId};
use opc_policy::explained::{Explained, Patterns, explain};
use opc_policy::ruling::Ruling;
use opc_policy::verdict::Verdict;
use opc_policy_members::policy::Policy;
use opc_policy_members::user::User;
use opc_rows::Rows;
use opc_terms::fault::{Fault, Subject};
use opc_terms::need::Need;
use opc_terms::rule::Rule;
use std::alloc::{AllocError, Global};

/// Why a command may or may not be entered: the patterns of the profiles that cover, if a user enters it; the verdict
/// with its rule; and what replaces them, if that says more.
#[derive(Drop)]
pub(crate) struct CommandExplained {
    pub(crate) covering: Option<Patterns>,
    pub(crate) verdict: Verdict,
    pub(crate) rule: Rule,
    pub(crate) instead: Option<Instead>,
}

/// The verdict of the profiles on a user who enters a command with this need.
fn by_profiles(
    alloc: Global,
    policy: &Policy,
    need: &Need,
    id: &UserId,
    console: Option<&ConsoleName>,
) -> Result<Explained, Fault>
    ensures ok { IfOk result (λ explained. by_profiles policy.now need.now id.now (option_copied console.entry)
        ≡ Ok explained) }
    ensures fault { IfErr result (λ fault. fault ≢ why.NoMemory
        → by_profiles policy.now need.now id.now (option_copied console.entry) ≡ Err fault) }
{
    explain(
        alloc,
        policy,
        Class::Opercmds,
        &need.resource,
        id,
        console,
        need.level,
    )
}

/// Replaces a verdict by the reason why a user cannot log on, unless it denies anyway.
fn unless_denied(verdict: Verdict, no_logon: Option<NoLogon>) -> Option<Instead>
    ensures { result ≡ unless_denied verdict no_logon }
{
    match verdict {
        Verdict::Denied => None,
        Verdict::Allowed | Verdict::Undecided => off_for(no_logon),
    }
}

/// The patterns that cover, and the ruling at a console.
fn with_ruling(ruling: Ruling, no_logon: Option<NoLogon>, explained: Explained) -> CommandExplained
    ensures { with_ruling ruling no_logon (Ok explained) ≡ Ok result }
{
    CommandExplained {
        covering: Some(explained.covering),
        verdict: ruling.verdict(),
        rule: ruling.rule(),
        instead: unless_denied(ruling.verdict(), no_logon),
    }
}

/// Why a user cannot log on there.
fn no_logon_at(
    alloc: Global,
    room: &Room,
    at: &AskedAt,
    user: &User,
) -> Result<Option<NoLogon>, AllocError>
    ensures { IfOk result (λ why. why
        ≡ no_logon_at room.now.policy room.now.board at.now (member_of room.now.policy.connects user.now)) }
{
    let groups = room.policy.connects.groups_of(alloc, &user.id)?;
    let member = UserWithGroups {
        user: *user,
        groups: Rows::of(groups),
    };
    let doors = doors_at(alloc, &room.policy, &room.board, at)?;
    Ok(doors.no_logon(&member))
}

/// The verdict of the profiles alone.
fn without_console(no_logon: Option<NoLogon>, explained: Explained) -> CommandExplained
    ensures { without_console no_logon (Ok explained) ≡ Ok result }
{
    CommandExplained {
        covering: Some(explained.covering),
        verdict: explained.verdict,
        rule: explained.rule,
        instead: unless_denied(explained.verdict, no_logon),
    }
}

/// At an unattended console, which acts for its own user or for nobody.
#[tactic(auto, using(crate::proofs::Explained::with_own, crate::proofs::Explained::without_own))]
fn with_nobody_on(
    alloc: Global,
    room: &Room,
    need: &Need,
    console: &ConsoleRow,
) -> Result<CommandExplained, Fault>
    ensures ok { IfOk result (λ explained. at_console (state_of room.now.policy room.now.board) need.now None
        console.now ≡ Ok explained) }
    ensures fault { IfErr result (λ fault. fault ≢ why.NoMemory
        → at_console (state_of room.now.policy room.now.board) need.now None console.now ≡ Err fault) }
{
    let (policy, board) = (&room.policy, &room.board);
    let found = decider(policy, Class::Opercmds, &need.resource)?;
    let ruled = ruling(alloc, policy, board, found.as_ref(), need, console)?;
    match own_name(policy, board, console) {
        Some(id) => {
            let explained = by_profiles(alloc, policy, need, &id, Some(&console.name))?;
            Ok(with_ruling(ruled, None, explained))
        }
        None => Ok(CommandExplained {
            covering: None,
            verdict: ruled.verdict(),
            rule: ruled.rule(),
            instead: None,
        }),
    }
}

/// At a console where this user is logged on.
#[tactic(auto, using(crate::proofs::Found::stored, crate::proofs::Explained::with_on, crate::proofs::Explained::not_stored))]
fn with_user_on(
    alloc: Global,
    room: &Room,
    need: &Need,
    id: &UserId,
    console: &ConsoleRow,
) -> Result<CommandExplained, Fault>
    ensures ok { IfOk result (λ explained. at_console (state_of room.now.policy room.now.board) need.now (Some id.now)
        console.now ≡ Ok explained) }
    ensures fault { IfErr result (λ fault. fault ≢ why.NoMemory
        → at_console (state_of room.now.policy room.now.board) need.now (Some id.now) console.now ≡ Err fault) }
{
    let policy = &room.policy;
    let Some(user) = policy.users.get(id) else {
        return Err(Fault::Missing(Subject::of(id)));
    };
    let found = decider(policy, Class::Opercmds, &need.resource)?;
    let ruled = ruling_with(alloc, room, found.as_ref(), need, console, user)?;
    let no_logon = no_logon_at(alloc, room, &AskedAt::OnBoard(*console), user)?;
    let explained = by_profiles(alloc, policy, need, id, Some(&console.name))?;
    Ok(with_ruling(ruled, no_logon, explained))
}

/// At a console where this user is logged on or, without one, at an unattended one.
fn at_console(
    alloc: Global,
    room: &Room,
    need: &Need,
    user: Option<&UserId>,
    console: &ConsoleRow,
) -> Result<CommandExplained, Fault>
    ensures ok { IfOk result (λ explained. at_console (state_of room.now.policy room.now.board) need.now
        (option_copied user.entry) console.now ≡ Ok explained) }
    ensures fault { IfErr result (λ fault. fault ≢ why.NoMemory → at_console (state_of room.now.policy room.now.board)
        need.now (option_copied user.entry) console.now ≡ Err fault) }
{
    match user {
        Some(id) => with_user_on(alloc, room, need, id, console),
        None => with_nobody_on(alloc, room, need, console),
    }
}

/// At no console of the board, where the profiles alone decide, and whether the user can log on anywhere.
#[tactic(auto, using(crate::proofs::Explained::with_none, crate::proofs::Explained::not_stored_anywhere))]
fn of_user(
    alloc: Global,
    room: &Room,
    need: &Need,
    id: &UserId,
    console: Option<&ConsoleName>,
) -> Result<CommandExplained, Fault>
    ensures ok { IfOk result (λ explained. at_none (state_of room.now.policy room.now.board) need.now (Some id.now)
        (option_copied console.entry) ≡ Ok explained) }
    ensures fault { IfErr result (λ fault. fault ≢ why.NoMemory → at_none (state_of room.now.policy room.now.board)
        need.now (Some id.now) (option_copied console.entry) ≡ Err fault) }
{
    let Some(user) = room.policy.users.get(id) else {
        return Err(Fault::Missing(Subject::of(id)));
    };
    let no_logon = no_logon_at(alloc, room, &AskedAt::Everywhere, user)?;
    let explained = by_profiles(alloc, &room.policy, need, id, console)?;
    Ok(without_console(no_logon, explained))
}

/// At no console of the board. Nobody acts there.
fn at_none(
    alloc: Global,
    room: &Room,
    need: &Need,
    user: Option<&UserId>,
    console: Option<&ConsoleName>,
) -> Result<CommandExplained, Fault>
    ensures ok { IfOk result (λ explained. at_none (state_of room.now.policy room.now.board) need.now
        (option_copied user.entry) (option_copied console.entry) ≡ Ok explained) }
    ensures fault { IfErr result (λ fault. fault ≢ why.NoMemory → at_none (state_of room.now.policy room.now.board)
        need.now (option_copied user.entry) (option_copied console.entry) ≡ Err fault) }
{
    match user {
        Some(id) => of_user(alloc, room, need, id, console),
        None => Err(Fault::NoConsole),
    }
}

/// The console of the board with the name, if one is named and there.
fn console_named<'a>(room: &'a Room, console: Option<&ConsoleName>) -> Option<&'a ConsoleRow>
    ensures { option_copied result ≡ console_named (state_of room.entry.now.policy room.entry.now.board)
        (option_copied console.entry) }
{
    match console {
        Some(name) => console_of(&room.board, name),
        None => None,
    }
}

/// Why a command that needs this may or may not be entered by a user, or, without one, at an unattended console: at a
/// console if one is named.
pub(crate) fn explained_in(
    alloc: Global,
    room: &Room,
    need: &Need,
    user: Option<&UserId>,
    console: Option<&ConsoleName>,
) -> Result<CommandExplained, Fault>
    ensures ok { IfOk result (λ explained. explained_in (state_of room.now.policy room.now.board) need.now
        (option_copied user.entry) (option_copied console.entry) ≡ Ok explained) }
    ensures fault { IfErr result (λ fault. fault ≢ why.NoMemory → explained_in
        (state_of room.now.policy room.now.board) need.now (option_copied user.entry) (option_copied console.entry)
        ≡ Err fault) }
{
    match console_named(room, console) {
        Some(found) => at_console(alloc, room, need, user, found),
        None => at_none(alloc, room, need, user, console),
    }
}

/// The verdict of the profiles of class CONSOLE on a user at a console.
fn by_console_profiles(
    alloc: Global,
    policy: &Policy,
    name: &ConsoleName,
    id: &UserId,
) -> Result<Explained, Fault>
    ensures ok { IfOk result (λ explained. explanation policy.now Console name.now id.now (Some name.now) Read
        ≡ Ok explained) }
    ensures fault { IfErr result (λ fault. fault ≢ why.NoMemory
        → explanation policy.now Console name.now id.now (Some name.now) Read ≡ Err fault) }
{
    let resource = resource_of(name);
    explain(
        alloc,
        policy,
        Class::Console,
        &resource,
        id,
        Some(name),
        Level::Read,
    )
}

/// Replaces a ruling by the reason that no digest is stored, if that is so.
fn unless_digest(user: &User) -> Option<Instead>
    ensures { result ≡ unless_digest user.now.digest }
{
    match user.digest {
        Some(_) => None,
        None => Some(Instead::NoDigest),
    }
}

/// The patterns that cover, and the ruling on a LOGON.
fn with_logon(ruling: Ruling, user: &User, explained: Explained) -> CommandExplained
    ensures { with_logon user.now.digest ruling (Ok explained) ≡ Ok result }
{
    let (verdict, rule) = (ruling.verdict(), ruling.rule());
    CommandExplained {
        covering: Some(explained.covering),
        verdict,
        rule,
        instead: unless_digest(user),
    }
}

/// Of a LOGON of this user at a console, if both are there.
#[tactic(auto, using(crate::proofs::Explained::logs_on, crate::proofs::Explained::logs_on_nowhere, crate::proofs::Explained::nobody_logs_on))]
fn logon_of(
    alloc: Global,
    room: &Room,
    name: &ConsoleName,
    id: &UserId,
) -> Result<CommandExplained, Fault>
    ensures ok { IfOk result (λ explained. logon_explained (state_of room.now.policy room.now.board) name.now
        (Some id.now) ≡ Ok explained) }
    ensures fault { IfErr result (λ fault. fault ≢ why.NoMemory → logon_explained
        (state_of room.now.policy room.now.board) name.now (Some id.now) ≡ Err fault) }
{
    let Some(user) = room.policy.users.get(id) else {
        return Err(Fault::Missing(Subject::of(id)));
    };
    let Some(console) = console_of(&room.board, name) else {
        return Err(Fault::NoConsole);
    };
    let ruled = logon_ruling(alloc, room, console, user)?;
    let explained = by_console_profiles(alloc, &room.policy, name, id)?;
    Ok(with_logon(ruled, user, explained))
}

/// Why a user may or may not log on at the console of this name.
pub(crate) fn logon_explained(
    alloc: Global,
    room: &Room,
    name: &ConsoleName,
    user: Option<&UserId>,
) -> Result<CommandExplained, Fault>
    ensures ok { IfOk result (λ explained. logon_explained (state_of room.now.policy room.now.board) name.now
        (option_copied user.entry) ≡ Ok explained) }
    ensures fault { IfErr result (λ fault. fault ≢ why.NoMemory → logon_explained
        (state_of room.now.policy room.now.board) name.now (option_copied user.entry) ≡ Err fault) }
{
    match user {
        Some(id) => logon_of(alloc, room, name, id),
        None => Err(Fault::NoConsole),
    }
}
