//! The lines of users.
ghost use Rattle.std.specs.Prelude.{◌≡◌, IfOk, Some, unwrap_or};
ghost use Rattle.std.specs.Option.{option_copied};
ghost use Rattle.opc_policy.specs.Rulings.{console_ruling};
ghost use Rattle.opc_policy.specs.declared.ruling.Ruling.TheVariants.{Allowed};
ghost use Rattle.opc_terms.specs.declared.rule.Rule.TheVariants.{NoProfile};
ghost use Rattle.opc_names.specs.declared.class.Class.TheVariants.{Opercmds};
ghost use Rattle.opc_policy_members.specs.Members.{user_of};
ghost use Rattle.opc_machine.specs.Rulings.{logon_ruling, ruling};
ghost use Rattle.opc_answers.specs.Deciding.{decider};
ghost use Rattle.opc_answers.specs.Made.{state_of};
ghost use Rattle.opc_answers.specs.Who.{
  by_profile,
  is_denied,
  line_of,
  logon_line,
  member_line,
  on_at,
  or_admitted,
  or_authority,
};

use crate::deciding::deciding;
use crate::logons::{Instead, resource_of};
use crate::members::UserWithGroups;
use crate::room::Room;
use opc_board::rows::ConsoleRow;
use opc_names::class::Class;
use opc_names::level::Level;
use opc_names::name::{ConsoleName, GroupName, UserId};
use opc_policy::ruling::{Ruling, console_ruling, ruling_at};
use opc_policy_members::policy::Policy;
use opc_policy_members::profile::Profile;
use opc_policy_members::user::User;
use opc_policy_sources::sources::{HeldLevel, LevelSource, held_from};
use opc_terms::need::Need;
use opc_terms::rule::Rule;
use std::alloc::{AllocError, Global};

/// The line of a user: the ruling, if there is one; the level held in the profile that decides, with its source, if the
/// profile was consulted; and what replaces the ruling, if that says more.
#[derive(Clone, Copy)]
pub struct UserLine {
    pub id: UserId,
    pub ruling: Option<Ruling>,
    pub held: Option<HeldLevel>,
    pub instead: Option<Instead>,
}

/// The line of a user by the profile that decides, at a console if one is given; without a ruling if none decides.
fn by_profile(
    decided: Option<&Profile>,
    console: Option<&ConsoleName>,
    needed: Level,
    groups: &[GroupName],
    user: &User,
) -> UserLine
    ensures { result ≡ by_profile (option_copied decided.entry) (option_copied console.entry) needed groups.now
        user.now }
{
    let Some(profile) = decided else {
        return UserLine {
            id: user.id,
            ruling: None,
            held: None,
            instead: None,
        };
    };
    let held = held_from(profile, user, console, groups);
    UserLine {
        id: user.id,
        ruling: Some(ruling_at(profile, held.level, needed)),
        held: Some(held),
        instead: None,
    }
}

/// The same, and a revoked user is denied.
fn line_of(
    decided: Option<&Profile>,
    console: Option<&ConsoleName>,
    needed: Level,
    groups: &[GroupName],
    user: &User,
) -> UserLine
    ensures { result ≡ line_of (option_copied decided.entry) (option_copied console.entry) needed groups.now user.now }
{
    if user.revoked {
        return UserLine {
            id: user.id,
            ruling: Some(Ruling::Denied(Rule::Revoked)),
            held: None,
            instead: None,
        };
    }
    by_profile(decided, console, needed, groups, user)
}

/// The line of a user with these groups.
pub fn member_line(
    decided: Option<&Profile>,
    console: Option<&ConsoleName>,
    needed: Level,
    member: &UserWithGroups,
) -> UserLine
    ensures { result ≡ member_line (option_copied decided.entry) (option_copied console.entry) needed member.now }
{
    line_of(
        decided,
        console,
        needed,
        member.groups.as_slice(),
        &member.user,
    )
}

/// This ruling, if there is one, and else the one by the console's authority.
fn ruling_or(console: &ConsoleRow, need: &Need, ruling: Option<Ruling>) -> Ruling
    ensures { result ≡ unwrap_or ruling (console_ruling console.now.auth need.now) }
{
    match ruling {
        Some(ruling) => ruling,
        None => console_ruling(console.auth, need),
    }
}

/// At a console of the board a command that no profile decides is decided by the console's authority.
pub fn or_authority(console: &ConsoleRow, need: &Need, line: &UserLine) -> UserLine
    ensures { result ≡ or_authority console.now need.now line.now }
{
    UserLine {
        id: line.id,
        ruling: Some(ruling_or(console, need, line.ruling)),
        held: line.held,
        instead: line.instead,
    }
}

/// The ruling on a LOGON: one that no profile decides is allowed.
fn admitted_or(ruling: Option<Ruling>) -> Ruling
    ensures { result ≡ unwrap_or ruling (Allowed NoProfile) }
{
    match ruling {
        Some(ruling) => ruling,
        None => Ruling::Allowed(Rule::NoProfile),
    }
}

/// The line of a user who logs on with the stored password.
fn or_admitted(line: &UserLine) -> UserLine
    ensures { result ≡ or_admitted line.now }
{
    UserLine {
        id: line.id,
        ruling: Some(admitted_or(line.ruling)),
        held: line.held,
        instead: line.instead,
    }
}

/// The line of a user who logs on: nobody without a digest may.
pub fn logon_line(user: &User, line: &UserLine) -> UserLine
    ensures { result ≡ logon_line user.now line.now }
{
    if user.digest.is_none() {
        return UserLine {
            id: user.id,
            ruling: None,
            held: None,
            instead: Some(Instead::NoDigest),
        };
    }
    or_admitted(line)
}

/// Whether a ruling denies.
pub fn is_denied(ruling: &Option<Ruling>) -> bool
    ensures { result ≡ is_denied ruling.now }
{
    match ruling {
        Some(Ruling::Denied(_)) => true,
        Some(Ruling::Allowed(_)) | None => false,
    }
}

/// The ruling on a command at a console where this user is logged on.
pub(crate) fn ruling_with(
    alloc: Global,
    room: &Room,
    decided: Option<&Profile>,
    need: &Need,
    console: &ConsoleRow,
    user: &User,
) -> Result<Ruling, AllocError>
    requires decided { option_copied decided ≡ decider room.now.policy Opercmds need.now.resource }
    requires stored { user_of room.now.policy.users user.now.id ≡ Some user.now }
    ensures { IfOk result (λ answer. answer ≡ ruling (state_of room.now.policy room.now.board)
        (on_at user.now.id console.now) need.now) }
{
    let groups = room.policy.connects.groups_of(alloc, &user.id)?;
    let line = line_of(decided, Some(&console.name), need.level, &groups, user);
    Ok(ruling_or(console, need, line.ruling))
}

/// The ruling on a LOGON of this user at a console, if the password is the one that is stored.
pub fn logon_ruling(
    alloc: Global,
    room: &Room,
    console: &ConsoleRow,
    user: &User,
) -> Result<Ruling, AllocError>
    ensures { IfOk result (λ answer. answer ≡ logon_ruling (state_of room.now.policy room.now.board) console.now
        user.now) }
{
    let resource = resource_of(&console.name);
    let decided = deciding(&room.policy, Class::Console, &resource);
    let groups = room.policy.connects.groups_of(alloc, &user.id)?;
    let line = line_of(decided, Some(&console.name), Level::Read, &groups, user);
    Ok(admitted_or(line.ruling))
}
