//! The rows of consoles.
ghost use Rattle.std.specs.Prelude.{◌≡◌, IfOk, map, string_bytes};
ghost use Rattle.std.specs.Option.{is_some, option_copied};
ghost use Rattle.opc_names.specs.declared.class.Class.TheVariants.{Console};
ghost use Rattle.opc_policy_members.specs.Members.{user_of};
ghost use Rattle.opc_answers.specs.Deciding.{decider};
ghost use Rattle.opc_answers.specs.Made.{members_of};
ghost use Rattle.opc_answers.specs.Who.{users_of};
ghost use Rattle.opc_answers_sheet.specs.Consoles.{
  acting_words,
  console_cells,
  console_row,
  logon_said,
  unattended_words,
  users_there,
  who_logs_on,
};

use crate::cells::{row_text, users_at};
use opc_answers::deciding::deciding;
use opc_answers::lines::{UserLine, logon_line, member_line};
use opc_answers::logons::{Instead, NoLogon, resource_of};
use opc_answers::members::UserWithGroups;
use opc_answers::room::Room;
use opc_board::rows::ConsoleRow;
use opc_names::class::Class;
use opc_names::level::Level;
use opc_names::name::{ConsoleName, UserId};
use opc_policy::ruling::Ruling;
use opc_policy_members::policy::Policy;
use opc_policy_members::profile::Profile;
use opc_policy_sources::sources::{HeldLevel, LevelSource};
use opc_terms::mode::Mode;
use opc_terms::rule::Rule;
use std::alloc::{AllocError, Global};

fn acting_words(alloc: Global, stored: bool, name: &ConsoleName) -> Result<String, AllocError>
    ensures { IfOk result (λ text. string_bytes text ≡ acting_words stored name.now) }
{
    if stored {
        return format!(in alloc; "what {name} may");
    }
    String::from_str(alloc, "what its authority allows")
}

/// What a console allows while unattended.
fn unattended_words(
    alloc: Global,
    mode: Mode,
    stored: bool,
    name: &ConsoleName,
) -> Result<String, AllocError>
    ensures { IfOk result (λ text. string_bytes text ≡ unattended_words mode stored name.now) }
{
    match mode {
        Mode::Required => String::from_str(alloc, "nothing"),
        Mode::Optional => acting_words(alloc, false, name),
        Mode::Auto => acting_words(alloc, stored, name),
    }
}

/// Whether there is a user of a console's name.
fn has_own_user(policy: &Policy, name: &ConsoleName) -> bool
    ensures { result ≡ is_some (user_of policy.now.users name.now) }
{
    let id: UserId = name.as_kind();
    policy.users.get(&id).is_some()
}

fn console_cells(alloc: Global, policy: &Policy, console: &ConsoleRow) -> Result<String, AllocError>
    ensures { IfOk result (λ cells. string_bytes cells ≡ console_cells policy.now console.now) }
{
    let stored = has_own_user(policy, &console.name);
    let (name, auth, mode) = (console.name, console.auth, console.mode);
    let allowed = unattended_words(alloc, mode, stored, &name)?;
    let allowed = allowed.as_str();
    format!(in alloc; "<td><code>{name}</code> {auth}, {mode}</td><td>{allowed}</td>")
}

/// What is said of a user and a LOGON at a console.
fn logon_said(decided: Option<&Profile>, console: &ConsoleRow, member: &UserWithGroups) -> UserLine
    ensures { result ≡ logon_said (option_copied decided.entry) console.now member.now }
{
    let line = member_line(decided, Some(&console.name), Level::Read, member);
    logon_line(&member.user, &line)
}

fn said_of_logons(
    alloc: Global,
    decided: Option<&Profile>,
    console: &ConsoleRow,
    members: &[UserWithGroups],
) -> Result<Vec<UserLine>, AllocError>
    ensures { IfOk result (λ lines. lines.items
        ≡ map (logon_said (option_copied decided.entry) console.now) members.now) }
{
    // Named for the prover, which otherwise cannot infer the types of a line.
    let (_no_rule, _no_ruling): (Option<Rule>, Option<Ruling>) = (None, None);
    let (_no_held, _no_source): (Option<HeldLevel>, Option<LevelSource>) = (None, None);
    let (_off, _instead): (Option<NoLogon>, Option<Instead>) = (None, None);
    let _nowhere: Option<ConsoleName> = None;
    let mut lines = Vec::new(alloc);
    for member in members {
        lines.push(logon_said(decided, console, member))?;
    }
    Ok(lines)
}

/// The lines of all users and a LOGON at a console.
#[tactic(auto, using(crate::proofs::Saying::said_of_logons_as_who))]
fn logon_lines(
    alloc: Global,
    room: &Room,
    decided: Option<&Profile>,
    console: &ConsoleRow,
) -> Result<Vec<UserLine>, AllocError>
    requires members { room.now.members ≡ members_of room.now.policy }
    requires decided { option_copied decided ≡ decider room.now.policy Console console.now.name }
    ensures { IfOk result (λ lines. lines.items
        ≡ users_of (who_logs_on room.now.policy room.now.board console.now)) }
{
    said_of_logons(alloc, decided, console, room.members.as_slice())
}

/// Those who may log on: by entries for every console, and by those for this one alone.
fn users_there(
    alloc: Global,
    console: &ConsoleRow,
    lines: &[UserLine],
) -> Result<String, AllocError>
    ensures { IfOk result (λ text. string_bytes text ≡ users_there console.now lines.now) }
{
    let mut text = users_at(alloc, None, 0, lines)?;
    text.push_str(users_at(alloc, Some(console.name), 0, lines)?.as_str())?;
    Ok(text)
}

/// The row of a console.
pub fn console_row(alloc: Global, room: &Room, console: &ConsoleRow) -> Result<String, AllocError>
    requires { room.now.members ≡ members_of room.now.policy }
    ensures { IfOk result (λ row. string_bytes row
        ≡ console_row room.now.policy room.now.board console.now) }
{
    let decided = deciding(&room.policy, Class::Console, &resource_of(&console.name));
    let cells = console_cells(alloc, &room.policy, console)?;
    let lines = logon_lines(alloc, room, decided, console)?;
    let users = users_there(alloc, console, lines.as_slice())?;
    row_text(alloc, cells.as_str(), decided, users.as_str())
}
