//! The rows of commands.
ghost use Rattle.std.specs.Prelude.{◌≡◌, ◌≤◌, IfOk, Some, flat_map, length, map};
ghost use Rattle.std.specs.Prelude.{string_bytes};
ghost use Rattle.std.specs.Option.{option_copied};
ghost use Rattle.opc_names.specs.declared.class.Class.TheVariants.{Opercmds};
ghost use Rattle.opc_policy_deciders.specs.Decided.{ArePatternsOf};
ghost use Rattle.opc_answers.specs.Deciding.{decider};
ghost use Rattle.opc_answers.specs.Made.{members_of};
ghost use Rattle.opc_answers.specs.Who.{named};
ghost use Rattle.opc_answers_sheet.specs.Callers.{callers_of};
ghost use Rattle.opc_answers_sheet.specs.Commands.{
  AreRowsAt,
  DecidesAll,
  asked_row,
  console_text,
  decided_text,
  kind_row,
  lines_there,
  names_cell,
  profile_text,
  rows_of,
  said_there,
  who_about,
  whole_names,
};
ghost use Rattle.opc_answers_sheet.specs.Examples.{names_of};

use crate::callers::Caller;
use crate::cells::{row_text, users_at};
use crate::everywhere::everywhere_text;
use crate::examples::{first_need, names_of};
use opc_answers::doors::unless_on;
use opc_answers::lines::{UserLine, member_line, or_authority};
use opc_answers::logons::{Door, Instead, NoLogon};
use opc_answers::members::UserWithGroups;
use opc_answers::raised::named;
use opc_answers::room::Room;
use opc_answers_may::commands::profile_at;
use opc_board::rows::ConsoleRow;
use opc_names::name::{ConsoleName, Pattern, Resource};
use opc_policy::ruling::Ruling;
use opc_policy_deciders::decided::decided_at;
use opc_policy_deciders::kind::{AskedKind, KINDS};
use opc_policy_members::profile::Profile;
use opc_policy_sources::sources::{HeldLevel, LevelSource};
use opc_terms::need::Need;
use opc_terms::rule::Rule;
use std::alloc::{AllocError, Global};

/// What is said of a user at a console.
fn said_there(
    door: &Door<'_>,
    decided: Option<&Profile>,
    need: &Need,
    console: &ConsoleRow,
    member: &UserWithGroups,
) -> UserLine
    ensures { result ≡ said_there door.now (option_copied decided.entry) need.now console.now member.now }
{
    let line = member_line(decided, Some(&console.name), need.level, member);
    unless_on(door.no_logon(member), or_authority(console, need, &line))
}

fn said_at_door(
    alloc: Global,
    door: &Door<'_>,
    decided: Option<&Profile>,
    need: &Need,
    console: &ConsoleRow,
    members: &[UserWithGroups],
) -> Result<Vec<UserLine>, AllocError>
    ensures { IfOk result (λ lines. lines.items
        ≡ map (said_there door.now (option_copied decided.entry) need.now console.now) members.now) }
{
    // Named for the prover, which otherwise cannot infer the types of a line.
    let (_no_rule, _no_ruling): (Option<Rule>, Option<Ruling>) = (None, None);
    let (_no_held, _no_source): (Option<HeldLevel>, Option<LevelSource>) = (None, None);
    let (_off, _instead): (Option<NoLogon>, Option<Instead>) = (None, None);
    let _nowhere: Option<ConsoleName> = None;
    let mut lines = Vec::new(alloc);
    for member in members {
        lines.push(said_there(door, decided, need, console, member))?;
    }
    Ok(lines)
}

/// The lines of all users at a console.
fn lines_there(
    alloc: Global,
    room: &Room,
    decided: Option<&Profile>,
    need: &Need,
    console: &ConsoleRow,
) -> Result<Vec<UserLine>, AllocError>
    requires members { room.now.members ≡ members_of room.now.policy }
    requires decided { option_copied decided ≡ decider room.now.policy Opercmds need.now.resource }
    ensures { IfOk result (λ lines. lines.items
        ≡ lines_there (who_about room.now.policy room.now.board need.now) console.now) }
{
    let door = Door::of(&room.policy, console);
    let members = room.members.as_slice();
    said_at_door(alloc, &door, decided, need, console, members)
}

/// Those who may at a console, by entries for it alone.
fn console_text(
    alloc: Global,
    room: &Room,
    decided: Option<&Profile>,
    need: &Need,
    console: &ConsoleRow,
) -> Result<String, AllocError>
    requires members { room.now.members ≡ members_of room.now.policy }
    requires decided { option_copied decided ≡ decider room.now.policy Opercmds need.now.resource }
    ensures { IfOk result (λ text. string_bytes text
        ≡ console_text (who_about room.now.policy room.now.board need.now) console.now) }
{
    let lines = lines_there(alloc, room, decided, need, console)?;
    users_at(alloc, Some(console.name), 0, lines.as_slice())
}

/// The same at each of these consoles.
fn consoles_text(
    alloc: Global,
    room: &Room,
    decided: Option<&Profile>,
    need: &Need,
    consoles: &[ConsoleRow],
) -> Result<String, AllocError>
    requires members { room.now.members ≡ members_of room.now.policy }
    requires decided { option_copied decided ≡ decider room.now.policy Opercmds need.now.resource }
    ensures { IfOk result (λ text. string_bytes text
        ≡ flat_map (console_text (who_about room.now.policy room.now.board need.now)) consoles.now) }
{
    let mut text = String::new(alloc);
    for console in consoles {
        text.push_str(console_text(alloc, room, decided, need, console)?.as_str())?;
    }
    Ok(text)
}

/// Those who may by a profile: at every console, and then at each for which it has entries.
fn profile_text(
    alloc: Global,
    room: &Room,
    callers: &[Caller<'_>],
    decided: Option<&Profile>,
    need: &Need,
) -> Result<String, AllocError>
    requires members { room.now.members ≡ members_of room.now.policy }
    requires callers { callers.now ≡ callers_of room.now.policy room.now.board }
    requires decided { option_copied decided ≡ decider room.now.policy Opercmds need.now.resource }
    ensures { IfOk result (λ text. string_bytes text
        ≡ profile_text (who_about room.now.policy room.now.board need.now)) }
{
    let mut text = everywhere_text(alloc, room, callers, decided, need)?;
    let consoles = named(alloc, decided, None, room.board.rows().consoles.as_slice())?;
    text.push_str(consoles_text(alloc, room, decided, need, consoles.as_slice())?.as_str())?;
    Ok(text)
}

/// Who may: if no profile decides, the authority of the console does.
fn decided_text(
    alloc: Global,
    room: &Room,
    callers: &[Caller<'_>],
    decided: Option<&Profile>,
    need: &Need,
) -> Result<String, AllocError>
    requires members { room.now.members ≡ members_of room.now.policy }
    requires callers { callers.now ≡ callers_of room.now.policy room.now.board }
    requires decided { option_copied decided ≡ decider room.now.policy Opercmds need.now.resource }
    ensures { IfOk result (λ text. string_bytes text ≡ decided_text (option_copied decided.entry)
        (who_about room.now.policy room.now.board need.now)) }
{
    if decided.is_none() {
        return String::from_str(alloc, "<p>the authority of the console decides</p>");
    }
    profile_text(alloc, room, callers, decided, need)
}

/// Names, between which alone a line breaks.
#[tactic(auto, using(crate::proofs::Joining::whole_so))]
fn whole_names(alloc: Global, names: &[&str]) -> Result<String, AllocError>
    ensures { IfOk result (λ text. string_bytes text ≡ whole_names (map (λ name. name.now) names.now)) }
{
    names.join(alloc, "</span>, <span>")
}

fn names_cell(alloc: Global, names: &[&str]) -> Result<String, AllocError>
    ensures { IfOk result (λ cell. string_bytes cell ≡ names_cell (map (λ name. name.now) names.now)) }
{
    let names = whole_names(alloc, names)?;
    let names = names.as_str();
    format!(in alloc; "<td><span>{names}</span></td>")
}

/// The row of what commands of these names need.
fn asked_row(
    alloc: Global,
    room: &Room,
    callers: &[Caller<'_>],
    decided: Option<&Profile>,
    names: &[&str],
    need: &Need,
) -> Result<String, AllocError>
    requires members { room.now.members ≡ members_of room.now.policy }
    requires callers { callers.now ≡ callers_of room.now.policy room.now.board }
    requires decided { option_copied decided ≡ decider room.now.policy Opercmds need.now.resource }
    ensures { IfOk result (λ row. string_bytes row ≡ asked_row (map (λ name. name.now) names.now)
        (who_about room.now.policy room.now.board need.now)) }
{
    let names = names_cell(alloc, names)?;
    let users = decided_text(alloc, room, callers, decided, need)?;
    row_text(alloc, names.as_str(), decided, users.as_str())
}

/// The row of a kind, if something is found of one of its forms.
fn kind_row(
    alloc: Global,
    room: &Room,
    callers: &[Caller<'_>],
    decided: Option<&Profile>,
    found: &[Option<Resource>],
    kind: &AskedKind,
) -> Result<String, AllocError>
    requires members { room.now.members ≡ members_of room.now.policy }
    requires callers { callers.now ≡ callers_of room.now.policy room.now.board }
    requires decided { DecidesAll room.now.policy (option_copied decided) found.now }
    ensures { IfOk result (λ row. string_bytes row ≡ kind_row room.now.policy room.now.board found.now kind.now) }
{
    let Some(need) = first_need(kind, found) else {
        return Ok(String::new(alloc));
    };
    let names = names_of(alloc, kind, found)?;
    asked_row(alloc, room, callers, decided, names.as_slice(), &need)
}

/// The rows of these kinds.
fn kind_rows(
    alloc: Global,
    room: &Room,
    callers: &[Caller<'_>],
    decided: Option<&Profile>,
    found: &[Option<Resource>],
    kinds: &[AskedKind],
) -> Result<String, AllocError>
    requires members { room.now.members ≡ members_of room.now.policy }
    requires callers { callers.now ≡ callers_of room.now.policy room.now.board }
    requires decided { DecidesAll room.now.policy (option_copied decided) found.now }
    ensures { IfOk result (λ rows. string_bytes rows
        ≡ flat_map (kind_row room.now.policy room.now.board found.now) kinds.now) }
{
    let mut text = String::new(alloc);
    for kind in kinds {
        text.push_str(kind_row(alloc, room, callers, decided, found, kind)?.as_str())?;
    }
    Ok(text)
}

fn rows_of(
    alloc: Global,
    room: &Room,
    callers: &[Caller<'_>],
    decided: Option<&Profile>,
    found: &[Option<Resource>],
) -> Result<String, AllocError>
    requires members { room.now.members ≡ members_of room.now.policy }
    requires callers { callers.now ≡ callers_of room.now.policy room.now.board }
    requires decided { DecidesAll room.now.policy (option_copied decided) found.now }
    ensures { IfOk result (λ rows. string_bytes rows ≡ rows_of room.now.policy room.now.board found.now) }
{
    kind_rows(alloc, room, callers, decided, found, &KINDS)
}

/// The rows of the profile at this place, or, behind the last one, of what no profile decides. The profile is looked up
/// by its pattern: a search for who decides would pass all profiles before it.
pub fn rows_at(
    alloc: Global,
    room: &Room,
    callers: &[Caller<'_>],
    patterns: &[Pattern],
    place: usize,
) -> Result<String, AllocError>
    requires members { room.now.members ≡ members_of room.now.policy }
    requires callers { callers.now ≡ callers_of room.now.policy room.now.board }
    requires patterns { ArePatternsOf room.now.policy patterns.now }
    requires within { place ≤ length patterns.now }
    ensures { IfOk result (λ rows. AreRowsAt room.now.policy room.now.board place (string_bytes rows)) }
{
    let found = decided_at(alloc, &room.policy, patterns, place)?;
    let decided = profile_at(&room.policy, patterns, place);
    rows_of(alloc, room, callers, decided, found.as_slice())
}
