//! Those who may by a profile at every console.
ghost use Rattle.std.specs.Prelude.{◌≡◌, false, IfOk, None, Some, map, string_bytes};
ghost use Rattle.std.specs.Option.{option_copied};
ghost use Rattle.opc_names.specs.declared.class.Class.TheVariants.{Opercmds};
ghost use Rattle.opc_answers.specs.Deciding.{decider};
ghost use Rattle.opc_answers.specs.Who.{users_of};
ghost use Rattle.opc_answers_sheet.specs.Callers.{callers_of};
ghost use Rattle.opc_answers_sheet.specs.Cells.{users_at};
ghost use Rattle.opc_answers_sheet.specs.Commands.{said_everywhere, who_about};
ghost use Rattle.opc_answers_sheet.specs.Named.{lets_others, said_to_named};

use crate::callers::Caller;
use crate::cells::users_at;
use crate::marks::marks_in;
use crate::named::{is_called, lets_others};
use opc_answers::doors::unless_on;
use opc_answers::lines::{UserLine, member_line};
use opc_answers::logons::{Instead, NoLogon};
use opc_answers::room::Room;
use opc_names::level::Level;
use opc_names::name::ConsoleName;
use opc_policy::ruling::Ruling;
use opc_policy_members::profile::Profile;
use opc_policy_sources::sources::{HeldLevel, LevelSource};
use opc_terms::need::Need;
use opc_terms::rule::Rule;
use std::alloc::{AllocError, Global};

/// What is said of a user, wherever the user is logged on.
fn said_everywhere(decided: Option<&Profile>, level: Level, caller: &Caller<'_>) -> UserLine
    ensures { result ≡ said_everywhere (option_copied decided.entry) level caller.now }
{
    unless_on(
        caller.no_logon,
        member_line(decided, None, level, caller.member),
    )
}

fn said_to_all(
    alloc: Global,
    decided: Option<&Profile>,
    level: Level,
    callers: &[Caller<'_>],
) -> Result<Vec<UserLine>, AllocError>
    ensures { IfOk result (λ lines. lines.items
        ≡ map (said_everywhere (option_copied decided.entry) level) callers.now) }
{
    // Named for the prover, which otherwise cannot infer the types of a line.
    let (_no_rule, _no_ruling): (Option<Rule>, Option<Ruling>) = (None, None);
    let (_no_held, _no_source): (Option<HeldLevel>, Option<LevelSource>) = (None, None);
    let (_off, _instead): (Option<NoLogon>, Option<Instead>) = (None, None);
    let _nowhere: Option<ConsoleName> = None;
    let mut lines = Vec::new(alloc);
    for caller in callers {
        lines.push(said_everywhere(decided, level, caller))?;
    }
    Ok(lines)
}

/// Those who may at every console, by what is said of all users.
fn text_of_all(
    alloc: Global,
    decided: Option<&Profile>,
    level: Level,
    callers: &[Caller<'_>],
) -> Result<String, AllocError>
    ensures { IfOk result (λ text. string_bytes text
        ≡ users_at None 0 (map (said_everywhere (option_copied decided.entry) level) callers.now)) }
{
    let lines = said_to_all(alloc, decided, level, callers)?;
    users_at(alloc, None, 0, lines.as_slice())
}

/// What is said of the users whom a profile names.
fn said_to_named(
    alloc: Global,
    profile: &Profile,
    level: Level,
    callers: &[Caller<'_>],
) -> Result<Vec<UserLine>, AllocError>
    ensures { IfOk result (λ lines. lines.items ≡ said_to_named profile.now level callers.now) }
{
    // Named for the prover, which otherwise cannot infer the types of a line.
    let (_no_rule, _no_ruling): (Option<Rule>, Option<Ruling>) = (None, None);
    let (_no_held, _no_source): (Option<HeldLevel>, Option<LevelSource>) = (None, None);
    let (_off, _instead): (Option<NoLogon>, Option<Instead>) = (None, None);
    let _nowhere: Option<ConsoleName> = None;
    let marks = marks_in(profile.entries.as_slice());
    let mut lines = Vec::new(alloc);
    for caller in callers {
        if is_called(profile, marks, caller) {
            lines.push(said_everywhere(Some(profile), level, caller))?;
        }
    }
    Ok(lines)
}

/// The same by what is said of those whom a profile names, if they are the fewer ones, and it lets no others.
fn text_of_named(
    alloc: Global,
    profile: &Profile,
    level: Level,
    callers: &[Caller<'_>],
) -> Result<String, AllocError>
    requires { lets_others profile.now level ≡ false }
    ensures { IfOk result (λ text. string_bytes text
        ≡ users_at None 0 (map (said_everywhere (Some profile.now) level) callers.now)) }
{
    let named = said_to_named(alloc, profile, level, callers)?;
    let unlisted = callers.len().saturating_sub(named.len());
    if named.len() < unlisted {
        return users_at(alloc, None, unlisted, named.as_slice());
    }
    text_of_all(alloc, Some(profile), level, callers)
}

/// The same. Most profiles name few users, and let no others: so not each user is asked of each profile.
fn text_of_callers(
    alloc: Global,
    decided: Option<&Profile>,
    level: Level,
    callers: &[Caller<'_>],
) -> Result<String, AllocError>
    ensures { IfOk result (λ text. string_bytes text
        ≡ users_at None 0 (map (said_everywhere (option_copied decided.entry) level) callers.now)) }
{
    let Some(profile) = decided else {
        return text_of_all(alloc, decided, level, callers);
    };
    if lets_others(profile, level) {
        return text_of_all(alloc, decided, level, callers);
    }
    text_of_named(alloc, profile, level, callers)
}

/// Those who may at every console.
pub(crate) fn everywhere_text(
    alloc: Global,
    room: &Room,
    callers: &[Caller<'_>],
    decided: Option<&Profile>,
    need: &Need,
) -> Result<String, AllocError>
    requires callers { callers.now ≡ callers_of room.now.policy room.now.board }
    requires decided { option_copied decided ≡ decider room.now.policy Opercmds need.now.resource }
    ensures { IfOk result (λ text. string_bytes text
        ≡ users_at None 0 (users_of (who_about room.now.policy room.now.board need.now))) }
{
    text_of_callers(alloc, decided, need.level, callers)
}
