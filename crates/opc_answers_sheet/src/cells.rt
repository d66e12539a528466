//! The cells of a row.
ghost use Rattle.std.specs.Prelude.{◌≡◌, IfOk, flat_map, map, string_bytes};
ghost use Rattle.std.specs.List.{list_any};
ghost use Rattle.std.specs.Option.{option_copied};
ghost use Rattle.opc_answers.specs.Texts.{may, warning_text};
ghost use Rattle.opc_answers_sheet.specs.Cells.{
  by_source,
  console_words,
  count_text,
  decider_cell,
  joined,
  names_text,
  or_nobody,
  paragraph,
  row_text,
  source_words,
  users_at,
  users_cell,
  users_text,
  warning_words,
  way_text,
  way_words,
  ways_text,
};

use crate::ways::{Way, groups_of, ids_by, sources_of};
use opc_answers::lines::UserLine;
use opc_answers::text::may;
use opc_names::name::ConsoleName;
use opc_policy_members::profile::Profile;
use opc_policy_sources::sources::LevelSource;
use std::alloc::{AllocError, Global};

/// Names with commas between them.
#[tactic(auto, using(crate::proofs::Joining::joined_so))]
fn joined(alloc: Global, names: &[&str]) -> Result<String, AllocError>
    ensures { IfOk result (λ text. string_bytes text ≡ joined (map (λ name. name.now) names.now)) }
{
    names.join(alloc, ", ")
}

/// How many, unless it is one.
fn count_text(alloc: Global, n: usize) -> Result<String, AllocError>
    ensures { IfOk result (λ text. string_bytes text ≡ count_text n) }
{
    if n == 1 {
        return Ok(String::new(alloc));
    }
    format!(in alloc; " ({n})")
}

/// These users by their ids, or all but the others if those are fewer. So many further users are unlisted.
fn names_text(
    alloc: Global,
    ids: &[&str],
    unlisted: usize,
    others: &[&str],
) -> Result<String, AllocError>
    ensures { IfOk result (λ text. string_bytes text
        ≡ names_text (map (λ id. id.now) ids.now) unlisted (map (λ id. id.now) others.now)) }
{
    if others.len() < ids.len().saturating_sub(unlisted) {
        let others = joined(alloc, others)?;
        let others = others.as_str();
        return format!(in alloc; "all but {others}");
    }
    joined(alloc, ids)
}

/// The same, and how many they are, or that it is everybody.
pub(crate) fn users_text(
    alloc: Global,
    ids: &[&str],
    unlisted: usize,
    others: &[&str],
) -> Result<String, AllocError>
    ensures { IfOk result (λ text. string_bytes text
        ≡ users_text (map (λ id. id.now) ids.now) unlisted (map (λ id. id.now) others.now)) }
{
    if unlisted == 0 && others.is_empty() {
        return String::from_str(alloc, ": everybody");
    }
    let count = count_text(alloc, ids.len())?;
    let names = names_text(alloc, ids, unlisted, others)?;
    let (count, names) = (count.as_str(), names.as_str());
    format!(in alloc; "{count}: {names}")
}

fn source_words(alloc: Global, source: Option<LevelSource>) -> Result<String, AllocError>
    ensures { IfOk result (λ text. string_bytes text ≡ source_words source) }
{
    match source {
        Some(source) => source.to_string(alloc),
        None => String::from_str(alloc, "NOPROFILE"),
    }
}

fn console_words(alloc: Global, console: Option<ConsoleName>) -> Result<String, AllocError>
    ensures { IfOk result (λ text. string_bytes text ≡ console_words console) }
{
    match console {
        Some(name) => format!(in alloc; " AT {name}"),
        None => Ok(String::new(alloc)),
    }
}

fn warning_words(warned: bool) -> &'static str
    ensures { result.now ≡ warning_words warned }
{
    if warned { ", with a warning" } else { "" }
}

fn way_words(alloc: Global, way: &Way) -> Result<String, AllocError>
    ensures { IfOk result (λ text. string_bytes text ≡ way_words way.now) }
{
    let source = source_words(alloc, way.source)?;
    let console = console_words(alloc, way.console)?;
    let warning = warning_words(way.warned);
    let (source, console) = (source.as_str(), console.as_str());
    format!(in alloc; "<p><b>{source}{console}</b>{warning}")
}

/// A paragraph for these users, if there are any.
fn paragraph(
    alloc: Global,
    way: &Way,
    ids: &[&str],
    unlisted: usize,
    others: &[&str],
) -> Result<String, AllocError>
    ensures { IfOk result (λ text. string_bytes text
        ≡ paragraph way.now (map (λ id. id.now) ids.now) unlisted (map (λ id. id.now) others.now)) }
{
    if ids.is_empty() {
        return Ok(String::new(alloc));
    }
    let words = way_words(alloc, way)?;
    let users = users_text(alloc, ids, unlisted, others)?;
    let (words, users) = (words.as_str(), users.as_str());
    format!(in alloc; "{words}{users}</p>")
}

/// A paragraph for those who may in one way.
fn way_text(
    alloc: Global,
    unlisted: usize,
    lines: &[UserLine],
    way: &Way,
) -> Result<String, AllocError>
    ensures { IfOk result (λ text. string_bytes text ≡ way_text unlisted lines.now way.now) }
{
    let ids = ids_by(alloc, true, way, lines)?;
    if ids.is_empty() {
        return Ok(String::new(alloc));
    }
    let others = ids_by(alloc, false, way, lines)?;
    paragraph(alloc, way, ids.as_slice(), unlisted, others.as_slice())
}

/// The same by one source.
fn by_source(
    alloc: Global,
    console: Option<ConsoleName>,
    warned: bool,
    unlisted: usize,
    lines: &[UserLine],
    source: Option<LevelSource>,
) -> Result<String, AllocError>
    ensures { IfOk result (λ text. string_bytes text ≡ by_source console warned unlisted lines.now source) }
{
    let way = Way {
        source,
        console,
        warned,
    };
    way_text(alloc, unlisted, lines, &way)
}

/// The same by each of these sources.
fn by_sources(
    alloc: Global,
    console: Option<ConsoleName>,
    warned: bool,
    unlisted: usize,
    lines: &[UserLine],
    sources: &[Option<LevelSource>],
) -> Result<String, AllocError>
    ensures { IfOk result (λ text. string_bytes text ≡ flat_map (by_source console warned unlisted lines.now) sources.now) }
{
    let mut text = String::new(alloc);
    for source in sources {
        text.push_str(by_source(alloc, console, warned, unlisted, lines, *source)?.as_str())?;
    }
    Ok(text)
}

/// Whether anybody may.
fn does_anybody(lines: &[UserLine]) -> bool
    ensures { result ≡ list_any may lines.now }
{
    lines.iter().any(|line| may(line))
}

fn ways_text(
    alloc: Global,
    console: Option<ConsoleName>,
    warned: bool,
    unlisted: usize,
    lines: &[UserLine],
) -> Result<String, AllocError>
    ensures { IfOk result (λ text. string_bytes text ≡ ways_text console warned unlisted lines.now) }
{
    let groups = groups_of(alloc, lines)?;
    let sources = sources_of(alloc, groups.as_slice())?;
    by_sources(alloc, console, warned, unlisted, lines, sources.as_slice())
}

/// Those who may by entries for one console alone or, without one, for every console; last those whom only a warning
/// lets. By most profiles nobody may, and no source is looked for. Lines may leave out users who may not: so many are
/// unlisted.
#[tactic(auto, using(crate::proofs::Nobody::nobody_at))]
pub(crate) fn users_at(
    alloc: Global,
    console: Option<ConsoleName>,
    unlisted: usize,
    lines: &[UserLine],
) -> Result<String, AllocError>
    ensures { IfOk result (λ text. string_bytes text ≡ users_at console unlisted lines.now) }
{
    if !does_anybody(lines) {
        return Ok(String::new(alloc));
    }
    let mut text = ways_text(alloc, console, false, unlisted, lines)?;
    text.push_str(ways_text(alloc, console, true, unlisted, lines)?.as_str())?;
    Ok(text)
}

fn or_nobody<'a>(text: &'a str) -> &'a str
    ensures { result.now ≡ or_nobody text.entry.now }
{
    if text.is_empty() {
        return "<p class=\"none\">nobody</p>";
    }
    text
}

/// The cell of who may.
pub(crate) fn users_cell(alloc: Global, text: &str) -> Result<String, AllocError>
    ensures { IfOk result (λ cell. string_bytes cell ≡ users_cell text.now) }
{
    let users = or_nobody(text);
    format!(in alloc; "<td>{users}</td>")
}

fn warning_text(warning: bool) -> &'static str
    ensures { result.now ≡ warning_text warning }
{
    if warning { " WARNING" } else { "" }
}

/// The cell of what decides.
fn decider_cell(alloc: Global, decided: Option<&Profile>) -> Result<String, AllocError>
    ensures { IfOk result (λ cell. string_bytes cell ≡ decider_cell (option_copied decided.entry)) }
{
    let Some(profile) = decided else {
        return String::from_str(alloc, "<td>no profile</td>");
    };
    let (pattern, warning) = (profile.pattern, warning_text(profile.warning));
    format!(in alloc; "<td><code>{pattern}</code>{warning}</td>")
}

/// A row: its first cells, what decides, and who may.
pub(crate) fn row_text(
    alloc: Global,
    first: &str,
    decided: Option<&Profile>,
    users: &str,
) -> Result<String, AllocError>
    ensures { IfOk result (λ row. string_bytes row ≡ row_text first.now (option_copied decided.entry) users.now) }
{
    let decider = decider_cell(alloc, decided)?;
    let users = users_cell(alloc, users)?;
    let (decider, users) = (decider.as_str(), users.as_str());
    format!(in alloc; "<tr>{first}{decider}{users}</tr>\n")
}
