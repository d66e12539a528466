//! The parts of what changes from one policy to another, each as text or as JSON.
ghost use Rattle.std.specs.Prelude.{◌≡◌, ◌≤◌, ◌++◌, List, IfOk, OnOk, length, string_bytes};
ghost use Rattle.std.specs.List.{flat_map};
ghost use Rattle.opc_answers_diff.specs.declared.verdicts.UserChange.{UserChange as Change};
ghost use Rattle.opc_answers_diff.specs.Sections.{IsCompared};
ghost use Rattle.opc_cli_questions.specs.Differences.{
  AreCounted,
  IsPairListed,
  consoles_shown,
  ending,
  kind_listed,
  kind_shown,
  logon_listed,
  logon_shown,
  rows_shown,
  section_shown,
};

use opc_answers_diff::compared::Compared;
use opc_answers_diff::consoles::ConsoleChange;
use opc_answers_diff::consoles_shown::{consoles_json, consoles_text};
use opc_answers_diff::gains::{Gains, ending_text};
use opc_answers_diff::logons::{logon_changes, logon_json, logon_text};
use opc_answers_diff::row_changes::RowChange;
use opc_answers_diff::rows_shown::{rows_json, rows_text};
use opc_answers_diff::sections::{decides_at, section_json, section_text};
use opc_answers_diff::verdicts::UserChange;
use opc_check::form::Form;
use opc_names::name::{ConsoleName, Resource};
use opc_policy_deciders::kind::{AskedKind, KINDS};
use std::alloc::{AllocError, Global};

/// What profiles at two places decide, one before and one after: for each form a resource, if there is one.
#[derive(Drop)]
struct DecidedPair {
    at: usize,
    other_at: usize,
    found: Vec<Option<Resource>>,
}

pub(crate) fn rows_shown(
    alloc: Global,
    form: Form,
    changes: &[RowChange],
) -> Result<String, AllocError>
    ensures { IfOk result (λ text. string_bytes text ≡ rows_shown form changes.now) }
{
    match form {
        Form::Text => rows_text(alloc, changes),
        Form::Json => rows_json(alloc, changes),
    }
}

/// The section of a kind, with these users.
fn section_shown(
    alloc: Global,
    form: Form,
    compared: &Compared,
    pair: &DecidedPair,
    kind: &AskedKind,
    changes: &[UserChange],
) -> Result<String, AllocError>
    ensures { IfOk result (λ text. string_bytes text ≡ section_shown form compared.now pair.now.at pair.now.other_at
        pair.now.found.items kind.now changes.now) }
{
    let (at, other_at, found) = (pair.at, pair.other_at, pair.found.as_slice());
    match form {
        Form::Text => {
            let decides = decides_at(alloc, compared, at, other_at)?;
            section_text(alloc, kind, found, decides.as_str(), changes)
        }
        Form::Json => {
            let (one, other) = (compared.one_at(at), compared.other_at(other_at));
            section_json(alloc, kind, found, one, other, changes)
        }
    }
}

/// Adds the section of a kind, and counts whom it lists.
fn push_kind(
    alloc: Global,
    form: Form,
    compared: &Compared,
    pair: &DecidedPair,
    kind: &AskedKind,
    gains: &mut Gains,
    text: &mut String,
) -> Result<(), AllocError>
    requires { IsCompared compared.now }
    ensures text { OnOk result (string_bytes text.new ≡ string_bytes text.old
        ++ kind_shown form compared.now pair.now.at pair.now.other_at pair.now.found.items kind.now) }
    ensures counted { OnOk result (AreCounted
        (kind_listed compared.now pair.now.at pair.now.other_at pair.now.found.items kind.now)
        gains.old gains.new) }
{
    let found = pair.found.as_slice();
    let changes = compared.found_changes(alloc, kind, found, pair.at, pair.other_at)?;
    let listed = changes.as_slice();
    gains.add(listed)?;
    let section = section_shown(alloc, form, compared, pair, kind, listed)?;
    text.push_str(section.as_str())?;
    Ok(())
}

/// Adds the sections of these kinds, one after another.
fn push_kinds(
    alloc: Global,
    form: Form,
    compared: &Compared,
    pair: &DecidedPair,
    kinds: &[AskedKind],
    gains: &mut Gains,
    text: &mut String,
) -> Result<(), AllocError>
    requires { IsCompared compared.now }
    ensures text { OnOk result (string_bytes text.new ≡ string_bytes text.old ++ flat_map
        (kind_shown form compared.now pair.now.at pair.now.other_at pair.now.found.items) kinds.now) }
    ensures counted { OnOk result (AreCounted (flat_map
        (kind_listed compared.now pair.now.at pair.now.other_at pair.now.found.items) kinds.now)
        gains.old gains.new) }
{
    for kind in kinds {
        push_kind(alloc, form, compared, pair, kind, gains, text)?;
    }
    Ok(())
}

/// What profiles at two places decide together.
fn decided_shown(
    alloc: Global,
    form: Form,
    compared: &Compared,
    gains: &mut Gains,
    at: usize,
    other_at: usize,
) -> Result<String, AllocError>
    requires compared { IsCompared compared.now }
    requires within { at ≤ length compared.now.patterns.items }
    requires other_within { other_at ≤ length compared.now.others.items }
    ensures { IfOk result (λ text. (changes : List Change) × IsPairListed form compared.now at other_at
        (string_bytes text, changes) × AreCounted changes gains.old gains.new) }
{
    let found = compared.found_at(alloc, at, other_at)?;
    let pair = DecidedPair {
        at,
        other_at,
        found,
    };
    let mut text = String::new(alloc);
    push_kinds(alloc, form, compared, &pair, &KINDS, gains, &mut text)?;
    Ok(text)
}

/// The same, or nothing if nothing changes there.
pub(crate) fn pair_shown(
    alloc: Global,
    form: Form,
    compared: &Compared,
    gains: &mut Gains,
    at: usize,
    other_at: usize,
) -> Result<String, AllocError>
    requires compared { IsCompared compared.now }
    requires within { at ≤ length compared.now.patterns.items }
    requires other_within { other_at ≤ length compared.now.others.items }
    ensures { IfOk result (λ text. (changes : List Change) × IsPairListed form compared.now at other_at
        (string_bytes text, changes) × AreCounted changes gains.old gains.new) }
{
    let may_change = compared.may_change_at(alloc, at, other_at)?;
    if may_change {
        return decided_shown(alloc, form, compared, gains, at, other_at);
    }
    Ok(String::new(alloc))
}

/// Those who log on at a console.
pub(crate) fn logon_shown(
    alloc: Global,
    form: Form,
    compared: &Compared,
    gains: &mut Gains,
    console: &ConsoleName,
) -> Result<String, AllocError>
    requires { IsCompared compared.now }
    ensures text { IfOk result (λ text. string_bytes text ≡ logon_shown form compared.now console.now) }
    ensures counted { IfOk result (λ _. AreCounted (logon_listed compared.now console.now) gains.old gains.new) }
{
    let (before, after) = (&compared.before.policy, &compared.after.policy);
    let changes = logon_changes(alloc, compared, console)?;
    gains.add(changes.as_slice())?;
    match form {
        Form::Text => logon_text(alloc, before, after, console, changes.as_slice()),
        Form::Json => logon_json(alloc, before, after, console, changes.as_slice()),
    }
}

pub(crate) fn consoles_shown(
    alloc: Global,
    form: Form,
    changes: &[ConsoleChange],
) -> Result<String, AllocError>
    ensures { IfOk result (λ text. string_bytes text ≡ consoles_shown form changes.now) }
{
    match form {
        Form::Text => consoles_text(alloc, changes),
        Form::Json => consoles_json(alloc, changes),
    }
}

/// The last line, how many differ. JSON has none.
pub(crate) fn ending(
    alloc: Global,
    form: Form,
    rows: usize,
    gains: &Gains,
) -> Result<String, AllocError>
    ensures { IfOk result (λ text. string_bytes text
        ≡ ending form rows gains.now.more.keys gains.now.less.keys) }
{
    match form {
        Form::Text => ending_text(alloc, rows, gains),
        Form::Json => Ok(String::new(alloc)),
    }
}
