//! What a user may, part by part: each is made and written before the next one.
ghost use Rattle.std.specs.Prelude.{◌≡◌, ◌≤◌, ◌+◌, IfErr, IfOk, OnOk, length, string_bytes};
ghost use Rattle.std.specs.Io.KnownBytes.{Appends};
ghost use Rattle.opc_policy_deciders.specs.Decided.{ArePatternsOf, patterns_of};
ghost use Rattle.opc_cli_failures.specs.Statuses.{IsFailure};
ghost use Rattle.opc_cli_questions.specs.MayPrinted.{
  ArePlacesWritten,
  AreRights,
  IsMayText,
  IsPlaceShown,
  changes_shown,
  logons_shown,
  sections_shown,
  user_shown,
};

use crate::printing::{no_memory, print_text};
use opc_answers::members::UserWithGroups;
use opc_answers_may::change_json::changes_json;
use opc_answers_may::change_text::changes_text;
use opc_answers_may::commands::{CommandsSection, profile_at, sections_of};
use opc_answers_may::json::{logons_json, sections_json, user_json};
use opc_answers_may::may::May;
use opc_answers_may::text::{logons_text, sections_text, user_text};
use opc_check::form::Form;
use opc_cli_failures::failure::Failure;
use opc_names::name::{Pattern, Resource};
use opc_policy_deciders::decided::{decided_at, patterns_of};
use std::alloc::{AllocError, Global};
use std::io::Write;

fn user_shown(alloc: Global, form: Form, member: &UserWithGroups) -> Result<String, AllocError>
    ensures { IfOk result (λ text. string_bytes text ≡ user_shown form member.now) }
{
    match form {
        Form::Text => user_text(alloc, &member.user),
        Form::Json => user_json(alloc, member),
    }
}

fn logons_shown(alloc: Global, form: Form, allowed: bool, may: &May) -> Result<String, AllocError>
    ensures { IfOk result (λ text. string_bytes text ≡ logons_shown form allowed may.now) }
{
    match form {
        Form::Text => logons_text(alloc, may, allowed),
        Form::Json => logons_json(alloc, may, allowed),
    }
}

fn sections_shown(
    alloc: Global,
    form: Form,
    allowed: bool,
    found: &[Option<Resource>],
    sections: &[CommandsSection],
) -> Result<String, AllocError>
    ensures { IfOk result (λ text. string_bytes text ≡ sections_shown form allowed found.now sections.now) }
{
    match form {
        Form::Text => sections_text(alloc, sections, found, allowed),
        Form::Json => sections_json(alloc, sections, found, allowed),
    }
}

fn changes_shown(alloc: Global, form: Form, allowed: bool, may: &May) -> Result<String, AllocError>
    ensures { IfOk result (λ text. string_bytes text ≡ changes_shown form allowed may.now) }
{
    match form {
        Form::Text => changes_text(alloc, may, allowed),
        Form::Json => changes_json(alloc, may, allowed),
    }
}

/// What the profile of the pattern at a place decides; at the end of the patterns, what none does.
fn place_shown(
    alloc: Global,
    form: Form,
    allowed: bool,
    may: &May,
    patterns: &[Pattern],
    place: usize,
) -> Result<String, AllocError>
    requires all { ArePatternsOf may.now.room.policy patterns.now }
    requires within { place ≤ length patterns.now }
    ensures { IfOk result (λ text. IsPlaceShown form allowed may.now place (string_bytes text)) }
{
    let policy = &may.room.policy;
    let decided = decided_at(alloc, policy, patterns, place)?;
    let made = sections_of(alloc, may, profile_at(policy, patterns, place))?;
    let found = decided.as_slice();
    let sections = made.as_slice();
    sections_shown(alloc, form, allowed, found, sections)
}

fn print_user<W: Write>(
    alloc: Global,
    form: Form,
    member: &UserWithGroups,
    output: &mut W,
) -> Result<(), Failure>
    ensures text { OnOk result (Appends (W.contents output.old) (W.contents output.new) (user_shown form member.now)) }
    ensures fails { IfErr result (λ failure. IsFailure failure.fault) }
{
    let Ok(text) = user_shown(alloc, form, member) else {
        return Err(no_memory());
    };
    print_text(text.as_str(), output)
}

fn print_logons<W: Write>(
    alloc: Global,
    form: Form,
    allowed: bool,
    may: &May,
    output: &mut W,
) -> Result<(), Failure>
    ensures text { OnOk result (Appends (W.contents output.old) (W.contents output.new)
        (logons_shown form allowed may.now)) }
    ensures fails { IfErr result (λ failure. IsFailure failure.fault) }
{
    let Ok(text) = logons_shown(alloc, form, allowed, may) else {
        return Err(no_memory());
    };
    print_text(text.as_str(), output)
}

fn print_changes<W: Write>(
    alloc: Global,
    form: Form,
    allowed: bool,
    may: &May,
    output: &mut W,
) -> Result<(), Failure>
    ensures text { OnOk result (Appends (W.contents output.old) (W.contents output.new)
        (changes_shown form allowed may.now)) }
    ensures fails { IfErr result (λ failure. IsFailure failure.fault) }
{
    let Ok(text) = changes_shown(alloc, form, allowed, may) else {
        return Err(no_memory());
    };
    print_text(text.as_str(), output)
}

/// Prints what is decided at the place after those whose commands are printed.
fn print_place<W: Write>(
    alloc: Global,
    form: Form,
    allowed: bool,
    may: &May,
    patterns: &[Pattern],
    place: usize,
    output: &mut W,
) -> Result<(), Failure>
    requires all { ArePatternsOf may.now.room.policy patterns.now }
    requires within { place ≤ length patterns.now }
    ensures text { OnOk result ((text : _) × IsPlaceShown form allowed may.now place text
        × Appends (W.contents output.old) (W.contents output.new) text) }
    ensures fails { IfErr result (λ failure. IsFailure failure.fault) }
{
    let Ok(text) = place_shown(alloc, form, allowed, may, patterns, place) else {
        return Err(no_memory());
    };
    print_text(text.as_str(), output)
}

/// Prints what profiles decide, one after another, and then what none does.
fn print_places<W: Write>(
    alloc: Global,
    form: Form,
    allowed: bool,
    may: &May,
    patterns: &[Pattern],
    output: &mut W,
) -> Result<(), Failure>
    requires { ArePatternsOf may.now.room.policy patterns.now }
    ensures text { OnOk result (ArePlacesWritten form allowed may.now (W.contents output.old) (W.contents output.new)
        (length patterns.now + 1)) }
    ensures fails { IfErr result (λ failure. IsFailure failure.fault) }
{
    let end = patterns.len();
    for place in 0..end {
        print_place(alloc, form, allowed, may, patterns, place, output)?;
    }
    print_place(alloc, form, allowed, may, patterns, end, output)
}

/// Prints what the user may enter.
fn print_commands<W: Write>(
    alloc: Global,
    form: Form,
    allowed: bool,
    may: &May,
    output: &mut W,
) -> Result<(), Failure>
    ensures text { OnOk result (ArePlacesWritten form allowed may.now (W.contents output.old) (W.contents output.new)
        (length (patterns_of may.now.room.policy) + 1)) }
    ensures fails { IfErr result (λ failure. IsFailure failure.fault) }
{
    let Ok(patterns) = patterns_of(alloc, &may.room.policy) else {
        return Err(no_memory());
    };
    print_places(alloc, form, allowed, may, patterns.as_slice(), output)
}

/// Prints where the user may log on, what may be entered, and what may be changed.
fn print_rights<W: Write>(
    alloc: Global,
    form: Form,
    allowed: bool,
    may: &May,
    output: &mut W,
) -> Result<(), Failure>
    ensures text { OnOk result ((text : _) × AreRights form allowed may.now text
        × Appends (W.contents output.old) (W.contents output.new) text) }
    ensures fails { IfErr result (λ failure. IsFailure failure.fault) }
{
    print_logons(alloc, form, allowed, may, output)?;
    print_commands(alloc, form, allowed, may, output)?;
    print_changes(alloc, form, allowed, may, output)
}

/// Prints what a user may, as text or as JSON; if `allowed` is set, only what is allowed. The commands that one profile
/// decides are in memory at a time. A revoked user may nothing.
pub(crate) fn print_may<W: Write>(
    alloc: Global,
    form: Form,
    allowed: bool,
    may: &May,
    output: &mut W,
) -> Result<(), Failure>
    ensures text { OnOk result ((text : _) × IsMayText form allowed may.now text
        × Appends (W.contents output.old) (W.contents output.new) text) }
    ensures fails { IfErr result (λ failure. IsFailure failure.fault) }
{
    print_user(alloc, form, &may.member, output)?;
    let is_revoked = may.member.user.revoked;
    if is_revoked {
        return Ok(());
    }
    print_rights(alloc, form, allowed, may, output)
}
