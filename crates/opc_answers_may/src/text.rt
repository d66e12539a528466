//! What one user may, as text.
ghost use Rattle.std.specs.Prelude.{◌≡◌, ◌≤◌, ◌∷◌, ◌++◌, [], IfOk, OnOk, codes, length, map, string_bytes};
ghost use Rattle.std.specs.List.{flat_map};
ghost use Rattle.std.specs.Option.{is_none};
ghost use Rattle.std.specs.Str.{IsAscii};
ghost use Rattle.opc_board.specs.Texts.{left};
ghost use Rattle.opc_answers_may.specs.MayTexts.{
  console_of,
  flag_text,
  forms_line,
  basis_text,
  group_text,
  head_on,
  head_text,
  held_head,
  listed,
  logon_head,
  logon_row,
  logon_word,
  logons_text,
  may_log_on,
  names_of,
  on_word,
  profile_head,
  said_may,
  said_word,
  section_text,
  sections_text,
  sevens,
  user_text,
  with_names,
};
ghost use Rattle.opc_policy_deciders.specs.Forms.{asked, forms};
ghost use Rattle.opc_answers_may.specs.Commands.{shown};
ghost use Rattle.opc_answers_may.specs.MayTexts.{name_of};

use crate::commands::{
    CommandsHead, CommandsLine, CommandsSaid, CommandsSection, FormsAsked, takes,
};
use crate::listing::{column, line_if, line_of, push_name, under};
use crate::logons::{LogonAt, LogonBasis, bases, groups_on, logons_of};
use crate::may::May;
use opc_answers::logons::NoLogon;
use opc_answers::text::{may, verdict_word};
use opc_names::class::Class;
use opc_names::name::{Pattern, Resource};
use opc_policy_deciders::form::{FORMS, ResourceForm};
use opc_policy_members::user::User;
use opc_policy_sources::sources::HeldLevel;
use std::alloc::{AllocError, Global};

fn flag_text(is_set: bool, word: &'static str) -> &'static str
    ensures { result.now ≡ flag_text is_set word.now }
{
    if is_set { word } else { "" }
}

/// The first line: the user.
pub fn user_text(alloc: Global, user: &User) -> Result<String, AllocError>
    ensures { IfOk result (λ text. string_bytes text ≡ user_text user.now) }
{
    let id = user.id;
    let special = flag_text(user.special, " SPECIAL");
    let auditor = flag_text(user.auditor, " AUDITOR");
    let restricted = flag_text(user.restricted, " RESTRICTED");
    let revoked = flag_text(user.revoked, " REVOKED");
    format!(in alloc; "USER {id}{special}{auditor}{restricted}{revoked}\n")
}

/// A profile that decides, with the level held in it and its source.
fn profile_head(
    alloc: Global,
    class: Class,
    pattern: &Pattern,
    held: &HeldLevel,
) -> Result<String, AllocError>
    ensures { IfOk result (λ text. string_bytes text ≡ profile_head class pattern.now held.now) }
{
    let (level, source) = (held.level, *held);
    format!(in alloc; "PROFILE {class} {pattern} HELD {level} BY {source}\n")
}

/// The verdict on a LOGON: none is needed where the console acts for the user.
pub(crate) fn logon_word(logon: &LogonAt) -> &'static str
    ensures text { result.now ≡ logon_word logon.now }
    ensures ascii { IsAscii result.now }
    ensures short { length result.now ≤ 1000 }
{
    match logon.basis {
        LogonBasis::Auto => "ALLOWED",
        LogonBasis::ByProfile(_) | LogonBasis::NoProfile | LogonBasis::NoDigest => {
            verdict_word(&logon.line.ruling, &logon.line.instead)
        }
    }
}

pub(crate) fn may_log_on(logon: &LogonAt) -> bool
    ensures { result ≡ may_log_on logon.now }
{
    match logon.basis {
        LogonBasis::Auto => true,
        LogonBasis::ByProfile(_) | LogonBasis::NoProfile | LogonBasis::NoDigest => {
            may(&logon.line)
        }
    }
}

fn held_head(
    alloc: Global,
    pattern: &Pattern,
    held: &Option<HeldLevel>,
) -> Result<String, AllocError>
    ensures { IfOk result (λ text. string_bytes text ≡ held_head pattern.now held.now) }
{
    match held {
        Some(held) => profile_head(alloc, Class::Console, pattern, held),
        None => Ok(String::new(alloc)),
    }
}

fn logon_head(alloc: Global, logon: &LogonAt) -> Result<String, AllocError>
    ensures { IfOk result (λ text. string_bytes text ≡ logon_head logon.now) }
{
    match &logon.basis {
        LogonBasis::ByProfile(pattern) => held_head(alloc, pattern, &logon.line.held),
        LogonBasis::NoProfile => String::from_str(alloc, "NOPROFILE CONSOLE\n"),
        LogonBasis::NoDigest => String::from_str(alloc, "NODIGEST\n"),
        LogonBasis::Auto => String::from_str(alloc, "AUTO\n"),
    }
}

/// Adds the names of consoles to a list.
fn push_consoles(list: &mut String, row: &[LogonAt]) -> Result<(), AllocError>
    ensures { OnOk result (string_bytes list.new ≡ with_names (string_bytes list.old) (map console_of row.now)) }
{
    let [logon, rest @ ..] = row else {
        return Ok(());
    };
    push_name(list, logon.console.text())?;
    push_consoles(list, rest)
}

/// A line of consoles.
fn logon_row(alloc: Global, column: &str, row: &[LogonAt]) -> Result<String, AllocError>
    ensures { IfOk result (λ text. string_bytes text ≡ logon_row column.now row.now) }
{
    let mut names = String::new(alloc);
    push_consoles(&mut names, row)?;
    let names = names.as_str();
    let things = format!(in alloc; "LOGON {names}")?;
    line_of(alloc, column, things.as_str())
}

/// Adds the lines of consoles, at most seven in each.
fn push_rows(
    alloc: Global,
    text: &mut String,
    column: &str,
    logons: &[LogonAt],
) -> Result<(), AllocError>
    ensures { OnOk result (string_bytes text.new
        ≡ string_bytes text.old ++ flat_map (logon_row column.now) (sevens logons.now)) }
{
    if logons.is_empty() {
        return Ok(());
    }
    if logons.len() <= 7 {
        text.push_str(logon_row(alloc, column, logons)?.as_str())?;
        return Ok(());
    }
    let (row, rest) = logons.split_at(7);
    text.push_str(logon_row(alloc, column, row)?.as_str())?;
    push_rows(alloc, text, column, rest)
}

/// Consoles under a head; if `allowed` is set, only if the user may log on there.
fn group_text(alloc: Global, logons: &[LogonAt], allowed: bool) -> Result<String, AllocError>
    ensures { IfOk result (λ text. string_bytes text ≡ group_text allowed logons.now) }
{
    let [logon, ..] = logons else {
        return Ok(String::new(alloc));
    };
    if allowed && !may_log_on(logon) {
        return Ok(String::new(alloc));
    }
    let mut text = logon_head(alloc, logon)?;
    let column = column(alloc, logon_word(logon))?;
    push_rows(alloc, &mut text, column.as_str(), logons)?;
    Ok(text)
}

/// The consoles where this decides.
fn basis_text(
    alloc: Global,
    logons: &[LogonAt],
    basis: &LogonBasis,
    allowed: bool,
) -> Result<String, AllocError>
    ensures { IfOk result (λ text. string_bytes text ≡ basis_text allowed logons.now basis.now) }
{
    let groups = groups_on(alloc, logons, basis)?;
    let mut text = String::new(alloc);
    for group in groups.as_slice() {
        text.push_str(group_text(alloc, group.as_slice(), allowed)?.as_str())?;
    }
    Ok(text)
}

/// Where the user may log on; if `allowed` is set, only there.
pub fn logons_text(alloc: Global, may: &May, allowed: bool) -> Result<String, AllocError>
    ensures { IfOk result (λ text. string_bytes text ≡ logons_text allowed may.now) }
{
    let logons = logons_of(alloc, may)?;
    let bases = bases(alloc, &may.room.policy)?;
    let mut text = String::new(alloc);
    for basis in &bases {
        text.push_str(basis_text(alloc, logons.as_slice(), basis, allowed)?.as_str())?;
    }
    Ok(text)
}

/// What decides about commands.
fn head_text(alloc: Global, head: &CommandsHead) -> Result<String, AllocError>
    ensures { IfOk result (λ text. string_bytes text ≡ head_text head.now) }
{
    match head {
        CommandsHead::ByProfile(pattern, held) => {
            profile_head(alloc, Class::Opercmds, pattern, held)
        }
        CommandsHead::ByNone => String::from_str(alloc, "NOPROFILE OPERCMDS\n"),
        CommandsHead::ByAuthority(auth) => {
            let auth = auth.text();
            format!(in alloc; "NOPROFILE OPERCMDS AUTH {auth}\n")
        }
    }
}

/// What is allowed, unless the user cannot log on.
pub(crate) fn on_word(no_logon: &Option<NoLogon>) -> &'static str
    ensures text { result.now ≡ on_word no_logon.now }
    ensures ascii { IsAscii result.now }
    ensures short { length result.now ≤ 1000 }
{
    match no_logon {
        Some(_) => "NOLOGON",
        None => "ALLOWED",
    }
}

/// What is said of commands in a word.
pub(crate) fn said_word(said: &CommandsSaid) -> &'static str
    ensures text { result.now ≡ said_word said.now }
    ensures ascii { IsAscii result.now }
    ensures short { length result.now ≤ 1000 }
{
    match said {
        CommandsSaid::Ruled(line) => verdict_word(&line.ruling, &line.instead),
        CommandsSaid::Entered(_, no_logon) => on_word(no_logon),
        CommandsSaid::Closed(_) => "DENIED",
    }
}

pub(crate) fn said_may(said: &CommandsSaid) -> bool
    ensures { result ≡ said_may said.now }
{
    match said {
        CommandsSaid::Ruled(line) => may(line),
        CommandsSaid::Entered(_, no_logon) => no_logon.is_none(),
        CommandsSaid::Closed(_) => false,
    }
}

/// Adds the name of a form to a list, if the form is in the line and something is found of it.
fn push_form(
    list: &mut String,
    which: &FormsAsked,
    form: &ResourceForm,
    found: &Option<Resource>,
) -> Result<(), AllocError>
    ensures { OnOk result (string_bytes list.new ≡ with_names (string_bytes list.old)
        (map name_of (shown which.now (asked form.now ∷ []) (found.now ∷ [])))) }
{
    if found.is_none() {
        return Ok(());
    }
    if !takes(which, form) {
        return Ok(());
    }
    push_name(list, form.name)
}

/// The same of each form.
fn push_forms(
    list: &mut String,
    which: &FormsAsked,
    forms: &[ResourceForm],
    found: &[Option<Resource>],
) -> Result<(), AllocError>
    ensures { OnOk result (string_bytes list.new ≡ with_names (string_bytes list.old)
        (map name_of (shown which.now (map asked forms.now) found.now))) }
{
    let [form, forms_left @ ..] = forms else {
        return Ok(());
    };
    let [first, found_left @ ..] = found else {
        return Ok(());
    };
    push_form(list, which, form, first)?;
    push_forms(list, which, forms_left, found_left)
}

/// The forms in a line, by name.
pub fn names_text(
    alloc: Global,
    which: &FormsAsked,
    found: &[Option<Resource>],
) -> Result<String, AllocError>
    ensures { IfOk result (λ text. string_bytes text ≡ listed (names_of which.now found.now)) }
{
    let mut list = String::new(alloc);
    push_forms(&mut list, which, &FORMS, found)?;
    Ok(list)
}

/// The line of some forms; if `allowed` is set, only if the user may.
fn forms_line(
    alloc: Global,
    line: &CommandsLine,
    found: &[Option<Resource>],
    allowed: bool,
) -> Result<String, AllocError>
    ensures { IfOk result (λ text. string_bytes text ≡ forms_line allowed found.now line.now) }
{
    if allowed && !said_may(&line.said) {
        return Ok(String::new(alloc));
    }
    let column = column(alloc, said_word(&line.said))?;
    let names = names_text(alloc, &line.asked, found)?;
    line_if(alloc, column.as_str(), names.as_str())
}

fn forms_lines(
    alloc: Global,
    lines: &[CommandsLine],
    found: &[Option<Resource>],
    allowed: bool,
) -> Result<String, AllocError>
    ensures { IfOk result (λ text. string_bytes text ≡ flat_map (forms_line allowed found.now) lines.now) }
{
    let mut text = String::new(alloc);
    for line in lines {
        text.push_str(forms_line(alloc, line, found, allowed)?.as_str())?;
    }
    Ok(text)
}

fn section_text(
    alloc: Global,
    section: &CommandsSection,
    found: &[Option<Resource>],
    allowed: bool,
) -> Result<String, AllocError>
    ensures { IfOk result (λ text. string_bytes text ≡ section_text allowed found.now section.now) }
{
    let lines = forms_lines(alloc, section.lines.as_slice(), found, allowed)?;
    let head = head_text(alloc, &section.head)?;
    under(alloc, head.as_str(), lines.as_str())
}

/// Sections, with the forms of which something is found; if `allowed` is set, only what the user may.
pub fn sections_text(
    alloc: Global,
    sections: &[CommandsSection],
    found: &[Option<Resource>],
    allowed: bool,
) -> Result<String, AllocError>
    ensures { IfOk result (λ text. string_bytes text ≡ sections_text allowed found.now sections.now) }
{
    let mut text = String::new(alloc);
    for section in sections {
        text.push_str(section_text(alloc, section, found, allowed)?.as_str())?;
    }
    Ok(text)
}
