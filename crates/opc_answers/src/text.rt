//! The text of an answer.
ghost use Rattle.std.specs.Prelude.{◌≡◌, ◌≤◌, ◌∷◌, ◌++◌, [], IfOk, length, string_bytes};
ghost use Rattle.std.specs.List.{flat_map};
ghost use Rattle.std.specs.Str.{IsAscii};
ghost use Rattle.opc_board.specs.Texts.{columns, left};
ghost use Rattle.opc_machine.specs.Rulings.{is_allowed};
ghost use Rattle.opc_terms.specs.Rules.{rule_text};
ghost use Rattle.opc_answers.specs.Texts.{
  actor_word,
  console_lines_text,
  console_word,
  console_text,
  ground_text,
  ground_without_level,
  instead_text,
  instead_word,
  level_word,
  may,
  no_logon_text,
  ruling_word,
  shown_console,
  shown_user,
  user_text,
  verdict_word,
};

use crate::consoles::ConsoleLine;
use crate::lines::UserLine;
use crate::logons::{Instead, NoLogon};
use opc_policy::ruling::Ruling;
use opc_policy_sources::sources::HeldLevel;
use opc_rows::Rows;
use opc_terms::rule::Rule;
use std::alloc::{AllocError, Global};

/// The word for a ruling; what only a warning lets pass has a word of its own.
pub fn ruling_word(ruling: &Ruling) -> &'static str
    ensures text { result.now ≡ ruling_word ruling.now }
    ensures ascii { IsAscii result.now }
    ensures short { length result.now ≤ 1000 }
{
    match ruling {
        Ruling::Allowed(Rule::Profile { warned: true, .. }) => "WARNED",
        Ruling::Allowed(_) => "ALLOWED",
        Ruling::Denied(_) => "DENIED",
    }
}

/// The word for what replaces a ruling.
pub fn instead_word(instead: &Instead) -> &'static str
    ensures text { result.now ≡ instead_word instead.now }
    ensures ascii { IsAscii result.now }
    ensures short { length result.now ≤ 1000 }
{
    match instead {
        Instead::NoLogon(_) => "NOLOGON",
        Instead::NoDigest => "DENIED",
        Instead::Hidden => "HIDDEN",
    }
}

/// The word for a user: that of the ruling, or of what replaces it.
pub fn verdict_word(ruling: &Option<Ruling>, instead: &Option<Instead>) -> &'static str
    ensures text { result.now ≡ verdict_word ruling.now instead.now }
    ensures ascii { IsAscii result.now }
    ensures short { length result.now ≤ 1000 }
{
    match (instead, ruling) {
        (Some(instead), _) => instead_word(instead),
        (None, Some(ruling)) => ruling_word(ruling),
        (None, None) => "UNDECIDED",
    }
}

/// Why a user cannot log on.
pub fn no_logon_text(alloc: Global, no_logon: &NoLogon) -> Result<String, AllocError>
    ensures { IfOk result (λ text. string_bytes text ≡ no_logon_text no_logon.now) }
{
    match no_logon {
        NoLogon::Denied(rule) => rule.text(alloc),
        NoLogon::NoDigest => String::from_str(alloc, "NODIGEST"),
        NoLogon::NoConsole => String::from_str(alloc, "NOCONSOLE"),
    }
}

/// Why it is said, if it is not for the rule that decided.
pub fn instead_text(alloc: Global, instead: &Instead, rule: &Rule) -> Result<String, AllocError>
    ensures { IfOk result (λ text. string_bytes text ≡ instead_text instead.now (rule_text rule.now)) }
{
    match instead {
        Instead::NoLogon(no_logon) => no_logon_text(alloc, no_logon),
        Instead::NoDigest => String::from_str(alloc, "NODIGEST"),
        Instead::Hidden => rule.text(alloc),
    }
}

/// The level held, if the profile was consulted.
fn level_word<'a>(held: &'a Option<HeldLevel>) -> &'a str
    ensures text { result.now ≡ level_word held.entry.now }
    ensures ascii { IsAscii result.now }
    ensures short { length result.now ≤ 1000 }
{
    match held {
        Some(held) => held.level.text(),
        None => "-",
    }
}

/// The rule that decided, or that no digest is stored.
fn ground_without_level(alloc: Global, line: &UserLine) -> Result<String, AllocError>
    ensures { IfOk result (λ text. string_bytes text ≡ ground_without_level line.now.ruling line.now.instead) }
{
    if let Some(Instead::NoDigest) = line.instead {
        return String::from_str(alloc, "NODIGEST");
    }
    match &line.ruling {
        Some(ruling) => ruling.rule().text(alloc),
        None => String::from_str(alloc, "NOPROFILE"),
    }
}

/// The source of the level, or what stands in its place.
fn ground_text(alloc: Global, line: &UserLine) -> Result<String, AllocError>
    ensures { IfOk result (λ text. string_bytes text ≡ ground_text line.now.held line.now.ruling line.now.instead) }
{
    match &line.held {
        Some(held) => held.to_string(alloc),
        None => ground_without_level(alloc, line),
    }
}

#[tactic(auto, using(opc_board::proofs::Padding::padded_left))]
fn user_columns(
    alloc: Global,
    verdict: &str,
    id: &str,
    level: &str,
    ground: &str,
) -> Result<String, AllocError>
    requires verdict { IsAscii verdict.now }
    requires verdict_short { length verdict.now ≤ 1000 }
    requires id { IsAscii id.now }
    requires id_short { length id.now ≤ 1000 }
    requires level { IsAscii level.now }
    requires level_short { length level.now ≤ 1000 }
    ensures { IfOk result (λ text. string_bytes text ≡ columns
        (left 7 verdict.now ∷ left 8 id.now ∷ left 7 level.now ∷ (ground.now ++ 10 ∷ []) ∷ [])) }
{
    format!(in alloc; "{verdict:<7} {id:<8} {level:<7} {ground}\n")
}

/// The line of a user.
pub fn user_text(alloc: Global, line: &UserLine) -> Result<String, AllocError>
    ensures { IfOk result (λ text. string_bytes text ≡ user_text line.now) }
{
    let ground = ground_text(alloc, line)?;
    let (verdict, level) = (
        verdict_word(&line.ruling, &line.instead),
        level_word(&line.held),
    );
    user_columns(alloc, verdict, line.id.text(), level, ground.as_str())
}

fn actor_word(own: bool) -> &'static str
    ensures text { result.now ≡ actor_word own }
    ensures ascii { IsAscii result.now }
    ensures short { length result.now ≤ 1000 }
{
    if own { "AUTO" } else { "NOBODY" }
}

#[tactic(auto, using(opc_board::proofs::Padding::padded_left))]
fn console_columns(
    alloc: Global,
    verdict: &str,
    name: &str,
    actor: &str,
    rule: &str,
) -> Result<String, AllocError>
    requires verdict { IsAscii verdict.now }
    requires verdict_short { length verdict.now ≤ 1000 }
    requires name { IsAscii name.now }
    requires name_short { length name.now ≤ 1000 }
    requires actor { IsAscii actor.now }
    requires actor_short { length actor.now ≤ 1000 }
    ensures { IfOk result (λ text. string_bytes text ≡ columns
        (left 7 verdict.now ∷ (42 ∷ left 7 name.now) ∷ left 7 actor.now ∷ (rule.now ++ 10 ∷ []) ∷ [])) }
{
    format!(in alloc; "{verdict:<7} *{name:<7} {actor:<7} {rule}\n")
}

/// What is said of a console in a word.
pub fn console_word(line: &ConsoleLine) -> &'static str
    ensures text { result.now ≡ console_word line.now }
    ensures ascii { IsAscii result.now }
    ensures short { length result.now ≤ 1000 }
{
    if line.hidden {
        return "HIDDEN";
    }
    ruling_word(&line.ruling)
}

fn console_text(alloc: Global, line: &ConsoleLine) -> Result<String, AllocError>
    ensures { IfOk result (λ text. string_bytes text ≡ console_text line.now) }
{
    let rule = line.ruling.rule().text(alloc)?;
    let (verdict, actor) = (console_word(line), actor_word(line.own));
    console_columns(alloc, verdict, line.name.text(), actor, rule.as_str())
}

/// Whether a ruling allows.
pub fn is_allowed(ruling: &Ruling) -> bool
    ensures { result ≡ is_allowed ruling.now }
{
    match ruling {
        Ruling::Allowed(_) => true,
        Ruling::Denied(_) => false,
    }
}

/// Whether the user may, and can log on.
pub fn may(line: &UserLine) -> bool
    ensures { result ≡ may line.now }
{
    match (&line.instead, &line.ruling) {
        (None, Some(ruling)) => is_allowed(ruling),
        (Some(_), _) | (None, None) => false,
    }
}

/// The line of a user, unless only users who may are requested and this one may not.
fn shown_user(alloc: Global, line: &UserLine, allowed: bool) -> Result<String, AllocError>
    ensures { IfOk result (λ text. string_bytes text ≡ shown_user allowed line.now) }
{
    if allowed && !may(line) {
        return Ok(String::new(alloc));
    }
    user_text(alloc, line)
}

/// The line of a console, unless only consoles that may are requested and this one may not.
fn shown_console(alloc: Global, line: &ConsoleLine, allowed: bool) -> Result<String, AllocError>
    ensures { IfOk result (λ text. string_bytes text ≡ shown_console allowed line.now) }
{
    if allowed && !is_allowed(&line.ruling) {
        return Ok(String::new(alloc));
    }
    console_text(alloc, line)
}

/// A line for each user; if `allowed` is set, only for those who may.
pub fn users_text(alloc: Global, lines: &[UserLine], allowed: bool) -> Result<String, AllocError>
    ensures { IfOk result (λ text. string_bytes text ≡ flat_map (shown_user allowed) lines.now) }
{
    let mut text = String::new(alloc);
    for line in lines {
        text.push_str(shown_user(alloc, line, allowed)?.as_str())?;
    }
    Ok(text)
}

fn console_lines(alloc: Global, lines: &[ConsoleLine], allowed: bool) -> Result<String, AllocError>
    ensures { IfOk result (λ text. string_bytes text ≡ flat_map (shown_console allowed) lines.now) }
{
    let mut text = String::new(alloc);
    for line in lines {
        text.push_str(shown_console(alloc, line, allowed)?.as_str())?;
    }
    Ok(text)
}

/// A line for each console, if the question is about a command; if `allowed` is set, only for those that may.
pub fn console_lines_text(
    alloc: Global,
    lines: &Option<Rows<ConsoleLine>>,
    allowed: bool,
) -> Result<String, AllocError>
    ensures { IfOk result (λ text. string_bytes text ≡ console_lines_text allowed lines.now) }
{
    match lines {
        Some(lines) => console_lines(alloc, lines.as_slice(), allowed),
        None => Ok(String::new(alloc)),
    }
}
