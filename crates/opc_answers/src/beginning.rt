//! The first lines of an answer: what is needed, and what decides.
ghost use Rattle.std.specs.Prelude.{◌≡◌, IfOk, string_bytes};
ghost use Rattle.opc_answers.specs.Texts.{
  beginning_text,
  class_note,
  decides_text,
  kind_words,
  line_need_text,
  logon_needs,
  need_line,
  needs_text,
  profile_text,
  shows_text,
  taken_text,
  warning_text,
};

use crate::shows::Shows;
use crate::wanted::{Entered, Wanted};
use crate::who::Who;
use opc_names::class::Class;
use opc_names::name::ConsoleName;
use opc_policy_members::profile::Profile;
use opc_terms::need::Need;
use opc_terms::unit_kind::UnitKindAt;
use std::alloc::{AllocError, Global};

/// What a unit is taken for, as `--as` has it; what is on no board is a job.
pub(crate) fn kind_words(alloc: Global, kind: UnitKindAt) -> Result<String, AllocError>
    ensures { IfOk result (λ text. string_bytes text ≡ kind_words kind) }
{
    match kind {
        UnitKindAt::Absent | UnitKindAt::Job => String::from_str(alloc, "JOB"),
        UnitKindAt::Stc { member } => format!(in alloc; "STC:{member}"),
        UnitKindAt::Tsu => String::from_str(alloc, "TSU"),
    }
}

fn taken_text(alloc: Global, unit: Option<UnitKindAt>) -> Result<String, AllocError>
    ensures { IfOk result (λ text. string_bytes text ≡ taken_text unit) }
{
    let Some(kind) = unit else {
        return Ok(String::new(alloc));
    };
    let words = kind_words(alloc, kind)?;
    let words = words.as_str();
    format!(in alloc; " AS {words}")
}

/// The line of what a command needs.
fn need_line(alloc: Global, entered: &Entered) -> Result<String, AllocError>
    ensures { IfOk result (λ text. string_bytes text ≡ need_line entered.now) }
{
    let Entered { need, unit, .. } = *entered;
    let (level, resource, group) = (need.level, need.resource, need.group);
    let taken = taken_text(alloc, unit)?;
    let taken = taken.as_str();
    format!(in alloc; "NEEDS {level} {resource} GROUP {group}{taken}\n")
}

/// What a LOGON at the console of this name needs.
pub fn logon_needs(alloc: Global, name: &ConsoleName) -> Result<String, AllocError>
    ensures { IfOk result (λ text. string_bytes text ≡ logon_needs name.now) }
{
    format!(in alloc; "NEEDS READ {name} CLASS CONSOLE\n")
}

pub(crate) fn needs_text(alloc: Global, wanted: &Wanted) -> Result<String, AllocError>
    ensures { IfOk result (λ text. string_bytes text ≡ needs_text wanted.now) }
{
    match wanted {
        Wanted::Command(entered) => need_line(alloc, entered),
        Wanted::Logon(name) => logon_needs(alloc, name),
        Wanted::Access { .. } => Ok(String::new(alloc)),
    }
}

fn warning_text(warning: bool) -> &'static str
    ensures { result.now ≡ warning_text warning }
{
    if warning { " WARNING" } else { "" }
}

fn profile_text(alloc: Global, profile: &Option<Profile>) -> Result<String, AllocError>
    ensures { IfOk result (λ text. string_bytes text ≡ profile_text profile.now) }
{
    let Some(profile) = profile else {
        return String::from_str(alloc, "NOPROFILE");
    };
    let (class, pattern, uacc) = (profile.class, profile.pattern, profile.uacc);
    let warning = warning_text(profile.warning);
    format!(in alloc; "PROFILE {class} {pattern} UACC {uacc}{warning}")
}

fn class_note(alloc: Global, active: bool, class: Class) -> Result<String, AllocError>
    ensures { IfOk result (λ text. string_bytes text ≡ class_note active class) }
{
    if active {
        return Ok(String::new(alloc));
    }
    format!(in alloc; ", CLASS {class} INACTIVE")
}

/// What decides: a profile, or none.
pub fn decides_text(
    alloc: Global,
    active: bool,
    class: Class,
    decided: &Option<Profile>,
) -> Result<String, AllocError>
    ensures { IfOk result (λ text. string_bytes text ≡ decides_text active class decided.now) }
{
    let profile = profile_text(alloc, decided)?;
    let note = class_note(alloc, active, class)?;
    let (profile, note) = (profile.as_str(), note.as_str());
    format!(in alloc; "DECIDES {profile}{note}\n")
}

/// What the line needs that a command asks for.
pub(crate) fn line_need_text(alloc: Global, need: &Need) -> Result<String, AllocError>
    ensures { IfOk result (λ text. string_bytes text ≡ line_need_text need.now) }
{
    let (level, resource, group) = (need.level, need.resource, need.group);
    format!(in alloc; "SHOWS {level} {resource} GROUP {group}\n")
}

/// The same, and what decides about it.
fn shows_text(alloc: Global, active: bool, shows: &Option<Shows>) -> Result<String, AllocError>
    ensures { IfOk result (λ text. string_bytes text ≡ shows_text active shows.now) }
{
    let Some(shows) = shows else {
        return Ok(String::new(alloc));
    };
    let mut text = line_need_text(alloc, &shows.need)?;
    let decides = decides_text(alloc, active, Class::Opercmds, &shows.decided)?;
    text.push_str(decides.as_str())?;
    Ok(text)
}

/// What is needed, and what decides: the first lines.
pub fn beginning_text(alloc: Global, who: &Who) -> Result<String, AllocError>
    ensures { IfOk result (λ text. string_bytes text ≡ beginning_text who.now) }
{
    let (active, class) = (who.active, who.wanted.class());
    let mut text = needs_text(alloc, &who.wanted)?;
    text.push_str(decides_text(alloc, active, class, &who.decided)?.as_str())?;
    text.push_str(shows_text(alloc, active, &who.shows)?.as_str())?;
    Ok(text)
}
