//! What decides on both sides, as lines.
ghost use Rattle.std.specs.Prelude.{◌≡◌, IfOk, string_bytes};
ghost use Rattle.std.specs.Option.{option_copied};
ghost use Rattle.serde_json.specs.View.{view};
ghost use Rattle.opc_answers_diff.specs.DecidesShown.{both_sides, decides_lines, profile_value};

use opc_answers::beginning::decides_text;
use opc_names::class::Class;
use opc_policy_members::policy::Policy;
use opc_policy_members::profile::Profile;
use serde_json::{Value, json};
use std::alloc::{AllocError, Global};

/// A copy of a profile that decides.
fn copied(profile: Option<&Profile>) -> Result<Option<Profile>, AllocError>
    ensures { IfOk result (λ copy. copy ≡ option_copied profile.entry) }
{
    match profile {
        Some(profile) => Ok(Some(profile.clone()?)),
        None => Ok(None),
    }
}

/// One line, if both sides say the same, and else one for each side.
fn both_sides(alloc: Global, before: &str, after: &str) -> Result<String, AllocError>
    ensures { IfOk result (λ text. string_bytes text ≡ both_sides before.now after.now) }
{
    if before == after {
        return format!(in alloc; "  {before}");
    }
    format!(in alloc; "- {before}+ {after}")
}

/// What decides on both sides.
pub(crate) fn decides_lines(
    alloc: Global,
    class: Class,
    before: &Policy,
    after: &Policy,
    one: Option<&Profile>,
    other: Option<&Profile>,
) -> Result<String, AllocError>
    ensures { IfOk result (λ text. string_bytes text ≡ decides_lines class before.now after.now
        (option_copied one.entry) (option_copied other.entry)) }
{
    let (was, is) = (before.active.contains(class), after.active.contains(class));
    let (one, other) = (copied(one)?, copied(other)?);
    let one = decides_text(alloc, was, class, &one)?;
    let other = decides_text(alloc, is, class, &other)?;
    both_sides(alloc, one.as_str(), other.as_str())
}

/// A profile that decides, or `null`.
pub(crate) fn profile_value(alloc: Global, profile: Option<&Profile>) -> Result<Value, AllocError>
    ensures { IfOk result (λ value. view value ≡ profile_value (option_copied profile.entry)) }
{
    let Some(profile) = profile else {
        return Ok(Value::Null);
    };
    let (class, pattern) = (profile.class.text(), profile.pattern.text());
    let (uacc, warning) = (profile.uacc.text(), profile.warning);
    json!(in alloc; {"class": class, "pattern": pattern, "uacc": uacc, "warning": warning})
}
