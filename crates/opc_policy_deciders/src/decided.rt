//! Which resources a profile decides, form by form.
ghost use Rattle.std.specs.Prelude.{◌≡◌, ◌≤◌, [], ◌∷◌, All, IfOk, OnOk, length, map};
ghost use Rattle.std.specs.List.{slice_get};
ghost use Rattle.opc_names.specs.Names.{IsPattern};
ghost use Rattle.opc_policy_members.specs.Profiles.{AreMostSpecificFirst, AreProfiles, of_class};
ghost use Rattle.opc_policy_witness.specs.Forms.{IsForm};
ghost use Rattle.opc_policy_deciders.specs.Between.{IsBetween};
ghost use Rattle.opc_policy_deciders.specs.Decided.{
  AddsShortest,
  ArePatternsOf,
  AreShortest,
  IsDecided,
  IsShortest,
  pattern_of,
};
ghost use Rattle.opc_policy_deciders.specs.Forms.{AreForms, asked, forms};
ghost use Rattle.opc_policy_deciders.specs.Near.{ComeBefore};

use crate::form::{FORMS, ResourceForm};
use crate::near::near;
use opc_names::class::Class;
use opc_names::name::{Pattern, Resource};
use opc_policy_members::policy::Policy;
use opc_policy_members::profiles::Profiles;
use opc_policy_witness::ends::near_these;
use opc_policy_witness::witness::witness;
use std::alloc::{AllocError, Global};

/// The patterns of a class, in order.
fn patterns_among(
    alloc: Global,
    profiles: &Profiles,
    class: Class,
) -> Result<Vec<Pattern>, AllocError>
    ensures all { IfOk result (λ list. list.items ≡ map pattern_of (of_class class profiles.now)) }
    ensures profiles { AreProfiles profiles.now }
    ensures in_order { AreMostSpecificFirst profiles.now }
{
    profiles
        .iter()
        .filter(|profile| profile.is_of(class))
        .map(|profile| profile.pattern)
        .collect(alloc)
}

/// The patterns of the profiles of OPERCMDS, in order, if the class is active.
pub fn patterns_of(alloc: Global, policy: &Policy) -> Result<Vec<Pattern>, AllocError>
    ensures { IfOk result (λ list. ArePatternsOf policy.now list.items) }
{
    let patterns = patterns_among(alloc, &policy.profiles, Class::Opercmds)?;
    if policy.active.contains(Class::Opercmds) {
        Ok(patterns)
    } else {
        Ok(Vec::new(alloc))
    }
}

/// The shortest resource of a form that all patterns of one list cover and none of another.
fn between(
    alloc: Global,
    form: &ResourceForm,
    include: &[Pattern],
    exclude: &[Pattern],
) -> Result<Option<Resource>, AllocError>
    requires { IsForm form.now.qualifiers.now }
    ensures { IfOk result (IsShortest (IsBetween include.now exclude.now (asked form.now))) }
{
    witness(alloc, form.qualifiers, include, exclude)
}

/// The same for each of some forms.
fn push_between(
    alloc: Global,
    list: &mut Vec<Option<Resource>>,
    forms: &[ResourceForm],
    include: &[Pattern],
    exclude: &[Pattern],
) -> Result<(), AllocError>
    requires { AreForms forms.now }
    ensures { OnOk result (AddsShortest (IsBetween include.now exclude.now) (map asked forms.now) list.old.items
        list.new.items) }
{
    let [form, rest @ ..] = forms else {
        return Ok(());
    };
    let found = between(alloc, form, include, exclude)?;
    list.push(found)?;
    push_between(alloc, list, rest, include, exclude)
}

/// For each form, the shortest resource that all patterns of one list cover and none of another.
pub(crate) fn between_all(
    alloc: Global,
    include: &[Pattern],
    exclude: &[Pattern],
) -> Result<Vec<Option<Resource>>, AllocError>
    ensures { IfOk result (λ list. AreShortest (IsBetween include.now exclude.now) forms list.items) }
{
    let mut list = Vec::new(alloc);
    push_between(alloc, &mut list, &FORMS, include, exclude)?;
    Ok(list)
}

/// For each form, the shortest resource that a pattern covers and none of those before it.
fn decided_by(
    alloc: Global,
    pattern: &Pattern,
    before: &[Pattern],
) -> Result<Vec<Option<Resource>>, AllocError>
    requires pattern { IsPattern pattern.now }
    requires before { All IsPattern before.now }
    requires order { ComeBefore before.now pattern.now }
    ensures { IfOk result (λ list. AreShortest (IsBetween (pattern.now ∷ []) before.now) forms list.items) }
{
    let own = [*pattern];
    let exclude = near_these(alloc, &own, near(pattern, before))?;
    between_all(alloc, &own, exclude.as_slice())
}

/// For each form, the shortest resource that is decided by the profile of the pattern at this place of all; at their
/// end, by no profile.
pub fn decided_at(
    alloc: Global,
    policy: &Policy,
    patterns: &[Pattern],
    at: usize,
) -> Result<Vec<Option<Resource>>, AllocError>
    requires all { ArePatternsOf policy.now patterns.now }
    requires within { at ≤ length patterns.now }
    ensures { IfOk result (λ list. AreShortest (IsDecided policy.now (slice_get patterns.now at)) forms list.items) }
{
    let (before, rest) = patterns.split_at(at);
    let [pattern, ..] = rest else {
        return between_all(alloc, &[], before);
    };
    decided_by(alloc, pattern, before)
}
