//! Which resources are decided by one profile of a policy and by one of another, form by form.
ghost use Rattle.std.specs.Prelude.{◌≡◌, ◌⊎◌, ◌≤◌, ◌<◌, ◌++◌, ℕ, All, IfOk, List, OnOk, is_none, length, take};
ghost use Rattle.std.specs.List.{AllPairs, list_all, slice_get};
ghost use Rattle.opc_names.specs.Names.{IsPattern};
ghost use Rattle.opc_policy_deciders.specs.Between.{IsBetween};
ghost use Rattle.opc_policy_deciders.specs.Decided.{ArePatternsOf, AreShortest};
ghost use Rattle.opc_policy_deciders.specs.Forms.{forms};
ghost use Rattle.opc_policy_deciders.specs.Near.{IsEarlier};
ghost use Rattle.opc_policy_deciders.specs.Pairs.{
  AreNearAll,
  AreNearText,
  BeginAll,
  CoverAlike,
  IsDecidedByBoth,
};

use crate::decided::between_all;
use crate::places::place_past;
use opc_names::name::{Pattern, Resource};
use opc_policy_members::policy::Policy;
use opc_policy_witness::ends::near_these;
use std::alloc::{AllocError, Global};

/// The first of some patterns, if there is one.
fn first_of(patterns: &[Pattern]) -> &[Pattern]
    ensures { result.now ≡ take 1 patterns.now }
{
    if patterns.is_empty() {
        return patterns;
    }
    &patterns[..1]
}

/// Adds patterns to others.
fn add_all(list: &mut Vec<Pattern>, patterns: &[Pattern]) -> Result<(), AllocError>
    ensures { OnOk result (list.new.items ≡ list.old.items ++ patterns.now) }
{
    for pattern in patterns {
        list.push(*pattern)?;
    }
    Ok(())
}

/// The patterns of two lists.
fn joined(alloc: Global, one: &[Pattern], other: &[Pattern]) -> Result<Vec<Pattern>, AllocError>
    ensures { IfOk result (λ list. list.items ≡ one.now ++ other.now) }
{
    let mut list = Vec::new(alloc);
    add_all(&mut list, one)?;
    add_all(&mut list, other)?;
    Ok(list)
}

/// The same, but once what both have.
fn joined_once(
    alloc: Global,
    one: &[Pattern],
    other: &[Pattern],
) -> Result<Vec<Pattern>, AllocError>
    requires one { All IsPattern one.now }
    requires other { All IsPattern other.now }
    ensures alike { IfOk result (λ list. CoverAlike list.items (one.now ++ other.now)) }
    ensures valid { IfOk result (λ list. All IsPattern list.items) }
{
    if one == other {
        return joined(alloc, one, &[]);
    }
    joined(alloc, one, other)
}

/// The longer of two texts.
fn longer<'a>(one: &'a [u8], other: &'a [u8]) -> &'a [u8]
    ensures { (result.now ≡ one.now) ⊎ (result.now ≡ other.now) }
{
    if one.len() < other.len() { other } else { one }
}

/// What all begins with that some patterns all cover: the longest of their heads.
fn beginning<'a>(include: &'a [Pattern]) -> &'a [u8]
    requires { All IsPattern include.now }
    ensures { BeginAll include.now result.now }
{
    let [pattern, rest @ ..] = include else {
        return &[];
    };
    longer(pattern.head().as_bytes(), beginning(rest))
}

/// Adds the pattern at a place, if it may cover what begins with a text, and returns the place that follows; else the
/// first place from there on of a pattern that may.
fn add_next(
    list: &mut Vec<Pattern>,
    text: &[u8],
    patterns: &[Pattern],
    place: usize,
) -> Result<usize, AllocError>
    requires place { place < length patterns.now }
    requires patterns { All IsPattern patterns.now }
    requires in_order { AllPairs IsEarlier patterns.now }
    ensures within { IfOk result (λ next. (place < next) × (next ≤ length patterns.now)) }
    ensures near { IfOk result (λ next. (more : List (List ℕ))
        → AreNearText text.now list.old.items (more ++ take place patterns.now)
        → AreNearText text.now list.new.items (more ++ take next patterns.now)) }
{
    let next = place_past(text, patterns, place);
    if next > place {
        return Ok(next);
    }
    list.push(patterns[place])?;
    Ok(place + 1)
}

/// Adds those of some patterns in order that may cover what begins with a text.
fn add_near(list: &mut Vec<Pattern>, text: &[u8], patterns: &[Pattern]) -> Result<(), AllocError>
    requires patterns { All IsPattern patterns.now }
    requires in_order { AllPairs IsEarlier patterns.now }
    ensures { OnOk result (AreNearText text.now list.new.items (list.old.items ++ patterns.now)) }
{
    let mut place = 0;
    while place < patterns.len() {
        place = add_next(list, text, patterns, place)?;
    }
    Ok(())
}

/// Of the patterns of two lists in order, those that may cover what some patterns all cover.
fn near_all(
    alloc: Global,
    include: &[Pattern],
    one: &[Pattern],
    other: &[Pattern],
) -> Result<Vec<Pattern>, AllocError>
    requires include { All IsPattern include.now }
    requires one { All IsPattern one.now }
    requires other { All IsPattern other.now }
    requires in_order { AllPairs IsEarlier one.now }
    requires other_in_order { AllPairs IsEarlier other.now }
    ensures { IfOk result (λ list. AreNearAll include.now list.items (one.now ++ other.now)) }
{
    let text = beginning(include);
    let mut list = Vec::new(alloc);
    add_near(&mut list, text, one)?;
    add_near(&mut list, text, other)?;
    near_these(alloc, include, list.as_slice())
}

/// Whether there is no resource of any form.
fn finds_none(found: &[Option<Resource>]) -> bool
    ensures { result ≡ list_all is_none found.now }
{
    found.iter().all(|resource| resource.is_none())
}

/// For each form, the shortest resource that some patterns all cover and no pattern of two lists in order. The lists are
/// looked through only if some form has a resource that those all cover.
fn between_lists(
    alloc: Global,
    include: &[Pattern],
    one: &[Pattern],
    other: &[Pattern],
) -> Result<Vec<Option<Resource>>, AllocError>
    requires include { All IsPattern include.now }
    requires one { All IsPattern one.now }
    requires other { All IsPattern other.now }
    requires in_order { AllPairs IsEarlier one.now }
    requires other_in_order { AllPairs IsEarlier other.now }
    ensures { IfOk result (λ list. AreShortest (IsBetween include.now (one.now ++ other.now)) forms list.items) }
{
    let found = between_all(alloc, include, &[])?;
    if finds_none(found.as_slice()) {
        return Ok(found);
    }
    let exclude = near_all(alloc, include, one, other)?;
    between_all(alloc, include, exclude.as_slice())
}

/// For each form, the shortest resource that the profile of the pattern at one place decides by one policy, and the
/// profile of the pattern at another place by the other; at the end of all patterns, that no profile decides.
pub fn decided_by_both(
    alloc: Global,
    one: &Policy,
    other: &Policy,
    patterns: &[Pattern],
    others: &[Pattern],
    at: usize,
    other_at: usize,
) -> Result<Vec<Option<Resource>>, AllocError>
    requires one { ArePatternsOf one.now patterns.now }
    requires other { ArePatternsOf other.now others.now }
    requires within { at ≤ length patterns.now }
    requires other_within { other_at ≤ length others.now }
    ensures { IfOk result (λ list. AreShortest (IsDecidedByBoth one.now other.now (slice_get patterns.now at)
        (slice_get others.now other_at)) forms list.items) }
{
    let (before, rest) = patterns.split_at(at);
    let (others_before, others_rest) = others.split_at(other_at);
    let include = joined_once(alloc, first_of(rest), first_of(others_rest))?;
    between_lists(alloc, include.as_slice(), before, others_before)
}
