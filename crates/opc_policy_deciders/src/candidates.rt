//! Of two places, whether one resource may be decided at both: most pairs are refused at once.
ghost use Rattle.std.specs.Prelude.{◌≡◌, ℕ, All, IfOk, List, Some, false, map, true, unwrap_or};
ghost use Rattle.std.specs.BTreeSet.{contains};
ghost use Rattle.std.specs.Cmp.Lexicographic.{slice_cmp};
ghost use Rattle.std.specs.List.{slice_get};
ghost use Rattle.std.specs.Ordering.{nat_cmp};
ghost use Rattle.opc_names.specs.Names.{IsPattern};
ghost use Rattle.opc_policy_deciders.specs.Decided.{ArePatternsOf};
ghost use Rattle.opc_policy_members.specs.declared.policy.Policy.{Policy as ThePolicy};
ghost use Rattle.opc_policy_deciders.specs.Pairs.{NoneDecidedByBoth, is_among};

use crate::near::may_meet;
use opc_names::name::Pattern;
use std::alloc::{AllocError, Global};
use std::collections::BTreeSet;

/// Some patterns, to be looked up.
fn set_of(alloc: Global, patterns: &[Pattern]) -> Result<BTreeSet<Pattern>, AllocError>
    ensures { IfOk result (λ set. (p : List ℕ) → contains (slice_cmp nat_cmp) set p ≡ is_among patterns.now p) }
{
    let mut set = BTreeSet::new(alloc);
    for pattern in patterns {
        set.insert(*pattern)?;
    }
    Ok(set)
}

/// For each of some patterns, whether it is among others.
pub fn all_among(
    alloc: Global,
    patterns: &[Pattern],
    others: &[Pattern],
) -> Result<Vec<bool>, AllocError>
    ensures { IfOk result (λ list. list.items ≡ map (is_among others.now) patterns.now) }
{
    let set = set_of(alloc, others)?;
    let mut list = Vec::new(alloc);
    for pattern in patterns {
        list.push(set.contains(pattern))?;
    }
    Ok(list)
}

/// Whether the profiles of two patterns may decide one resource, each by its policy. If both patterns are on both sides,
/// one comes before the other on both.
fn may_both(pattern: &Pattern, other: &Pattern, stands: bool, other_stands: bool) -> bool
    requires pattern { IsPattern pattern.now }
    requires other { IsPattern other.now }
    ensures { (one two : ThePolicy) (patterns others : List (List ℕ)) → ArePatternsOf one patterns
        → ArePatternsOf two others → stands ≡ is_among others pattern.now → other_stands ≡ is_among patterns other.now
        → result ≡ false → NoneDecidedByBoth one two (Some pattern.now) (Some other.now) }
{
    if pattern == other {
        return true;
    }
    if stands && other_stands {
        return false;
    }
    may_meet(pattern, other)
}

/// Whether the pattern at a place is on the other side, too; the end is on both.
pub(crate) fn stands_at(stand: &[bool], at: usize) -> bool
    ensures { result ≡ unwrap_or (slice_get stand.now at) true }
{
    match stand.get(at) {
        Some(stands) => *stands,
        None => true,
    }
}

/// The pattern at a place.
pub(crate) fn pattern_at(patterns: &[Pattern], at: usize) -> Option<Pattern>
    ensures { result ≡ slice_get patterns.now at }
{
    match patterns.get(at) {
        Some(pattern) => Some(*pattern),
        None => None,
    }
}

/// Whether the profiles at two places may decide one resource, each by its policy; at the end of all patterns, none
/// does. A profile that is on both sides pairs with itself, and with others only if one of them is on one side alone.
pub fn may_decide_both(
    patterns: &[Pattern],
    others: &[Pattern],
    stand: &[bool],
    others_stand: &[bool],
    at: usize,
    other_at: usize,
) -> bool
    requires patterns { All IsPattern patterns.now }
    requires others { All IsPattern others.now }
    requires stand { stand.now ≡ map (is_among others.now) patterns.now }
    requires others_stand { others_stand.now ≡ map (is_among patterns.now) others.now }
    ensures { (one two : ThePolicy) → ArePatternsOf one patterns.now → ArePatternsOf two others.now → result ≡ false
        → NoneDecidedByBoth one two (slice_get patterns.now at) (slice_get others.now other_at) }
{
    match (pattern_at(patterns, at), pattern_at(others, other_at)) {
        (Some(pattern), Some(other)) => {
            may_both(
                &pattern,
                &other,
                stands_at(stand, at),
                stands_at(others_stand, other_at),
            )
        }
        (Some(_), None) => !stands_at(stand, at),
        (None, Some(_)) => !stands_at(others_stand, other_at),
        (None, None) => true,
    }
}
