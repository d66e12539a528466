//! Of the patterns of one side, those that may decide a resource with one of the other side, from place to place.
ghost use Rattle.std.specs.Prelude.{
  ◌≡◌,
  ◌≤◌,
  ◌<◌,
  ◌++◌,
  ◌∷◌,
  [],
  ℕ,
  All,
  IfOk,
  List,
  OnOk,
  Some,
  false,
  length,
  map,
  slice_index_or,
  true,
};
ghost use Rattle.std.specs.Cmp.Lexicographic.{slice_cmp};
ghost use Rattle.std.specs.List.{AllPairs, slice_get};
ghost use Rattle.std.specs.Ordering.{is_lt, nat_cmp};
ghost use Rattle.opc_names.specs.Names.{IsPattern};
ghost use Rattle.opc_names.specs.Order.{sort_key};
ghost use Rattle.opc_policy_deciders.specs.Decided.{ArePatternsOf};
ghost use Rattle.opc_policy_deciders.specs.Near.{IsEarlier};
ghost use Rattle.opc_policy_members.specs.declared.policy.Policy.{Policy as ThePolicy};
ghost use Rattle.opc_policy_deciders.specs.Pairs.{is_among};
ghost use Rattle.opc_policy_deciders.specs.Places.{
  ArePassed,
  DiffersBetween,
  NoneDecidedBetween,
  NoneDecidedWith,
  places_alone,
};

use crate::candidates::{pattern_at, stands_at};
use crate::near::is_below;
use opc_names::name::Pattern;
use opc_names_keys::past::key_past;
use std::alloc::{AllocError, Global};

/// Adds the place of a pattern that is on one side alone.
fn push_alone(list: &mut Vec<usize>, place: usize, stands: bool) -> Result<(), AllocError>
    ensures { OnOk result (list.new.items ≡ list.old.items ++ places_alone place (stands ∷ [])) }
{
    if !stands {
        list.push(place)?;
    }
    Ok(())
}

/// The places of the patterns that are on one side alone.
pub fn places_alone(alloc: Global, stand: &[bool]) -> Result<Vec<usize>, AllocError>
    ensures { IfOk result (λ list. list.items ≡ places_alone 0 stand.now) }
{
    let mut list = Vec::new(alloc);
    for (place, stands) in stand.iter().enumerate() {
        push_alone(&mut list, place, *stands)?;
    }
    Ok(list)
}

/// The first place from one on of a pattern that is on one side alone; the end, if there is none.
fn next_alone(stand: &[bool], alone: &[usize], from: usize) -> usize
    requires alone { alone.now ≡ places_alone 0 stand.now }
    requires from { from ≤ length stand.now }
    ensures within { (from ≤ result) × (result ≤ length stand.now) }
    ensures stand { (place : ℕ) → from ≤ place → place < result → slice_get stand.now place ≡ Some true }
{
    let at = alone.partition_point(|place| *place < from);
    match alone.get(at) {
        Some(place) => *place,
        None => stand.len(),
    }
}

/// The first place from one on whose sort key is not below another.
fn place_from(patterns: &[Pattern], from: usize, key: &[u8]) -> usize
    requires from { from ≤ length patterns.now }
    requires in_order { AllPairs IsEarlier patterns.now }
    ensures within { (from ≤ result) × (result ≤ length patterns.now) }
    ensures below { (k : ℕ) (d : List ℕ) → from ≤ k → k < result
        → is_lt (slice_cmp nat_cmp (sort_key (slice_index_or patterns.now k d)) key.now) ≡ true }
    ensures others { (k : ℕ) (d : List ℕ) → result ≤ k → k < length patterns.now
        → is_lt (slice_cmp nat_cmp (sort_key (slice_index_or patterns.now k d)) key.now) ≡ false }
{
    let rest = &patterns[from..];
    from + rest.partition_point(|pattern| is_below(pattern, key))
}

/// This place, if a text does not differ from the sort key of its pattern; else the first behind it whose key the text
/// may not differ from.
pub(crate) fn place_past(text: &[u8], patterns: &[Pattern], place: usize) -> usize
    requires place { place < length patterns.now }
    requires in_order { AllPairs IsEarlier patterns.now }
    ensures within { (place ≤ result) × (result ≤ length patterns.now) }
    ensures past { DiffersBetween text.now patterns.now place result }
{
    match key_past(&patterns[place].sort_key(), text) {
        Some(key) => place_from(patterns, place + 1, key.as_slice()),
        None => place,
    }
}

/// The same, but if the pattern at this place is on both sides and those are skipped, the next one that is not.
fn place_next(
    text: &[u8],
    patterns: &[Pattern],
    stand: &[bool],
    alone: &[usize],
    skips: bool,
    place: usize,
) -> usize
    requires place { place < length patterns.now }
    requires in_order { AllPairs IsEarlier patterns.now }
    requires stand { length stand.now ≡ length patterns.now }
    requires alone { alone.now ≡ places_alone 0 stand.now }
    ensures within { (place ≤ result) × (result ≤ length patterns.now) }
    ensures passed { ArePassed skips text.now patterns.now stand.now place result }
{
    if skips && stand[place] {
        next_alone(stand, alone, place + 1)
    } else {
        place_past(text, patterns, place)
    }
}

/// The first place from one on that is not passed; the end, if there is none.
fn place_near(
    text: &[u8],
    patterns: &[Pattern],
    stand: &[bool],
    alone: &[usize],
    skips: bool,
    from: usize,
) -> usize
    requires from { from ≤ length patterns.now }
    requires in_order { AllPairs IsEarlier patterns.now }
    requires stand { length stand.now ≡ length patterns.now }
    requires alone { alone.now ≡ places_alone 0 stand.now }
    ensures within { (from ≤ result) × (result ≤ length patterns.now) }
    ensures passed { ArePassed skips text.now patterns.now stand.now from result }
{
    let mut place = from;
    while place < patterns.len() {
        let next = place_next(text, patterns, stand, alone, skips, place);
        if next == place {
            return place;
        }
        place = next;
    }
    place
}

/// The first place from one on that may decide a resource with a pattern of the other side: its own place, or one of a
/// pattern whose sort key its head does not differ from. If the pattern is on both sides, others that are as well are
/// skipped.
fn candidate_of(
    pattern: &Pattern,
    stands: bool,
    others: &[Pattern],
    others_stand: &[bool],
    alone: &[usize],
    from: usize,
) -> usize
    requires pattern { IsPattern pattern.now }
    requires others { All IsPattern others.now }
    requires in_order { AllPairs IsEarlier others.now }
    requires stand { length others_stand.now ≡ length others.now }
    requires alone { alone.now ≡ places_alone 0 others_stand.now }
    requires from { from ≤ length others.now }
    ensures within { (from ≤ result) × (result ≤ length others.now) }
    ensures none { (one two : ThePolicy) (patterns : List (List ℕ)) → ArePatternsOf one patterns
        → ArePatternsOf two others.now → stands ≡ is_among others.now pattern.now
        → others_stand.now ≡ map (is_among patterns) others.now
        → NoneDecidedWith one two (Some pattern.now) others.now from result }
{
    let key = pattern.sort_key();
    let own = place_from(others, 0, key.as_slice());
    let head = pattern.head().as_bytes();
    let near = place_near(head, others, others_stand, alone, stands, from);
    if from <= own && own < near { own } else { near }
}

/// The first place from one on that may decide a resource with the place of the other side; the end, if there is none.
/// At the end of all patterns no profile decides.
pub fn next_candidate(
    patterns: &[Pattern],
    others: &[Pattern],
    stand: &[bool],
    others_stand: &[bool],
    alone: &[usize],
    at: usize,
    from: usize,
) -> usize
    requires patterns { All IsPattern patterns.now }
    requires others { All IsPattern others.now }
    requires in_order { AllPairs IsEarlier others.now }
    requires stand { stand.now ≡ map (is_among others.now) patterns.now }
    requires others_stand { others_stand.now ≡ map (is_among patterns.now) others.now }
    requires alone { alone.now ≡ places_alone 0 others_stand.now }
    requires from { from ≤ length others.now }
    ensures within { (from ≤ result) × (result ≤ length others.now) }
    ensures none { NoneDecidedBetween patterns.now others.now at from result }
{
    match pattern_at(patterns, at) {
        Some(pattern) => {
            let stands = stands_at(stand, at);
            candidate_of(&pattern, stands, others, others_stand, alone, from)
        }
        None => next_alone(others_stand, alone, from),
    }
}
