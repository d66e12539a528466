//! Patterns that cannot cover a resource, or no resource that others cover, by the last characters of all.
ghost use Rattle.std.specs.Prelude.{◌≡◌, IfOk, false};
ghost use Rattle.opc_policy_witness.specs.Ends.{
  AreNearThese,
  CannotCover,
  CannotMeet,
  NoneCoveredByAll,
  NoneInCommon,
  NoneInCommonWith,
  is_fixed,
};

use opc_names::name::Pattern;
use std::alloc::{AllocError, Global};

/// Whether a character of a pattern stands for itself, within a qualifier.
fn is_fixed(character: u8) -> bool
    ensures { result ≡ is_fixed character }
{
    !matches!(character, b'*' | b'%' | b'.')
}

/// Whether a pattern may cover a resource, by the characters after the last of the pattern that is not fixed.
pub(crate) fn may_end(pattern: &[u8], resource: &[u8]) -> bool
    ensures { result ≡ false → CannotCover pattern.now resource.now }
{
    let Some((token, tokens)) = pattern.split_last() else {
        return true;
    };
    if !is_fixed(*token) {
        return true;
    }
    let Some((character, characters)) = resource.split_last() else {
        return true;
    };
    if *token == *character {
        return may_end(tokens, characters);
    }
    false
}

/// Whether two patterns may cover one resource, by the characters after the last of each that is not fixed.
fn may_end_alike(pattern: &[u8], other: &[u8]) -> bool
    ensures { result ≡ false → CannotMeet pattern.now other.now }
{
    let Some((token, tokens)) = pattern.split_last() else {
        return true;
    };
    let Some((other_token, other_tokens)) = other.split_last() else {
        return true;
    };
    if !is_fixed(*token) {
        return true;
    }
    if !is_fixed(*other_token) {
        return true;
    }
    if *token == *other_token {
        return may_end_alike(tokens, other_tokens);
    }
    false
}

/// Whether two patterns may cover one resource, by their last characters.
pub fn may_share_end(pattern: &Pattern, other: &Pattern) -> bool
    ensures { result ≡ false → NoneInCommon pattern.now other.now }
{
    may_end_alike(pattern.text().as_bytes(), other.text().as_bytes())
}

/// Whether a pattern may cover a resource that others all cover, by the last characters.
fn may_share_ends(pattern: &Pattern, others: &[Pattern]) -> bool
    ensures { result ≡ false → NoneInCommonWith pattern.now others.now }
{
    let [other, rest @ ..] = others else {
        return true;
    };
    if !may_share_end(pattern, other) {
        return false;
    }
    may_share_ends(pattern, rest)
}

/// Whether these patterns may all cover one resource, by their last characters.
pub(crate) fn all_may_share_end(patterns: &[Pattern]) -> bool
    ensures { result ≡ false → NoneCoveredByAll patterns.now }
{
    let [pattern, rest @ ..] = patterns else {
        return true;
    };
    if !may_share_ends(pattern, rest) {
        return false;
    }
    all_may_share_end(rest)
}

/// Those of some patterns that may cover what others all cover, by their last characters.
pub fn near_these(
    alloc: Global,
    include: &[Pattern],
    patterns: &[Pattern],
) -> Result<Vec<Pattern>, AllocError>
    ensures { IfOk result (λ near. AreNearThese include.now near.items patterns.now) }
{
    let mut near = Vec::new(alloc);
    for pattern in patterns {
        if may_share_ends(pattern, include) {
            near.push(*pattern)?;
        }
    }
    Ok(near)
}
