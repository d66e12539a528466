//! The masks of a pattern over a resource whose names have a fixed number of characters.
ghost use Rattle.std.specs.Prelude.{◌≡◌, ◌&&◌, ◌++◌, ◌≤◌, IfOk, None, OnOk, map, replicate};
ghost use Rattle.std.specs.List.{AllByRecursion};
ghost use Rattle.std.specs.Option.{option_copied, option_map};
ghost use Rattle.opc_names.specs.Patterns.{ends_in_star, is_empty, tokens};
ghost use Rattle.opc_names.specs.Walk.{IsQualifier, StarOnlyLast, qualifiers_left};
ghost use Rattle.opc_policy_witness.specs.Pieces.{begins_with_stars, cell_of, mask_of, masks_of, size, spread};

use crate::masks::Mask;
use crate::pieces::{FormPiece, size_of};
use crate::qualifier::{ends_in_star, is_stars, matches, split_qualifier};
use std::alloc::{AllocError, Global};

const PERCENT: u8 = b'%';

const STAR: u8 = b'*';

/// A mask, and after it so many places for any character.
pub(crate) fn with_open(
    alloc: Global,
    head: Mask<'_>,
    count: usize,
) -> Result<Vec<Option<u8>>, AllocError>
    ensures { IfOk result (λ mask. mask.items ≡ head.now ++ replicate count None) }
{
    let mut mask = head.to_vec(alloc)?;
    for _ in 0..count {
        mask.push(None)?;
    }
    Ok(mask)
}

/// What a token of one character asks of a place.
fn cell_of(token: u8) -> Option<u8>
    ensures { result ≡ cell_of token }
{
    if token == PERCENT { None } else { Some(token) }
}

/// A mask, and after it what a qualifier other than `**` asks of a name of so many characters, if it matches one.
fn with_name(
    alloc: Global,
    mut mask: Vec<Option<u8>>,
    qualifier: &[u8],
    length: usize,
) -> Result<Option<Vec<Option<u8>>>, AllocError>
    requires { StarOnlyLast qualifier.now }
    ensures { IfOk result (λ found. option_map (λ mask. mask.items) found
        ≡ option_map (λ rest. mask.items ++ rest) (spread (tokens qualifier.now) length)) }
{
    let [token, tokens @ ..] = qualifier else {
        return Ok(if length == 0 { Some(mask) } else { None });
    };
    if *token == STAR {
        return Ok(Some(with_open(alloc, mask.as_slice(), length)?));
    }
    if length == 0 {
        return Ok(None);
    }
    mask.push(cell_of(*token))?;
    with_name(alloc, mask, tokens, length - 1)
}

/// The same of a piece.
fn with_piece(
    alloc: Global,
    head: Mask<'_>,
    qualifier: &[u8],
    piece: &FormPiece,
) -> Result<Option<Vec<Option<u8>>>, AllocError>
    requires { StarOnlyLast qualifier.now }
    ensures { IfOk result (λ found. option_map (λ mask. mask.items) found
        ≡ option_map (λ mask. head.now ++ mask) (mask_of (tokens qualifier.now) piece.now)) }
{
    match *piece {
        FormPiece::Word(word) => {
            if matches(qualifier, word.as_bytes()) {
                Ok(Some(head.to_vec(alloc)?))
            } else {
                Ok(None)
            }
        }
        FormPiece::Name(_, length) => {
            let copied = head.to_vec(alloc)?;
            with_name(alloc, copied, qualifier, length)
        }
    }
}

/// Whether what follows a qualifier begins with `**`.
fn begins_with_stars(others: Option<&[u8]>) -> bool
    requires { AllByRecursion IsQualifier (qualifiers_left (option_copied others)) }
    ensures { result ≡ begins_with_stars (map tokens (qualifiers_left (option_copied others.entry))) }
{
    match others {
        Some(text) => is_stars(split_qualifier(text).0),
        None => false,
    }
}

/// Whether a qualifier other than `**` is the last of a pattern and ends in `*`: it also covers all that follow.
pub(crate) fn is_open_end(qualifier: &[u8], others: Option<&[u8]>) -> bool
    requires { StarOnlyLast qualifier.now }
    ensures { result
        ≡ (is_empty (map tokens (qualifiers_left (option_copied others.entry)))
        && ends_in_star (tokens qualifier.now)) }
{
    others.is_none() && ends_in_star(qualifier)
}

/// Adds the masks of what is left of a pattern over what is left of a resource, each behind what is asked of the
/// qualifiers before.
pub(crate) fn add_masks(
    alloc: Global,
    head: Mask<'_>,
    pattern: Option<&[u8]>,
    pieces: &[FormPiece],
    masks: &mut Vec<Vec<Option<u8>>>,
) -> Result<(), AllocError>
    requires short { size pieces.now ≤ 40 }
    requires qualifiers { AllByRecursion IsQualifier (qualifiers_left (option_copied pattern)) }
    ensures { OnOk result (map (λ mask. mask.items) masks.new.items
        ≡ map (λ mask. mask.items) masks.old.items
        ++ map (λ mask. head.now ++ mask)
        (masks_of (map tokens (qualifiers_left (option_copied pattern.entry))) pieces.now)) }
{
    let Some(text) = pattern else {
        if pieces.is_empty() {
            masks.push(head.to_vec(alloc)?)?;
        }
        return Ok(());
    };
    let (qualifier, others) = split_qualifier(text);
    if is_stars(qualifier) {
        if begins_with_stars(others) {
            return add_masks(alloc, head, others, pieces, masks);
        }
        add_masks(alloc, head, others, pieces, masks)?;
        let [piece, rest @ ..] = pieces else {
            return Ok(());
        };
        let skipped = with_open(alloc, head, piece.width())?;
        return add_masks(alloc, skipped.as_slice(), pattern, rest, masks);
    }
    let [piece, rest @ ..] = pieces else {
        return Ok(());
    };
    let Some(longer) = with_piece(alloc, head, qualifier, piece)? else {
        return Ok(());
    };
    if is_open_end(qualifier, others) {
        masks.push(with_open(alloc, longer.as_slice(), size_of(rest))?)?;
        return Ok(());
    }
    add_masks(alloc, longer.as_slice(), others, rest, masks)
}
