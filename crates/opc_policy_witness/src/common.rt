//! The masks of several patterns.
ghost use Rattle.std.specs.Prelude.{
  ◌≡◌,
  ◌&&◌,
  ◌||◌,
  ◌++◌,
  ◌≤◌,
  ℕ,
  List,
  IfOk,
  None,
  OnOk,
  Option,
  Some,
  false,
  length,
  map,
  true,
};
ghost use Rattle.std.specs.List.{list_all, list_any};
ghost use Rattle.std.specs.Option.{option_map};
ghost use Rattle.opc_policy_witness.specs.Masks.{common_cell, fits, fits_one, merged};
ghost use Rattle.opc_policy_witness.specs.Pieces.{filled, size};
ghost use Rattle.opc_policy_witness.specs.Witness.{covers_parts};

use crate::expand::{add_masks, with_open};
use crate::masks::{Mask, takes_all};
use crate::pieces::{FormPiece, size_of};
use opc_names::name::Pattern;
use std::alloc::{AllocError, Global};

/// What two masks ask for at a place, if that is no two characters.
fn common_cell(cell: Option<u8>, other: Option<u8>) -> Option<Option<u8>>
    ensures { result ≡ common_cell cell other }
{
    match (cell, other) {
        (None, cell) | (cell, None) => Some(cell),
        (Some(asked), Some(other)) if asked == other => Some(Some(asked)),
        // No character is both.
        _ => None,
    }
}

/// Adds to a mask what two others ask for together. Returns whether a name can fit both.
fn push_common(
    common: &mut Vec<Option<u8>>,
    mask: Mask<'_>,
    other: Mask<'_>,
) -> Result<bool, AllocError>
    ensures some { result ≡ Ok true → option_map (λ rest. common.old.items ++ rest) (merged mask.now other.now)
        ≡ Some common.new.items }
    ensures none { result ≡ Ok false → merged mask.now other.now ≡ None }
{
    let [cell, mask_left @ ..] = mask else {
        return Ok(other.is_empty());
    };
    let [other_cell, other_left @ ..] = other else {
        return Ok(false);
    };
    let Some(both) = common_cell(*cell, *other_cell) else {
        return Ok(false);
    };
    common.push(both)?;
    push_common(common, mask_left, other_left)
}

/// Adds the masks of the names that fit one mask and one of others.
fn add_common(
    alloc: Global,
    mask: Mask<'_>,
    others: &[Vec<Option<u8>>],
    all: &mut Vec<Vec<Option<u8>>>,
) -> Result<(), AllocError>
    ensures { OnOk result ((s : List ℕ) → fits_one (map (λ m. m.items) all.new.items) s
        ≡ (fits_one (map (λ m. m.items) all.old.items) s
        || fits mask.now s && fits_one (map (λ m. m.items) others.now) s)) }
{
    for other in others {
        let mut common = Vec::new(alloc);
        if push_common(&mut common, mask, other.as_slice())? {
            all.push(common)?;
        }
    }
    Ok(())
}

/// The masks of the names that fit one of some masks and one of others.
fn products(
    alloc: Global,
    masks: &[Vec<Option<u8>>],
    others: &[Vec<Option<u8>>],
) -> Result<Vec<Vec<Option<u8>>>, AllocError>
    ensures { IfOk result (λ all. (s : List ℕ) → fits_one (map (λ m. m.items) all.items) s
        ≡ (fits_one (map (λ m. m.items) masks.now) s && fits_one (map (λ m. m.items) others.now) s)) }
{
    let mut all = Vec::new(alloc);
    for mask in masks {
        add_common(alloc, mask.as_slice(), others, &mut all)?;
    }
    Ok(all)
}

/// Whether the last of some masks fits each name of so many characters.
fn last_takes_all(masks: &[Vec<Option<u8>>], count: usize) -> bool
    ensures { result ≡ true → (s : List ℕ) → length s ≡ count → fits_one (map (λ m. m.items) masks.now) s ≡ true }
{
    match masks {
        [.., mask] => takes_all(mask.as_slice(), count),
        [] => false,
    }
}

/// The masks of one pattern or another: the names that fit one are those of the resources that one covers.
pub(crate) fn masks_of_any(
    alloc: Global,
    patterns: &[Pattern],
    pieces: &[FormPiece],
) -> Result<Vec<Vec<Option<u8>>>, AllocError>
    requires { size pieces.now ≤ 40 }
    ensures { IfOk result (λ masks. (s : List ℕ) → length s ≡ size pieces.now
        → fits_one (map (λ m. m.items) masks.items) s ≡ list_any (covers_parts (filled pieces.now s)) patterns.now) }
{
    let length = size_of(pieces);
    let mut masks = Vec::new(alloc);
    for pattern in patterns {
        add_masks(
            alloc,
            &[],
            Some(pattern.text().as_bytes()),
            pieces,
            &mut masks,
        )?;
        // Each name fits this mask, whatever the other patterns cover.
        if last_takes_all(masks.as_slice(), length) {
            return Ok(masks);
        }
    }
    Ok(masks)
}

/// The masks of one pattern.
fn masks_of_one(
    alloc: Global,
    pattern: &Pattern,
    pieces: &[FormPiece],
) -> Result<Vec<Vec<Option<u8>>>, AllocError>
    requires { size pieces.now ≤ 40 }
    ensures { IfOk result (λ masks. (s : List ℕ) → length s ≡ size pieces.now
        → fits_one (map (λ m. m.items) masks.items) s ≡ covers_parts (filled pieces.now s) pattern.now) }
{
    let mut masks = Vec::new(alloc);
    add_masks(
        alloc,
        &[],
        Some(pattern.text().as_bytes()),
        pieces,
        &mut masks,
    )?;
    Ok(masks)
}

/// A mask that any names fit.
fn any_names(alloc: Global, pieces: &[FormPiece]) -> Result<Vec<Vec<Option<u8>>>, AllocError>
    requires { size pieces.now ≤ 40 }
    ensures { IfOk result (λ masks. (s : List ℕ) → length s ≡ size pieces.now
        → fits_one (map (λ m. m.items) masks.items) s ≡ true) }
{
    let mut masks = Vec::new(alloc);
    masks.push(with_open(alloc, &[], size_of(pieces))?)?;
    Ok(masks)
}

/// The masks of all patterns together: the names that fit one are those of the resources that all cover.
pub(crate) fn masks_of_all(
    alloc: Global,
    patterns: &[Pattern],
    pieces: &[FormPiece],
) -> Result<Vec<Vec<Option<u8>>>, AllocError>
    requires { size pieces.now ≤ 40 }
    ensures { IfOk result (λ masks. (s : List ℕ) → length s ≡ size pieces.now
        → fits_one (map (λ m. m.items) masks.items) s ≡ list_all (covers_parts (filled pieces.now s)) patterns.now) }
{
    let mut masks = any_names(alloc, pieces)?;
    for pattern in patterns {
        let others = masks_of_one(alloc, pattern, pieces)?;
        masks = products(alloc, masks.as_slice(), others.as_slice())?;
    }
    Ok(masks)
}
