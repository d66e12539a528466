//! What patterns ask of each place of a name.
ghost use Rattle.std.specs.Prelude.{◌≡◌, ◌||◌, [], IfOk, is_none, map};
ghost use Rattle.std.specs.List.{list_all, list_any};
ghost use Rattle.std.specs.Option.{option_map};
ghost use Rattle.opc_policy_witness.specs.Masks.{
  after,
  asks_for,
  fits,
  fits_one,
  left_after,
  takes_all,
  takes_behind,
};

use std::alloc::{AllocError, Global};

/// For each place of a name the character that has to stand there, or none if any may.
pub(crate) type Mask<'a> = &'a [Option<u8>];

/// What is left of a mask after a character, if that fits its first place.
fn left_after(mask: Mask<'_>, character: u8) -> Option<Mask<'_>>
    ensures { option_map (λ left. left.now) result ≡ left_after character mask.now }
{
    match mask {
        [] => None,
        [None, rest @ ..] => Some(rest),
        [Some(asked), rest @ ..] if *asked == character => Some(rest),
        // It asks for another character.
        _ => None,
    }
}

/// What is left of these masks after a character: of each that it fits, the places behind.
pub(crate) fn after<'a>(
    alloc: Global,
    masks: &[Mask<'a>],
    character: u8,
) -> Result<Vec<Mask<'a>>, AllocError>
    ensures { IfOk result (λ left. map (λ mask. mask.now) left.items
        ≡ after character (map (λ mask. mask.now) masks.now)) }
{
    let mut left = Vec::new(alloc);
    for mask in masks {
        if let Some(rest) = left_after(mask, character) {
            left.push(rest)?;
        }
    }
    Ok(left)
}

fn asks_for(mask: Mask<'_>, character: u8) -> bool
    ensures { result ≡ asks_for character mask.now }
{
    match mask {
        [Some(asked), ..] => *asked == character,
        // It has no place, or any character may stand there.
        _ => false,
    }
}

/// Whether one of these masks asks for this character first.
pub(crate) fn ask_for(masks: &[Mask<'_>], character: u8) -> bool
    ensures { result ≡ list_any (asks_for character) (map (λ mask. mask.now) masks.now) }
{
    match masks {
        [] => false,
        [mask, rest @ ..] => asks_for(mask, character) || ask_for(rest, character),
    }
}

/// Whether a mask has no place left.
pub(crate) fn is_over(mask: Mask<'_>) -> bool
    ensures { result ≡ fits mask.now [] }
{
    match mask {
        [] => true,
        [_, ..] => false,
    }
}

/// Whether one of these masks has no place left.
pub(crate) fn one_is_over(masks: &[Mask<'_>]) -> bool
    ensures { result ≡ fits_one (map (λ mask. mask.now) masks.now) [] }
{
    match masks {
        [] => false,
        [mask, rest @ ..] => is_over(mask) || one_is_over(rest),
    }
}

fn asks_nothing(mask: Mask<'_>) -> bool
    ensures { result ≡ list_all is_none mask.now }
{
    match mask {
        [] => true,
        [None, rest @ ..] => asks_nothing(rest),
        [Some(_), ..] => false,
    }
}

/// Whether a mask fits each name of so many characters.
pub(crate) fn takes_all(mask: Mask<'_>, count: usize) -> bool
    ensures { result ≡ takes_all count mask.now }
{
    mask.len() == count && asks_nothing(mask)
}

/// Whether one of these masks fits each name of so many characters.
pub(crate) fn one_takes_all(masks: &[Mask<'_>], count: usize) -> bool
    ensures { result ≡ list_any (takes_all count) (map (λ mask. mask.now) masks.now) }
{
    match masks {
        [] => false,
        [mask, rest @ ..] => takes_all(mask, count) || one_takes_all(rest, count),
    }
}

/// Whether a mask fits each name that begins with a character and goes on with so many.
fn takes_behind(mask: Mask<'_>, character: u8, count: usize) -> bool
    ensures { result ≡ takes_behind character count mask.now }
{
    match left_after(mask, character) {
        Some(left) => takes_all(left, count),
        None => false,
    }
}

/// Whether one of these masks does.
pub(crate) fn one_takes_behind(masks: &[Mask<'_>], character: u8, count: usize) -> bool
    ensures { result ≡ list_any (takes_behind character count) (map (λ mask. mask.now) masks.now) }
{
    match masks {
        [] => false,
        [mask, rest @ ..] => {
            takes_behind(mask, character, count) || one_takes_behind(rest, character, count)
        }
    }
}
