//! The search for a name that fits one mask and none of others.
ghost use Rattle.std.specs.Prelude.{
  ◌≡◌,
  ◌==◌,
  ◌∷◌,
  ◌&&◌,
  ◌<◌,
  ℕ,
  IfOk,
  List,
  Ok,
  Option,
  false,
  length,
  map,
  not,
  position,
  slice_index,
  true,
};
ghost use Rattle.std.specs.List.{list_any};
ghost use Rattle.opc_policy_witness.specs.Masks.{
  asks_for,
  enough,
  fits_place,
  is_among,
  is_between,
  may_stand,
  takes_behind,
};
ghost use Rattle.opc_policy_witness.specs.declared.places.NamePlace.{NamePlace as ThePlace};

use crate::masks::{Mask, after, ask_for, is_over, one_is_over, one_takes_all, one_takes_behind};
use crate::places::NamePlace;
use std::alloc::{AllocError, Global};

/// The characters of names, in the order in which a search tries them.
const CHARACTERS: &[u8] = b"XYZABCDEFGHIJKLMNOPQRSTUVW0123456789#$@";

/// Where this character stands among those.
fn asked_character(asked: u8) -> Option<usize>
    ensures { result ≡ position (λ c. c == asked) CHARACTERS.now }
{
    CHARACTERS.iter().position(|c| *c == asked)
}

/// Where a character stands among those that may stand at a place and that no mask asks for. Behind it a mask fits only
/// what it fits behind any other.
fn free_character(place: NamePlace, masks: &[Mask<'_>]) -> Option<usize>
    ensures { result
        ≡ position (λ c. may_stand place c && not (list_any (asks_for c) (map (λ mask. mask.now) masks.now)))
        CHARACTERS.now }
{
    CHARACTERS
        .iter()
        .position(|c| place.may_hold(*c) && !ask_for(masks, *c))
}

fn enough(place: NamePlace, asked: Option<u8>, exclude: &[Mask<'_>]) -> Option<usize>
    ensures { result ≡ enough CHARACTERS.now place asked (map (λ mask. mask.now) exclude.now) }
{
    match asked {
        Some(asked) => asked_character(asked),
        None => free_character(place, exclude),
    }
}

/// The characters that are enough to try at a place: if a name lies between, so does one that goes on alike behind one
/// of these.
fn candidates(place: NamePlace, asked: Option<u8>, exclude: &[Mask<'_>]) -> &'static [u8]
    ensures { (places : List ThePlace) → (include : List (Option ℕ)) → (c : ℕ) → (s : List ℕ)
        → is_between (place ∷ places) (asked ∷ include) (map (λ mask. mask.now) exclude.now) (c ∷ s) ≡ true
        → (k : ℕ) × (k < length result.now)
        × (is_between (place ∷ places) (asked ∷ include) (map (λ mask. mask.now) exclude.now)
        (slice_index result.now k ∷ s) ≡ true) }
{
    match enough(place, asked, exclude) {
        Some(at) => &CHARACTERS[at..=at],
        None => CHARACTERS,
    }
}

/// The same where this is left of the mask behind the place, but none if another mask fits whatever follows.
fn tried(
    place: NamePlace,
    asked: Option<u8>,
    include: Mask<'_>,
    exclude: &[Mask<'_>],
) -> &'static [u8]
    ensures { (places : List ThePlace) → (c : ℕ) → (s : List ℕ)
        → is_between (place ∷ places) (asked ∷ include.now) (map (λ mask. mask.now) exclude.now) (c ∷ s) ≡ true
        → (k : ℕ) × (k < length result.now)
        × (is_between (place ∷ places) (asked ∷ include.now) (map (λ mask. mask.now) exclude.now)
        (slice_index result.now k ∷ s) ≡ true) }
{
    if one_takes_all(exclude, include.len() + 1) {
        return &[];
    }
    candidates(place, asked, exclude)
}

/// Whether a name may go on behind a character at a place, where this is left of the mask behind it: the character may
/// stand there, and no other mask fits whatever follows it.
fn may_go_on(
    place: NamePlace,
    asked: Option<u8>,
    character: u8,
    include: Mask<'_>,
    exclude: &[Mask<'_>],
) -> bool
    ensures { result ≡ ((may_stand place character && fits_place asked character)
        && not (list_any (takes_behind character (length include.now)) (map (λ mask. mask.now) exclude.now))) }
{
    place.may_hold_asked(asked, character) && !one_takes_behind(exclude, character, include.len())
}

/// Writes a name into `name` that may stand at these places and fits one mask and none of the others, if there is one.
pub(crate) fn find(
    alloc: Global,
    places: &[NamePlace],
    include: Mask<'_>,
    exclude: &[Mask<'_>],
    name: &mut [u8],
) -> Result<bool, AllocError>
    requires { length name.old ≡ length places.now }
    ensures found { result ≡ Ok true
        → is_between places.now include.now (map (λ mask. mask.now) exclude.now) name.new ≡ true }
    ensures none { result ≡ Ok false
        → (s : List ℕ) → is_between places.now include.now (map (λ mask. mask.now) exclude.now) s ≡ false }
{
    let [place, places_left @ ..] = places else {
        return Ok(is_over(include) && !one_is_over(exclude));
    };
    let [asked, include_left @ ..] = include else {
        return Ok(false);
    };
    for character in tried(*place, *asked, include_left, exclude) {
        if may_go_on(*place, *asked, *character, include_left, exclude) {
            let left = after(alloc, exclude, *character)?;
            if find(
                alloc,
                places_left,
                include_left,
                left.as_slice(),
                &mut name[1..],
            )? {
                name[0] = *character;
                return Ok(true);
            }
        }
    }
    Ok(false)
}

/// The masks as slices.
fn slices<'a>(alloc: Global, masks: &'a [Vec<Option<u8>>]) -> Result<Vec<Mask<'a>>, AllocError>
    ensures { IfOk result (λ slices. map (λ mask. mask.now) slices.items ≡ map (λ mask. mask.items) masks.now) }
{
    let mut slices = Vec::new(alloc);
    for mask in masks {
        slices.push(mask.as_slice())?;
    }
    Ok(slices)
}

/// Writes a name into `name` that may stand at these places and fits one of some masks and none of others, if there is
/// one.
pub(crate) fn find_any(
    alloc: Global,
    places: &[NamePlace],
    include: &[Vec<Option<u8>>],
    exclude: &[Vec<Option<u8>>],
    name: &mut [u8],
) -> Result<bool, AllocError>
    requires { length name.old ≡ length places.now }
    ensures found { result ≡ Ok true
        → is_among places.now (map (λ mask. mask.items) include.now) (map (λ mask. mask.items) exclude.now) name.new
        ≡ true }
    ensures none { result ≡ Ok false → (s : List ℕ)
        → is_among places.now (map (λ mask. mask.items) include.now) (map (λ mask. mask.items) exclude.now) s ≡ false }
{
    let exclude = slices(alloc, exclude)?;
    for mask in include {
        if find(alloc, places, mask.as_slice(), exclude.as_slice(), name)? {
            return Ok(true);
        }
    }
    Ok(false)
}
