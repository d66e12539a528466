//! The search for the shortest resource of a form that lies between patterns.
ghost use Rattle.std.specs.Prelude.{
  ◌≡◌,
  ◌≤◌,
  ◌+◌,
  ◌-◌,
  ◌++◌,
  ◌∷◌,
  [],
  ℕ,
  List,
  IfOk,
  IfSome,
  None,
  Ok,
  false,
  length,
  max,
  true,
};
ghost use Rattle.std.specs.List.{AllByRecursion, list_any};
ghost use Rattle.opc_names.specs.Names.{qualifiers};
ghost use Rattle.opc_names.specs.Patterns.{covers_text};
ghost use Rattle.opc_policy_witness.specs.Ends.{AllCover};
ghost use Rattle.opc_policy_witness.specs.Forms.{
  AreOf,
  IsFine,
  IsForm,
  least_width,
  most_of_all,
  most_size,
  piece_of,
};
ghost use Rattle.opc_policy_witness.specs.Witness.{
  HaveText,
  IsFinePiece,
  IsPlaced,
  IsWitness,
  LiesIn,
  NonePlaced,
  is_found,
  room,
};

use crate::common::{masks_of_all, masks_of_any};
use crate::ends::{all_may_share_end, may_end, near_these};
use crate::forms::{FormQualifier, most_size, push_words};
use crate::pieces::{FormPiece, places_of};
use crate::search::find_any;
use crate::start::{all_may_begin, those_may_begin};
use crate::texts::resource_of;
use opc_names::name::{Pattern, Resource};
use std::alloc::{AllocError, Global};

/// Room for the characters of all names of a resource.
const ROOM: usize = 40;

/// A resource with names of these lengths that lies between the patterns, if there is one.
fn among(
    alloc: Global,
    include: &[Pattern],
    exclude: &[Pattern],
    pieces: &[FormPiece],
) -> Result<Option<Resource>, AllocError>
    requires { HaveText pieces.now }
    ensures found { IfOk result (λ found. IfSome found (LiesIn pieces.now include.now exclude.now)) }
    ensures none { result ≡ Ok None → (s : List ℕ)
        → is_found pieces.now include.now exclude.now s ≡ false }
{
    let wanted = masks_of_all(alloc, include, pieces)?;
    // Of most lengths the included patterns cover nothing, and nothing is asked of the others.
    if wanted.is_empty() {
        return Ok(None);
    }
    let unwanted = masks_of_any(alloc, exclude, pieces)?;
    let all = places_of(alloc, pieces)?;
    let places = all.as_slice();
    let mut characters = [0; ROOM];
    let name = &mut characters[..places.len()];
    if find_any(alloc, places, wanted.as_slice(), unwanted.as_slice(), name)? {
        return resource_of(alloc, pieces, name);
    }
    Ok(None)
}

/// The same after the last place of a form, if no character is left.
fn at_end(
    alloc: Global,
    include: &[Pattern],
    exclude: &[Pattern],
    pieces: &[FormPiece],
    size: usize,
) -> Result<Option<Resource>, AllocError>
    requires { HaveText pieces.now }
    ensures found { IfOk result (λ found. IfSome found (IsPlaced pieces.now [] include.now exclude.now size)) }
    ensures none { result ≡ Ok None → NonePlaced pieces.now [] include.now exclude.now size }
{
    if size == 0 {
        return among(alloc, include, exclude, pieces);
    }
    Ok(None)
}

/// How many characters a name has at least, if the names behind it have all others of so many. They cannot have more
/// than their most.
fn least_of(qualifier: &FormQualifier, behind: &[FormQualifier], size: usize) -> usize
    requires { most_size behind.now ≤ 40 }
    ensures { result ≡ max (least_width qualifier.now) (size - most_size behind.now) }
{
    qualifier
        .least_width()
        .max(size.saturating_sub(most_size(behind)))
}

/// The pieces, and after them a qualifier with a name of so many characters.
fn with_next(
    alloc: Global,
    pieces: &[FormPiece],
    qualifier: &FormQualifier,
    width: usize,
) -> Result<Vec<FormPiece>, AllocError>
    ensures { IfOk result (λ longer. longer.items ≡ pieces.now ++ piece_of qualifier.now width ∷ []) }
{
    let mut longer = pieces.to_vec(alloc)?;
    longer.push(qualifier.piece(width))?;
    Ok(longer)
}

/// A resource that lies between the patterns, with these pieces and, after them, names of so many characters in the
/// places of a form, if there is one.
fn of_size(
    alloc: Global,
    include: &[Pattern],
    exclude: &[Pattern],
    pieces: &[FormPiece],
    form: &[FormQualifier],
    size: usize,
) -> Result<Option<Resource>, AllocError>
    requires fine { AllByRecursion IsFinePiece pieces.now }
    requires form { AllByRecursion IsFine form.now }
    requires room { room pieces.now + most_of_all form.now ≤ 40 }
    requires some { 1 ≤ length pieces.now + length form.now }
    ensures found { IfOk result (λ found. IfSome found
        (IsPlaced pieces.now form.now include.now exclude.now size)) }
    ensures none { result ≡ Ok None
        → NonePlaced pieces.now form.now include.now exclude.now size }
{
    // Nothing is searched for what the included patterns cannot cover.
    if !all_may_begin(include, pieces) {
        return Ok(None);
    }
    let [qualifier, rest @ ..] = form else {
        return at_end(alloc, include, exclude, pieces, size);
    };
    let least = least_of(qualifier, rest, size);
    for width in least..qualifier.most_width().min(size) + 1 {
        let longer = with_next(alloc, pieces, qualifier, width)?;
        if let Some(found) = of_size(
            alloc,
            include,
            exclude,
            longer.as_slice(),
            rest,
            size - width,
        )? {
            return Ok(Some(found));
        }
    }
    Ok(None)
}

/// The shortest resource of a form that all patterns of one list cover and none of another, if there is one, searched
/// among the masks of all.
fn shortest(
    alloc: Global,
    form: &[FormQualifier],
    include: &[Pattern],
    exclude: &[Pattern],
) -> Result<Option<Resource>, AllocError>
    requires { IsForm form.now }
    ensures found { IfOk result (λ found. IfSome found (IsWitness form.now include.now exclude.now)) }
    ensures shortest { IfOk result (λ found. IfSome found (λ resource. (other : List ℕ)
        → IsWitness form.now include.now exclude.now other → length resource ≤ length other)) }
    ensures none { result ≡ Ok None → (resource : List ℕ) → IsWitness form.now include.now exclude.now resource → ⊥ }
{
    let mut words = Vec::new(alloc);
    let names = push_words(&mut words, form)?;
    // Most patterns cannot cover the words of most forms, whatever names follow.
    if !all_may_begin(include, words.as_slice()) {
        return Ok(None);
    }
    for size in 0..most_size(names) + 1 {
        if let Some(found) = of_size(alloc, include, exclude, words.as_slice(), names, size)? {
            return Ok(Some(found));
        }
    }
    Ok(None)
}

/// Whether a pattern covers a resource. Most end otherwise.
fn covers(pattern: &Pattern, resource: &Resource) -> bool
    ensures { result ≡ covers_text pattern.now resource.now }
{
    if !may_end(pattern.text().as_bytes(), resource.text().as_bytes()) {
        return false;
    }
    pattern.covers(resource)
}

/// Whether one of these patterns covers a resource.
fn one_covers(patterns: &[Pattern], resource: &Resource) -> bool
    ensures { result ≡ list_any (λ (p : List ℕ). covers_text p resource.now) patterns.now }
{
    patterns.iter().any(|pattern| covers(pattern, resource))
}

/// Those of some patterns that may cover a resource of a form, by its words, and what others all cover, by their ends.
fn near_form(
    alloc: Global,
    form: &[FormQualifier],
    include: &[Pattern],
    patterns: &[Pattern],
) -> Result<Vec<Pattern>, AllocError>
    ensures { IfOk result (λ near. (resource : List ℕ) → AreOf form.now (qualifiers resource)
        → AllCover include.now resource
        → list_any (λ (p : List ℕ). covers_text p resource) near.items
        ≡ list_any (λ (p : List ℕ). covers_text p resource) patterns.now) }
{
    let mut words = Vec::new(alloc);
    push_words(&mut words, form)?;
    let near = near_these(alloc, include, patterns)?;
    those_may_begin(alloc, near.as_slice(), words.as_slice())
}

/// The shortest resource of a form that all patterns of one list cover and none of another, if there is one.
pub fn witness(
    alloc: Global,
    form: &[FormQualifier],
    include: &[Pattern],
    exclude: &[Pattern],
) -> Result<Option<Resource>, AllocError>
    requires { IsForm form.now }
    ensures found { IfOk result (λ found. IfSome found (IsWitness form.now include.now exclude.now)) }
    ensures shortest { IfOk result (λ found. IfSome found (λ resource. (other : List ℕ)
        → IsWitness form.now include.now exclude.now other → length resource ≤ length other)) }
    ensures none { result ≡ Ok None → (resource : List ℕ) → IsWitness form.now include.now exclude.now resource → ⊥ }
{
    if !all_may_share_end(include) {
        return Ok(None);
    }
    let Some(covered) = shortest(alloc, form, include, &[])? else {
        return Ok(None);
    };
    // Of many excluded patterns mostly none covers the shortest resource, and none is searched.
    if !one_covers(exclude, &covered) {
        return Ok(Some(covered));
    }
    let near = near_form(alloc, form, include, exclude)?;
    shortest(alloc, form, include, near.as_slice())
}
