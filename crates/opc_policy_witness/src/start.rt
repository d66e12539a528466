//! Whether a pattern may cover a resource that begins with some qualifiers.
ghost use Rattle.std.specs.Prelude.{◌≡◌, ℕ, IfOk, List, filter, is_some, map};
ghost use Rattle.std.specs.List.{AllByRecursion, list_all};
ghost use Rattle.std.specs.Option.{option_copied};
ghost use Rattle.opc_names.specs.Names.{qualifiers};
ghost use Rattle.opc_names.specs.Patterns.{tokens};
ghost use Rattle.opc_names.specs.Walk.{IsQualifier, StarOnlyLast, qualifiers_left};
ghost use Rattle.opc_policy_witness.specs.Pieces.{mask_of, may_begin, spread};

use crate::expand::is_open_end;
use crate::pieces::FormPiece;
use crate::qualifier::{is_stars, matches, split_qualifier};
use opc_names::name::Pattern;
use std::alloc::{AllocError, Global};

const STAR: u8 = b'*';

/// Whether a qualifier of a pattern other than `**` matches some name of so many characters.
fn has_width(qualifier: &[u8], length: usize) -> bool
    requires { StarOnlyLast qualifier.now }
    ensures { result ≡ is_some (spread (tokens qualifier.now) length) }
{
    let [token, rest @ ..] = qualifier else {
        return length == 0;
    };
    if *token == STAR {
        return true;
    }
    if length == 0 {
        return false;
    }
    has_width(rest, length - 1)
}

/// Whether it matches a word, or some name of a length.
fn fits_piece(qualifier: &[u8], piece: &FormPiece) -> bool
    requires { StarOnlyLast qualifier.now }
    ensures { result ≡ is_some (mask_of (tokens qualifier.now) piece.now) }
{
    match *piece {
        FormPiece::Word(word) => matches(qualifier, word.as_bytes()),
        FormPiece::Name(_, length) => has_width(qualifier, length),
    }
}

/// Whether what is left of a pattern may cover a resource that begins with these pieces, by its qualifiers before `**`.
fn may_begin(pattern: Option<&[u8]>, pieces: &[FormPiece]) -> bool
    requires { AllByRecursion IsQualifier (qualifiers_left (option_copied pattern)) }
    ensures { result ≡ may_begin (map tokens (qualifiers_left (option_copied pattern.entry))) pieces.now }
{
    let [piece, rest @ ..] = pieces else {
        return true;
    };
    let Some(text) = pattern else {
        return false;
    };
    let (qualifier, others) = split_qualifier(text);
    if is_stars(qualifier) {
        return true;
    }
    fits_piece(qualifier, piece) && (is_open_end(qualifier, others) || may_begin(others, rest))
}

fn one_may_begin(pattern: &Pattern, pieces: &[FormPiece]) -> bool
    ensures { result ≡ may_begin (map tokens (qualifiers pattern.now)) pieces.now }
{
    may_begin(Some(pattern.text().as_bytes()), pieces)
}

/// Whether each of these patterns may.
pub(crate) fn all_may_begin(patterns: &[Pattern], pieces: &[FormPiece]) -> bool
    ensures { result ≡ list_all (λ p. may_begin (map tokens (qualifiers p)) pieces.now) patterns.now }
{
    match patterns {
        [] => true,
        [pattern, rest @ ..] => one_may_begin(pattern, pieces) && all_may_begin(rest, pieces),
    }
}

/// Those of some patterns that may.
pub(crate) fn those_may_begin(
    alloc: Global,
    patterns: &[Pattern],
    pieces: &[FormPiece],
) -> Result<Vec<Pattern>, AllocError>
    ensures { IfOk result (λ kept. kept.items
        ≡ filter (λ (p : List ℕ). may_begin (map tokens (qualifiers p)) pieces.now) patterns.now) }
{
    patterns
        .iter()
        .filter(|pattern| one_may_begin(pattern, pieces))
        .copied()
        .collect(alloc)
}
