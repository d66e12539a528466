//! Resources whose names have a fixed number of characters.
ghost use Rattle.std.specs.Prelude.{◌≡◌, ◌≤◌, ◌++◌, IfOk, OnOk};
ghost use Rattle.opc_policy_witness.specs.Forms.{name_places, piece_places, places};
ghost use Rattle.opc_policy_witness.specs.Pieces.{size, width};

use crate::places::NamePlace;
use std::alloc::{AllocError, Global};

/// A qualifier of a resource: a word, or any name of so many characters.
#[derive(Clone, Copy)]
pub(crate) enum FormPiece {
    Word(&'static str),
    /// What may stand first, and how many characters it has.
    Name(NamePlace, usize),
}

impl FormPiece {
    /// How many characters of names it has.
    pub(crate) fn width(&self) -> usize
        ensures { result ≡ width self.now }
    {
        match *self {
            FormPiece::Word(_) => 0,
            FormPiece::Name(_, length) => length,
        }
    }

    /// Adds the places of its characters.
    fn push_places(&self, places: &mut Vec<NamePlace>) -> Result<(), AllocError>
        ensures { OnOk result (places.new.items ≡ places.old.items ++ piece_places self.now) }
    {
        let FormPiece::Name(first, length) = *self else {
            return Ok(());
        };
        for at in 0..length {
            places.push(if at == 0 { first } else { NamePlace::Character })?;
        }
        Ok(())
    }
}

/// How many characters all names have.
pub(crate) fn size_of(pieces: &[FormPiece]) -> usize
    requires { size pieces.now ≤ 40 }
    ensures { result ≡ size pieces.now }
{
    match pieces {
        [] => 0,
        [piece, rest @ ..] => piece.width() + size_of(rest),
    }
}

/// The places of the characters of all names, one after another.
pub(crate) fn places_of(alloc: Global, pieces: &[FormPiece]) -> Result<Vec<NamePlace>, AllocError>
    ensures { IfOk result (λ found. found.items ≡ places pieces.now) }
{
    let mut all = Vec::new(alloc);
    for piece in pieces {
        piece.push_places(&mut all)?;
    }
    Ok(all)
}
