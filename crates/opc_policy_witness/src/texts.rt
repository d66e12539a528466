//! The text of a resource, of its words and the characters of its names.
ghost use Rattle.std.specs.Prelude.{◌≡◌, ◌++◌, ◌≤◌, IfOk, OnOk, Some, length, true};
ghost use Rattle.opc_policy_witness.specs.Forms.{places};
ghost use Rattle.opc_policy_witness.specs.Masks.{may_stand_all};
ghost use Rattle.opc_policy_witness.specs.Pieces.{filled, qualifier, size, width};
ghost use Rattle.opc_policy_witness.specs.Witness.{HaveText, joined};

use crate::pieces::FormPiece;
use opc_names::name::Resource;
use std::alloc::{AllocError, Global};
use std::str;

/// The bytes of a qualifier, if its name has these characters.
fn bytes_of<'a>(piece: &FormPiece, name: &'a [u8]) -> &'a [u8]
    ensures { result.now ≡ qualifier piece.now name.now }
{
    match *piece {
        FormPiece::Word(word) => word.as_bytes(),
        FormPiece::Name(_, _) => name,
    }
}

/// Adds the qualifiers of a resource to its text, in which these are the characters of all names, one after another.
fn push_qualifiers(
    text: &mut Vec<u8>,
    pieces: &[FormPiece],
    characters: &[u8],
) -> Result<(), AllocError>
    requires { length characters.now ≡ size pieces.now }
    ensures { OnOk result (text.new.items ≡ text.old.items ++ joined (filled pieces.now characters.now)) }
{
    let [piece, rest @ ..] = pieces else {
        return Ok(());
    };
    let (name, characters_left) = characters.split_at(piece.width());
    text.extend_from_slice(bytes_of(piece, name))?;
    if rest.is_empty() {
        return Ok(());
    }
    text.push(b'.')?;
    push_qualifiers(text, rest, characters_left)
}

/// The resource in which these are the characters of all names.
pub(crate) fn resource_of(
    alloc: Global,
    pieces: &[FormPiece],
    characters: &[u8],
) -> Result<Option<Resource>, AllocError>
    requires text { HaveText pieces.now }
    requires stand { may_stand_all (places pieces.now) characters.now ≡ true }
    ensures { IfOk result (λ found. found ≡ Some (joined (filled pieces.now characters.now))) }
{
    let mut text = Vec::new(alloc);
    push_qualifiers(&mut text, pieces, characters)?;
    let Ok(text) = str::from_utf8(text.as_slice()) else {
        return Ok(None);
    };
    Ok(Resource::read(text).ok())
}
