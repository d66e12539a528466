//! The places of a name.
ghost use Rattle.std.specs.Prelude.{◌≡◌, ◌&&◌};
ghost use Rattle.opc_policy_witness.specs.Masks.{fits_place, may_stand};

/// Which characters may stand at a place of a name.
#[derive(Clone, Copy)]
pub(crate) enum NamePlace {
    /// Any character of names.
    Character,
    /// Any but a digit: the first of a console's name.
    NoDigit,
}

impl NamePlace {
    pub(crate) fn may_hold(self, character: u8) -> bool
        ensures { result ≡ may_stand self character }
    {
        let is_letter = character.is_ascii_uppercase() || matches!(character, b'#' | b'$' | b'@');
        match self {
            NamePlace::Character => is_letter || character.is_ascii_digit(),
            NamePlace::NoDigit => is_letter,
        }
    }

    /// Whether a character may stand here, where a mask asks for this one or for none.
    pub(crate) fn may_hold_asked(self, asked: Option<u8>, character: u8) -> bool
        ensures { result ≡ (may_stand self character && fits_place asked character) }
    {
        match asked {
            Some(asked) => self.may_hold(character) && asked == character,
            None => self.may_hold(character),
        }
    }
}
