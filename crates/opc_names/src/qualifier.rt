//! The qualifiers of a name: its parts between periods.
ghost use Rattle.std.specs.Prelude.{◌≡◌, ◌+◌, ◌↔◌, ◌==◌, [], ◌∷◌, length, IsTrue};
ghost use Rattle.std.specs.List.{position};
ghost use Rattle.std.specs.Option.{option_copied};
ghost use Rattle.opc_names.specs.Names.{qualifiers};
ghost use Rattle.opc_names.specs.Walk.{qualifiers_left, left_len};

fn first_period(text: &[u8]) -> Option<usize>
    ensures { result ≡ position (λ c. c == 46) text.now }
{
    text.iter().position(|c| *c == b'.')
}

/// The first qualifier of a text, and what follows its period, if there is one.
pub(crate) fn split_qualifier(text: &[u8]) -> (&[u8], Option<&[u8]>)
    ensures parts { qualifiers text.now ≡ result.0.now ∷ qualifiers_left (option_copied result.1) }
    ensures lengths { length result.0.now + left_len (option_copied result.1) ≡ length text.now }
{
    match first_period(text) {
        Some(at) => (&text[..at], Some(&text[at + 1..])),
        None => (text, None),
    }
}

/// Whether a qualifier is `**`.
pub(crate) fn is_stars(qualifier: &[u8]) -> bool
    ensures { IsTrue result ↔ (qualifier.now ≡ 42 ∷ 42 ∷ []) }
{
    qualifier == b"**".as_slice()
}
