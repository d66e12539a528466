//! The qualifiers of a pattern's text.
ghost use Rattle.std.specs.Prelude.{◌≡◌, ◌+◌, ◌↔◌, ◌==◌, [], ◌∷◌, length, IsTrue};
ghost use Rattle.std.specs.List.{position};
ghost use Rattle.std.specs.Option.{option_copied};
ghost use Rattle.opc_names.specs.Names.{qualifiers};
ghost use Rattle.opc_names.specs.Patterns.{tokens, ends_in_star, matches};
ghost use Rattle.opc_names.specs.Walk.{StarOnlyLast, qualifiers_left, left_len};

const PERCENT: u8 = b'%';

const STAR: u8 = b'*';

fn first_period(text: &[u8]) -> Option<usize>
    ensures { result ≡ position (λ c. c == 46) text.now }
{
    text.iter().position(|c| *c == b'.')
}

/// The first qualifier of a text, and what follows its period, if there is one.
pub fn split_qualifier(text: &[u8]) -> (&[u8], Option<&[u8]>)
    ensures parts { qualifiers text.now ≡ result.0.now ∷ qualifiers_left (option_copied result.1) }
    ensures lengths { length result.0.now + left_len (option_copied result.1) ≡ length text.now }
{
    match first_period(text) {
        Some(at) => (&text[..at], Some(&text[at + 1..])),
        None => (text, None),
    }
}

/// Whether a qualifier is `**`.
pub fn is_stars(qualifier: &[u8]) -> bool
    ensures { IsTrue result ↔ (qualifier.now ≡ 42 ∷ 42 ∷ []) }
{
    qualifier == b"**".as_slice()
}

/// Whether the last token of a qualifier other than `**` is a `*`.
pub fn ends_in_star(qualifier: &[u8]) -> bool
    requires { StarOnlyLast qualifier.now }
    ensures { result ≡ ends_in_star (tokens qualifier.now) }
{
    qualifier.last() == Some(&STAR)
}

/// Whether a qualifier of a pattern other than `**` matches a word.
pub fn matches(qualifier: &[u8], word: &[u8]) -> bool
    requires { StarOnlyLast qualifier.now }
    ensures { result ≡ matches (tokens qualifier.now) word.now }
{
    match qualifier {
        [] => word.is_empty(),
        [STAR, ..] => true,
        [token, tokens @ ..] => match word {
            [] => false,
            [character, characters @ ..] => {
                (*token == PERCENT || token == character) && matches(tokens, characters)
            }
        },
    }
}
