//! The tokens of a pattern.
ghost use Rattle.std.specs.Prelude.{◌≡◌, ◌∷◌, ◌++◌, [], ◌<◌, length, MatchOption, IsTrue, ◌↔◌, ◌≤◌, take};
ghost use Rattle.opc_names.specs.Patterns.{tokens, spelling};
ghost use Rattle.opc_names.specs.Order.{Earlier, is_open, key_byte, begins_with_stars, head};

/// A character or period that stands for itself, `%`, `*` or `**`, in their order.
#[derive(Clone, Copy, PartialEq, Eq, PartialOrd, Ord)]
pub enum Token {
    Literal(u8),
    Percent,
    Star,
    Stars,
}

impl Token {
    /// Whether it is `*` or `**`, which leave open what follows them.
    pub(crate) fn is_open(self) -> bool
        ensures { result ≡ is_open self }
    {
        matches!(self, Token::Star | Token::Stars)
    }

    pub(crate) fn is_earlier(self, other: Token) -> bool
        ensures { IsTrue result ↔ Earlier self other }
    {
        self < other
    }

    pub(crate) fn key_byte(self) -> u8
        ensures { result ≡ key_byte self }
    {
        match self {
            Token::Literal(character) => character,
            Token::Percent => 0x80,
            Token::Star => 0x81,
            Token::Stars => 0x82,
        }
    }
}

/// The first token of a text, and what follows it.
pub(crate) fn first_token(text: &[u8]) -> Option<(Token, &[u8])>
    ensures token { MatchOption result (tokens text.now ≡ [])
        (λ first. tokens text.now ≡ first.0 ∷ tokens first.1.now) }
    ensures text { MatchOption result (text.now ≡ []) (λ first. text.now ≡ spelling first.0 ++ first.1.now) }
{
    match text {
        [] => None,
        [b'*', b'*', rest @ ..] => Some((Token::Stars, rest)),
        [b'*', rest @ ..] => Some((Token::Star, rest)),
        [b'%', rest @ ..] => Some((Token::Percent, rest)),
        [character, rest @ ..] => Some((Token::Literal(*character), rest)),
    }
}

fn begins_with_stars(text: &[u8]) -> bool
    ensures { result ≡ begins_with_stars (tokens text.now) }
{
    matches!(first_token(text), Some((Token::Stars, _)))
}

/// How long the head of a pattern's text is.
pub(crate) fn head_len(text: &[u8]) -> usize
    ensures head { take result text.now ≡ head (tokens text.now) }
    ensures within { result ≤ length text.now }
{
    let Some((Token::Literal(character), rest)) = first_token(text) else {
        return 0;
    };
    if character == b'.' && begins_with_stars(rest) {
        return 0;
    }
    1 + head_len(rest)
}
