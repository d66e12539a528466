//! What a kind of name requires of a text, and why a text is not a valid name.
ghost use Rattle.std.specs.Prelude.{◌≡◌, ◌+◌, ◌<◌, not, length, None};
ghost use Rattle.std.specs.List.{position};
ghost use Rattle.std.specs.Str.{chars};
ghost use Rattle.opc_names.specs.Names.{
  is_name_character,
  may_begin,
  may_follow,
  bad_character,
  name_fault,
  star_only_last,
  is_plain,
  is_qualifier,
  bad_qualifier,
};

use crate::qualifier::{is_stars, split_qualifier};
use std::error::Error;
use std::fmt;

/// Why a text is not a valid name. The first that holds, in this order, is reported; places are byte places.
#[derive(Clone, Copy, Debug, PartialEq, Eq)]
pub enum NameFault {
    Empty,
    /// Fewer characters than the kind of name requires.
    TooShort,
    /// More characters than the kind of name allows.
    TooLong,
    /// Where the first character stands that cannot stand there.
    BadCharacter(usize),
    /// Where the first qualifier begins that is empty, has a `*` before its end or combines `**` with other characters.
    BadQualifier(usize),
}

/// The characters of a kind of name, and where they may stand.
#[derive(Clone, Copy, PartialEq, Eq)]
pub enum Alphabet {
    /// `A` to `Z`, `0` to `9`, `#`, `$`, `@`.
    NameCharacters,
    /// The same, but the first is not a digit.
    NoDigitFirst,
    /// `0` to `9`, `A` to `F`.
    Hexadecimal,
    /// Qualifiers of name characters, separated by single periods.
    Qualified,
    /// The same with the generic characters `%` and `*`.
    Generic,
}

/// What a kind of name requires of a text: how many characters, and which.
#[derive(Clone, Copy, PartialEq, Eq)]
pub struct NameRule {
    pub least: usize,
    pub most: usize,
    pub alphabet: Alphabet,
}

impl fmt::Display for NameFault {
    ghost use Rattle.std.specs.Prelude.{Some};
    ghost use Rattle.opc_names.specs.Names.{fault_words};

    ghost output = { λ fault. Some (fault_words fault) };

    fn fmt<W: fmt::Write>(&self, f: &mut fmt::Formatter<W>) -> fmt::Result {
        match self {
            NameFault::Empty => write!(f, "empty"),
            NameFault::TooShort => write!(f, "too short"),
            NameFault::TooLong => write!(f, "too long"),
            NameFault::BadCharacter(at) => write!(f, "bad character at {at}"),
            NameFault::BadQualifier(at) => write!(f, "bad qualifier at {at}"),
        }
    }
}

impl Error for NameFault {}

fn is_name_character(byte: u8) -> bool
    ensures { result ≡ is_name_character byte }
{
    matches!(byte, b'A'..=b'Z' | b'0'..=b'9' | b'#' | b'$' | b'@')
}

fn star_only_last(qualifier: &[u8]) -> bool
    ensures { result ≡ star_only_last qualifier.now }
{
    match qualifier {
        [first, rest @ ..] if !rest.is_empty() => *first != b'*' && star_only_last(rest),
        // A qualifier of one character may be a `*`.
        _ => true,
    }
}

fn count_characters(text: &str) -> usize
    ensures { result ≡ length (chars text.now) }
{
    text.chars().count()
}

impl Alphabet {
    fn may_follow(self, byte: u8) -> bool
        ensures { result ≡ may_follow self byte }
    {
        match self {
            Alphabet::NameCharacters | Alphabet::NoDigitFirst => is_name_character(byte),
            Alphabet::Hexadecimal => matches!(byte, b'0'..=b'9' | b'A'..=b'F'),
            Alphabet::Qualified => is_name_character(byte) || byte == b'.',
            Alphabet::Generic => is_name_character(byte) || matches!(byte, b'.' | b'%' | b'*'),
        }
    }

    fn may_begin(self, byte: u8) -> bool
        ensures { result ≡ may_begin self byte }
    {
        match self {
            Alphabet::NoDigitFirst => is_name_character(byte) && !byte.is_ascii_digit(),
            // In the other alphabets, what may follow may also begin.
            _ => self.may_follow(byte),
        }
    }

    fn first_that_may_not_follow(self, rest: &[u8]) -> Option<usize>
        ensures { result ≡ position (λ c. not (may_follow self c)) rest.now }
    {
        rest.iter().position(|c| !self.may_follow(*c))
    }

    fn bad_character(self, text: &[u8]) -> Option<usize>
        ensures { result ≡ bad_character self text.now }
    {
        let (first, rest) = text.split_first()?;
        if !self.may_begin(*first) {
            return Some(0);
        }
        self.first_that_may_not_follow(rest).map(|at| at + 1)
    }

    fn is_plain(self) -> bool
        ensures { result ≡ is_plain self }
    {
        !matches!(self, Alphabet::Qualified | Alphabet::Generic)
    }

    // How many characters a text has whose first bad one is known: good ones take one byte each.
    fn count(self, text: &str, bad: Option<usize>) -> usize
        requires { bad ≡ bad_character self text.now }
        ensures { result ≡ length (chars text.now) }
    {
        match bad {
            None => text.len(),
            Some(_) => count_characters(text),
        }
    }

    // Where the first bad qualifier of a text without bad characters begins: a plain text is one qualifier.
    fn bad_part(self, text: &[u8]) -> Option<usize>
        requires some { 0 < length (chars text.now) }
        requires good { bad_character self text.now ≡ None }
        ensures { result ≡ bad_qualifier self text.now }
    {
        if self.is_plain() {
            return None;
        }
        self.bad_qualifier(text)
    }

    fn is_qualifier(self, part: &[u8]) -> bool
        ensures { result ≡ is_qualifier self part.now }
    {
        if part.is_empty() {
            return false;
        }
        match self {
            Alphabet::Generic => is_stars(part) || star_only_last(part),
            // Without generic characters every part that is not empty is a qualifier.
            _ => true,
        }
    }

    fn bad_qualifier(self, text: &[u8]) -> Option<usize>
        ensures { result ≡ bad_qualifier self text.now }
    {
        let mut at = 0;
        let mut left = Some(text);
        while let Some(rest) = left {
            let (part, others) = split_qualifier(rest);
            if !self.is_qualifier(part) {
                return Some(at);
            }
            at += part.len() + 1;
            left = others;
        }
        None
    }
}

impl NameRule {
    pub(crate) fn fault(self, text: &str) -> Option<NameFault>
        ensures { result ≡ name_fault self text.now }
    {
        let bad = self.alphabet.bad_character(text.as_bytes());
        // Only a text with a bad character is counted by characters, so that `TooLong` still comes first.
        let count = self.alphabet.count(text, bad);
        if count == 0 {
            return Some(NameFault::Empty);
        }
        if count < self.least {
            return Some(NameFault::TooShort);
        }
        if count > self.most {
            return Some(NameFault::TooLong);
        }
        if let Some(at) = bad {
            return Some(NameFault::BadCharacter(at));
        }
        self.alphabet
            .bad_part(text.as_bytes())
            .map(NameFault::BadQualifier)
    }
}
