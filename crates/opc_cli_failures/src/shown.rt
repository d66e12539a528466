//! What is shown of a text that somebody wrote.
use arrayvec::ArrayString;
use std::fmt;
use std::fmt::{Display, Formatter};

/// The most characters that are shown: as many as the longest name has.
const SHOWN_CHARACTERS: usize = 39;

/// The most bytes that these have.
const SHOWN_BYTES: usize = 4 * SHOWN_CHARACTERS;

/// The start of a text.
#[derive(Clone, Copy)]
pub struct TextStart {
    text: ArrayString<SHOWN_BYTES>,
    is_whole: bool,
}

impl TextStart {
    /// What is shown of a text.
    pub fn of(whole: &str) -> Self {
        let mut text = ArrayString::new();
        for (number, character) in whole.chars().enumerate() {
            if number >= SHOWN_CHARACTERS || text.try_push(character).is_err() {
                return TextStart {
                    text,
                    is_whole: false,
                };
            }
        }
        TextStart {
            text,
            is_whole: true,
        }
    }
}

impl TextStart {
    /// What is shown of a text that begins like this, and may go on.
    pub fn of_start(start: &str, is_whole: bool) -> Self {
        let TextStart {
            text,
            is_whole: is_all,
        } = TextStart::of(start);
        TextStart {
            text,
            is_whole: is_all && is_whole,
        }
    }
}

/// How many characters a day has at least, as 20261127.
const DAY_CHARACTERS: usize = 8;

impl TextStart {
    /// Whether it begins as a day does: with digits, and what stands between them.
    pub(crate) fn begins_as_day(&self) -> bool {
        let bytes = self.text.as_str().as_bytes();
        bytes.len() >= DAY_CHARACTERS
            && bytes[..DAY_CHARACTERS]
                .iter()
                .all(|c| c.is_ascii_digit() || matches!(*c, b'-' | b'/' | b'.'))
    }

    /// Whether it has digits and spaces alone.
    pub(crate) fn is_of_numbers(&self) -> bool {
        self.text
            .as_str()
            .as_bytes()
            .iter()
            .all(|c| c.is_ascii_digit() || *c == b' ')
    }
}

impl Display for TextStart {
    fn fmt<W: fmt::Write>(&self, f: &mut Formatter<W>) -> fmt::Result {
        let rest = if self.is_whole { "" } else { ".." };
        write!(f, "{:?}{rest}", self.text.as_str())
    }
}
