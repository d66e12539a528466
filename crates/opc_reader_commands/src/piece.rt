//! Pieces of a line.
ghost use Rattle.std.specs.Prelude.{◌≡◌, ◌+◌, ◌≤◌, length};
ghost use Rattle.std.specs.Str.{IsAscii};
ghost use Rattle.opc_reader_commands.specs.Stretches.{folded, prefix, after, word};

use crate::folded::Folded;
use std::fmt;
use std::marker::Model;

/// A piece of a line as it was typed, and where it begins.
#[derive(Drop)]
pub struct Piece<'a> {
    text: &'a str,
    from: usize,
}

impl fmt::Debug for Piece<'_> {
    fn fmt<W: fmt::Write>(&self, f: &mut fmt::Formatter<W>) -> fmt::Result {
        write!(f, "Piece {{ text: {:?}, from: {} }}", self.text, self.from)
    }
}

impl<'a> Model for Piece<'a> {
    ghost use Rattle.std.specs.Prelude.{◌≤◌, ◌+◌, length};
    ghost use Rattle.std.specs.Str.{IsAscii};
    ghost use Rattle.opc_reader_commands.specs.Stretches.{Stretch};

    ghost Value = { Stretch };

    ghost view = { λ p. record { text = p.text.now; from = p.from } };

    ghost invariant = { λ p. IsAscii p.text.now × (p.from + length p.text.now ≤ 126) };
}

/// The place of a piece in a line, as byte places: `from` is its first, `to` the one after its last.
#[derive(Clone, Copy, Debug, PartialEq, Eq)]
pub struct Span {
    pub from: usize,
    pub to: usize,
}

impl<'a> Piece<'a> {
    /// A line as one piece.
    pub fn whole(line: &'a str) -> Piece<'a>
        requires ascii { IsAscii line.now }
        requires short { length line.now ≤ 126 }
        ensures { result ≡ record { text = line.now; from = 0 } }
    {
        Piece {
            text: line,
            from: 0,
        }
    }

    /// The slice of the line.
    pub fn text(&self) -> &'a str
        ensures text { result.now ≡ self.now.text }
        ensures ascii { IsAscii self.now.text }
    {
        self.text
    }

    /// Its place in the line.
    pub fn span(&self) -> Span
        ensures { result ≡ record { from = self.now.from; to = self.now.from + length self.now.text } }
    {
        Span {
            from: self.from,
            to: self.from + self.text.len(),
        }
    }

    /// Its first bytes, and those after them.
    pub fn split(&self, at: usize) -> (Piece<'a>, Piece<'a>)
        requires { at ≤ length self.now.text }
        ensures prefix { result.0 ≡ prefix at self.now }
        ensures after { result.1 ≡ after at self.now }
    {
        let (prefix, after) = self.text.split_at(at);
        (
            Piece {
                text: prefix,
                from: self.from,
            },
            Piece {
                text: after,
                from: self.from + at,
            },
        )
    }

    /// In upper case.
    pub fn folded(&self) -> Folded
        ensures { result ≡ folded self.now.text }
    {
        Folded::of(self.text)
    }

    /// The text after a word, if the piece begins with it in any case.
    #[tactic(auto, unfolding(crate::specs::Stretches::word))]
    pub fn word(&self, text: &str) -> Option<Piece<'a>>
        ensures { result ≡ word text.now self.now }
    {
        if self.text.len() < text.len() {
            return None;
        }
        let (prefix, after) = self.split(text.len());
        if prefix.folded().as_str() == text {
            Some(after)
        } else {
            None
        }
    }
}
