//! The numbers of replies.
ghost use Rattle.std.specs.Prelude.{◌≡◌, ◌<◌, ◌≤◌, MatchOption, Some};
ghost use Rattle.opc_names.specs.Spellings.{two_digits};

use std::fmt;
use std::marker::Model;

/// The number of a reply, 0 to 99, which contracts see as a number.
#[derive(Clone, Copy, PartialEq, Eq, PartialOrd, Ord)]
pub struct ReplyId {
    number: u8,
}

impl Model for ReplyId {
    ghost use Rattle.std.specs.Prelude.{ℕ, ◌≤◌};

    ghost Value = { ℕ };

    ghost view = { λ id. id.number };

    ghost invariant = { λ id. id.number ≤ 99 };

    ghost inverse = { λ number. record { number = number } };
}

impl ReplyId {
    /// The id of this number, if it has one or two digits.
    pub fn new(number: u8) -> Option<Self>
        ensures { MatchOption result (99 < number) (λ id. (id ≡ number) × (number ≤ 99)) }
    {
        if number <= 99 {
            Some(ReplyId { number })
        } else {
            None
        }
    }

    /// The number, 0 to 99.
    pub fn number(self) -> u8
        ensures value { result ≡ self }
        ensures most { result ≤ 99 }
    {
        self.number
    }
}

impl fmt::Debug for ReplyId {
    fn fmt<W: fmt::Write>(&self, f: &mut fmt::Formatter<W>) -> fmt::Result {
        fmt::Debug::fmt(&self.number, f)
    }
}

impl fmt::Display for ReplyId {
    ghost output = { λ id. Some (two_digits id) };

    #[tactic(auto, using(crate::proofs::Digits::padded_two))]
    fn fmt<W: fmt::Write>(&self, f: &mut fmt::Formatter<W>) -> fmt::Result {
        let number = self.number;
        write!(f, "{number:02}")
    }
}
