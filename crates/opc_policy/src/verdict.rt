//! Verdicts of a class.
ghost use Rattle.std.specs.Prelude.{◌≡◌};
ghost use Rattle.std.specs.Str.{IsAscii};

use std::fmt;

/// What the profiles of a class decide on a user and a level: they allow it or deny it, or leave it open.
#[derive(Clone, Copy)]
pub enum Verdict {
    Allowed,
    Undecided,
    Denied,
}

impl Verdict {
    ghost use Rattle.opc_policy.specs.Verdicts.{verdict_text};

    /// The word of the verdict, as `explain` prints it.
    pub fn text(&self) -> &str
        ensures text { result.now ≡ verdict_text self.now }
        ensures ascii { IsAscii (verdict_text self.now) }
    {
        match self {
            Verdict::Allowed => "ALLOWED",
            Verdict::Undecided => "UNDECIDED",
            Verdict::Denied => "DENIED",
        }
    }
}

impl fmt::Display for Verdict {
    ghost use Rattle.std.specs.Prelude.{Some};
    ghost use Rattle.opc_policy.specs.Verdicts.{verdict_text};

    ghost output = { λ verdict. Some (verdict_text verdict) };

    fn fmt<W: fmt::Write>(&self, f: &mut fmt::Formatter<W>) -> fmt::Result {
        f.pad(self.text())
    }
}
