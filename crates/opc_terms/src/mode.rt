//! Logon modes of consoles.
ghost use Rattle.std.specs.Prelude.{◌≡◌, Some};
ghost use Rattle.std.specs.Str.{IsAscii};
ghost use Rattle.opc_names.specs.Spellings.{lookup};
ghost use Rattle.opc_terms.specs.Modes.{modes, mode_text};

use std::fmt;

/// Whether a user must be logged on at a console before commands are entered there, or whether the console acts for the
/// user of its own name if nobody is (MVS Planning: Operations, LOGON).
#[derive(Clone, Copy, PartialEq, Eq)]
pub enum Mode {
    Optional,
    Required,
    Auto,
}

impl Mode {
    /// The mode with this text.
    pub fn read(text: &str) -> Option<Self>
        ensures { result ≡ lookup modes text.now }
    {
        match text {
            "OPTIONAL" => Some(Mode::Optional),
            "REQUIRED" => Some(Mode::Required),
            "AUTO" => Some(Mode::Auto),
            // No other text is a mode.
            _ => None,
        }
    }

    /// Its text, which reads back.
    pub fn text(&self) -> &str
        ensures text { result.now ≡ mode_text self.now }
        ensures reads_back { lookup modes (mode_text self.now) ≡ Some self.now }
        ensures ascii { IsAscii (mode_text self.now) }
    {
        match self {
            Mode::Optional => "OPTIONAL",
            Mode::Required => "REQUIRED",
            Mode::Auto => "AUTO",
        }
    }
}

impl fmt::Display for Mode {
    ghost use Rattle.std.specs.Prelude.{Some};
    ghost use Rattle.opc_terms.specs.Modes.{mode_text};

    ghost output = { λ mode. Some (mode_text mode) };

    fn fmt<W: fmt::Write>(&self, f: &mut fmt::Formatter<W>) -> fmt::Result {
        f.pad(self.text())
    }
}
