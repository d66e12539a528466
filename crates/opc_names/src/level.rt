//! Access levels.
ghost use Rattle.std.specs.Prelude.{◌≡◌, Some};
ghost use Rattle.std.specs.Str.{IsAscii};
ghost use Rattle.opc_names.specs.Spellings.{lookup, levels, level_text};
ghost use Rattle.opc_names.specs.Authority.{includes};

use std::fmt;

/// How much access is held or needed, the least first (RACF guide: access authority).
#[derive(Clone, Copy, Debug, PartialEq, Eq, PartialOrd, Ord, Hash)]
pub enum Level {
    None,
    Read,
    Update,
    Control,
    Alter,
}

impl Level {
    /// The level with this text.
    pub fn read(text: &str) -> Option<Self>
        ensures { result ≡ lookup levels text.now }
    {
        match text {
            "NONE" => Some(Level::None),
            "READ" => Some(Level::Read),
            "UPDATE" => Some(Level::Update),
            "CONTROL" => Some(Level::Control),
            "ALTER" => Some(Level::Alter),
            // No other text is a level.
            _ => None,
        }
    }

    /// Its text, which reads back.
    pub fn text(&self) -> &str
        ensures text { result.now ≡ level_text self.now }
        ensures reads_back { lookup levels (level_text self.now) ≡ Some self.now }
        ensures ascii { IsAscii (level_text self.now) }
    {
        match self {
            Level::None => "NONE",
            Level::Read => "READ",
            Level::Update => "UPDATE",
            Level::Control => "CONTROL",
            Level::Alter => "ALTER",
        }
    }

    /// Whether a user who holds this level has the needed one: a level includes those below it.
    pub fn includes(self, needed: Level) -> bool
        ensures { result ≡ includes self needed }
    {
        self >= needed
    }
}

impl fmt::Display for Level {
    ghost use Rattle.std.specs.Prelude.{Some};
    ghost use Rattle.opc_names.specs.Spellings.{level_text};

    ghost output = { λ level. Some (level_text level) };

    fn fmt<W: fmt::Write>(&self, f: &mut fmt::Formatter<W>) -> fmt::Result {
        f.pad(self.text())
    }
}
