//! Classes of resources.
ghost use Rattle.std.specs.Prelude.{◌≡◌, Some};
ghost use Rattle.std.specs.Str.{IsAscii};
ghost use Rattle.opc_names.specs.Spellings.{lookup, classes, class_text};

use std::fmt;

/// A class of resources: consoles, or operator commands.
#[derive(Clone, Copy, Debug, PartialEq, Eq, PartialOrd, Ord, Hash)]
pub enum Class {
    Console,
    Opercmds,
}

impl Class {
    /// The class with this text.
    pub fn read(text: &str) -> Option<Self>
        ensures { result ≡ lookup classes text.now }
    {
        match text {
            "CONSOLE" => Some(Class::Console),
            "OPERCMDS" => Some(Class::Opercmds),
            // No other text is a class.
            _ => None,
        }
    }

    /// Its text, which reads back.
    pub fn text(&self) -> &str
        ensures text { result.now ≡ class_text self.now }
        ensures reads_back { lookup classes (class_text self.now) ≡ Some self.now }
        ensures ascii { IsAscii (class_text self.now) }
    {
        match self {
            Class::Console => "CONSOLE",
            Class::Opercmds => "OPERCMDS",
        }
    }
}

impl fmt::Display for Class {
    ghost use Rattle.std.specs.Prelude.{Some};
    ghost use Rattle.opc_names.specs.Spellings.{class_text};

    ghost output = { λ class. Some (class_text class) };

    fn fmt<W: fmt::Write>(&self, f: &mut fmt::Formatter<W>) -> fmt::Result {
        f.pad(self.text())
    }
}
