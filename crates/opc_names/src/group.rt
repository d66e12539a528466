//! Command groups.
ghost use Rattle.std.specs.Prelude.{◌≡◌, Some};
ghost use Rattle.std.specs.Str.{IsAscii};
ghost use Rattle.opc_names.specs.Spellings.{lookup, groups, group_text};

use std::fmt;

/// A group of commands (MVS Planning: Operations).
#[derive(Clone, Copy, Debug, PartialEq, Eq, PartialOrd, Ord, Hash)]
pub enum Group {
    Master,
    Info,
    Sys,
    Io,
    Cons,
}

impl Group {
    /// The group with this text.
    pub fn read(text: &str) -> Option<Self>
        ensures { result ≡ lookup groups text.now }
    {
        match text {
            "MASTER" => Some(Group::Master),
            "INFO" => Some(Group::Info),
            "SYS" => Some(Group::Sys),
            "IO" => Some(Group::Io),
            "CONS" => Some(Group::Cons),
            // No other text is a group.
            _ => None,
        }
    }

    /// Its text, which reads back.
    pub fn text(&self) -> &str
        ensures text { result.now ≡ group_text self.now }
        ensures reads_back { lookup groups (group_text self.now) ≡ Some self.now }
        ensures ascii { IsAscii (group_text self.now) }
    {
        match self {
            Group::Master => "MASTER",
            Group::Info => "INFO",
            Group::Sys => "SYS",
            Group::Io => "IO",
            Group::Cons => "CONS",
        }
    }
}

impl fmt::Display for Group {
    ghost use Rattle.std.specs.Prelude.{Some};
    ghost use Rattle.opc_names.specs.Spellings.{group_text};

    ghost output = { λ group. Some (group_text group) };

    fn fmt<W: fmt::Write>(&self, f: &mut fmt::Formatter<W>) -> fmt::Result {
        f.pad(self.text())
    }
}
