//! The texts of sources.

use crate::sources::{HeldLevel, LevelSource};
use std::fmt;

impl fmt::Display for LevelSource {
    ghost use Rattle.std.specs.Prelude.{Some};
    ghost use Rattle.opc_policy_sources.specs.SourceTexts.{source_text};

    ghost output = { λ source. Some (source_text source) };

    fn fmt<W: fmt::Write>(&self, f: &mut fmt::Formatter<W>) -> fmt::Result {
        match self {
            LevelSource::Own => write!(f, "OWN"),
            LevelSource::Group(group) => write!(f, "GROUP {group}"),
            LevelSource::Everyone => write!(f, "EVERYONE"),
            LevelSource::Universal => write!(f, "UACC"),
            LevelSource::Restricted => write!(f, "RESTRICTED"),
        }
    }
}

/// The source, and the console if it is an entry for one alone.
impl fmt::Display for HeldLevel {
    ghost use Rattle.std.specs.Prelude.{Some};
    ghost use Rattle.opc_policy_sources.specs.SourceTexts.{held_source_text};

    ghost output = { λ held. Some (held_source_text held) };

    fn fmt<W: fmt::Write>(&self, f: &mut fmt::Formatter<W>) -> fmt::Result {
        let source = self.source;
        write!(f, "{source}")?;
        if let Some(console) = self.when {
            write!(f, " AT {console}")?;
        }
        Ok(())
    }
}
