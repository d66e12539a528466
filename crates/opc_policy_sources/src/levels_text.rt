//! The text of levels: a line for each profile that covers.
ghost use Rattle.std.specs.Prelude.{◌≡◌, IfOk, string_bytes};
ghost use Rattle.opc_policy_sources.specs.Levels.{level_line, levels_text};

use crate::levels::CoveringLevel;
use std::alloc::{AllocError, Global};

fn level_line(alloc: Global, level: &CoveringLevel) -> Result<String, AllocError>
    ensures { IfOk result (λ text. string_bytes text ≡ level_line level.now) }
{
    let (pattern, held) = (level.pattern, level.held);
    let level = held.level;
    format!(in alloc; "COVERS {pattern} HELD {level} BY {held}\n")
}

/// A line for each profile that covers, with the level that the user holds in it, and its source.
pub fn levels_text(alloc: Global, levels: &[CoveringLevel]) -> Result<String, AllocError>
    ensures { IfOk result (λ text. string_bytes text ≡ levels_text levels.now) }
{
    let mut text = String::new(alloc);
    for level in levels {
        text.push_str(level_line(alloc, level)?.as_str())?;
    }
    Ok(text)
}
