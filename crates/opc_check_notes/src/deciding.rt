//! Notes on profiles that decide nothing.
ghost use Rattle.std.specs.Prelude.{◌≡◌, IfOk};
ghost use Rattle.opc_check_notes.specs.Met.{is_met, is_preceded};
ghost use Rattle.opc_check_notes.specs.Notes.{never_decides, no_resource};

use crate::known::Known;
use crate::note::Finding;
use crate::preceding::opercmds_pattern;
use crate::profiles::if_so;
use opc_check_reach::met;
use opc_names::name::Pattern;
use opc_policy_members::row::Row;
use std::alloc::{AllocError, Global};

/// Whether a pattern of OPERCMDS covers a resource about which the gate asks.
fn is_met(alloc: Global, pattern: &Pattern) -> Result<bool, AllocError>
    ensures { IfOk result (λ b. b ≡ is_met pattern.now) }
{
    met::is_met(alloc, pattern)
}

/// A profile of OPERCMDS covers no such resource.
pub(crate) fn no_resource(alloc: Global, row: &Row) -> Result<Option<Finding>, AllocError>
    ensures { IfOk result (λ found. found ≡ no_resource row.now) }
{
    match opercmds_pattern(row) {
        Some(pattern) => Ok(if_so(!is_met(alloc, &pattern)?, Finding::NoResource(pattern))),
        None => Ok(None),
    }
}

/// Whether a pattern covers such a resource, and each that it covers is covered by one of these rows that comes before.
fn is_preceded(alloc: Global, known: &Known, pattern: &Pattern) -> Result<bool, AllocError>
    ensures { IfOk result (λ b. b ≡ is_preceded known.now pattern.now) }
{
    let before = known.preceding(alloc, pattern)?;
    // Nothing comes before most patterns, and there is nothing to search for.
    if before.is_empty() {
        return Ok(false);
    }
    let decides_some = met::decides(alloc, pattern, before.as_slice())?;
    if decides_some {
        return Ok(false);
    }
    is_met(alloc, pattern)
}

/// A profile of OPERCMDS never decides: others come before it.
pub(crate) fn never_decides(
    alloc: Global,
    known: &Known,
    row: &Row,
) -> Result<Option<Finding>, AllocError>
    ensures { IfOk result (λ found. found ≡ never_decides known.now row.now) }
{
    match opercmds_pattern(row) {
        Some(pattern) => Ok(if_so(
            is_preceded(alloc, known, &pattern)?,
            Finding::NeverDecides(pattern),
        )),
        None => Ok(None),
    }
}
