//! Which patterns cover a resource about which the gate asks, and which of them decide one.
ghost use Rattle.std.specs.Prelude.{◌≡◌, ◌↔◌, IfOk, IsTrue};
ghost use Rattle.opc_check_reach.specs.Forms.{decides};
ghost use Rattle.opc_check_reach.specs.Reach.{IsMet};

use crate::forms::{decides_fixed, decides_named};
use opc_names::name::Pattern;
use std::alloc::{AllocError, Global};

/// Whether a pattern covers a resource of class OPERCMDS about which the gate asks: one that a command needs, or one
/// that showing a line about a unit or a console needs. If not, its profile decides nothing.
pub fn is_met(alloc: Global, pattern: &Pattern) -> Result<bool, AllocError>
    ensures { IfOk result (λ b. IsTrue b ↔ IsMet pattern.now) }
{
    decides(alloc, pattern, &[])
}

/// Whether it covers such a resource that none of those that come before it covers. If not, its profile never decides.
pub fn decides(alloc: Global, pattern: &Pattern, before: &[Pattern]) -> Result<bool, AllocError>
    ensures { IfOk result (λ b. b ≡ decides pattern.now before.now) }
{
    Ok(decides_fixed(alloc, pattern, before)? || decides_named(alloc, pattern, before)?)
}
