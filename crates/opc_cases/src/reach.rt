//! Cases of patterns of OPERCMDS that cover a resource about which the gate asks. Each case is a pattern; it is printed
//! with `met` or `not met` after it.
use anyhow::Result;
use opc_check_reach::met::is_met;
use opc_names::name::Pattern;
use std::alloc::Global;

/// Whether a pattern is met.
pub fn answer(alloc: Global, pattern: &str) -> Result<&'static str> {
    Ok(if is_met(alloc, &Pattern::read(pattern)?)? {
        "met"
    } else {
        "not met"
    })
}
