//! The law of sort keys and names, as what a call without a body ensures.
ghost use Rattle.opc_names_keys.specs.Laws.{CoveredNamesFollow};

/// A name that a pattern covers follows the pattern's sort key.
pub fn covered_names_follow()
    ensures { CoveredNamesFollow }
{}
