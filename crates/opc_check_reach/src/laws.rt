//! The laws of patterns that are met, and of those that decide.
ghost use Rattle.opc_check_reach.specs.Laws.{BasePatternsAreMet, FormsAreAsked, MistypedAreNotMet, StarsAreMet};

/// A pattern decides a resource of one of the forms exactly if it decides one about which the gate asks: one that a
/// command needs, or that showing a line needs.
pub fn forms_are_asked()
    ensures { FormsAreAsked }
{}

/// Each pattern of the base policy covers a resource about which the gate asks.
pub fn base_patterns_are_met()
    ensures { BasePatternsAreMet }
{}

/// Mistyped patterns cover none.
pub fn mistyped_are_not_met()
    ensures { MistypedAreNotMet }
{}

/// A pattern of `**` alone covers one.
pub fn stars_are_met()
    ensures { StarsAreMet }
{}
