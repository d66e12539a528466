//! The law of the deciding profile, as what a call without a body ensures.
ghost use Rattle.opc_policy.specs.Laws.{DecidingIsMostSpecific, OneIsDeciding};

/// The profile that is computed is the most specific one, and no other is.
pub fn the_most_specific_profile_decides()
    ensures most_specific { DecidingIsMostSpecific }
    ensures only { OneIsDeciding }
{}
