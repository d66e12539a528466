//! Laws of the state, each as what a call without a body ensures.
ghost use Rattle.opc_state.specs.Footprints.{DifferencesAreLocal};

/// What differs within a footprint of two boards is what differs between the boards, if the other rows are the same.
pub fn differences_are_local()
    ensures { DifferencesAreLocal }
{}
