//! What holds of every state stays so, each as what a call without a body ensures.
ghost use Rattle.opc_machine_invariants.specs.KeptInvariants.{
  BootstrapsKeepInvariants,
  EmptyHasInvariants,
  InvariantsGiveKeys,
  RunsKeepInvariants,
  StepsKeepInvariants,
};

/// The empty state has the invariants of a state.
pub fn empty_state_has_invariants()
    ensures { EmptyHasInvariants }
{}

/// By the invariants, the keyed lists of a state are in the order of their keys.
pub fn invariants_give_keys()
    ensures { InvariantsGiveKeys }
{}

/// A step keeps the invariants of a state: those of the board, that no user and group have one name, that whoever is
/// logged on at a console is stored, and so is whatever a connect, an owner or an access list names, and that users,
/// groups, connects, profiles and access lists are in the order of their keys, of which none comes twice.
pub fn steps_keep_invariants()
    ensures { StepsKeepInvariants }
{}

/// A run keeps the invariants of a state.
pub fn runs_keep_invariants()
    ensures { RunsKeepInvariants }
{}

/// A first policy keeps the invariants of a state.
pub fn bootstraps_keep_invariants()
    ensures { BootstrapsKeepInvariants }
{}
