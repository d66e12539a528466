//! The laws of entries for one console alone, as what a call without a body ensures.
ghost use Rattle.opc_policy_sources.specs.Laws.{HeldAsElsewhere, UnnamedRaisesNone};

/// An entry for one console alone counts there, if its level is higher.
pub fn entries_raise_at_their_console()
    ensures elsewhere { HeldAsElsewhere }
    ensures unnamed { UnnamedRaisesNone }
{}
