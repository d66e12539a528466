//! What an export keeps, as what a call without a body ensures.
ghost use Rattle.opc_machine_invariants.specs.ComeBack.{ExportsComeBack};

/// The rows that are exported from a state make the same policy in new tables, and the same consoles with their
/// authorities and modes, online and with nobody logged on.
pub fn exports_come_back()
    ensures { ExportsComeBack }
{}
