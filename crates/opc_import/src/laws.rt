//! The laws of what a policy file means.
ghost use Rattle.opc_import.specs.Laws.{FirstFaultIsNamed};

/// A record is a row if and only if each column has what its kind takes there; otherwise the first bad column is named.
pub fn first_fault_is_named()
    ensures { FirstFaultIsNamed }
{}
