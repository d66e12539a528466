//! What the other requests leave.
ghost use Rattle.opc_policy_changes.specs.Laws.{OthersLeaveThePolicyFile};

/// A request that may not change what a policy file has of a state leaves it as it is.
pub fn others_leave_the_policy_file()
    ensures { OthersLeaveThePolicyFile }
{}
