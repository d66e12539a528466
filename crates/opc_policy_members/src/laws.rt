//! The law of what is held in a profile, as what a call without a body ensures.
ghost use Rattle.opc_policy_members.specs.Held.{ListedGroupsSuffice};

/// What a user holds in a profile depends on no other groups of the user than those with an entry.
pub fn listed_groups_suffice()
    ensures { ListedGroupsSuffice }
{}
