//! Which parts of a policy are the same.
ghost use Rattle.std.specs.Prelude.{◌≡◌};
ghost use Rattle.opc_state.specs.Difference.{same_flag};
ghost use Rattle.opc_machine.specs.Imports.{same_user};

use opc_policy_members::user::User;

/// Whether two flags are equal.
pub fn same_flag(flag: bool, other: bool) -> bool
    ensures { result ≡ same_flag flag other }
{
    flag == other
}

/// Whether two users are the same in everything that is stored of them.
pub fn same_user(user: &User, other: &User) -> bool
    ensures { result ≡ same_user user.now other.now }
{
    user == other
}
