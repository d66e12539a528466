//! What a user may change of the policy, and see of it and of the account.
ghost use Rattle.std.specs.Prelude.{◌≡◌, IfOk, string_bytes};
ghost use Rattle.opc_answers_may.specs.Changes.{changes_as_owner, owned_thing};
ghost use Rattle.opc_answers_may.specs.MayTexts.{is_silent};

use crate::may::May;
use opc_policy_members::profile::Profile;
use opc_policy_members::user::User;
use std::alloc::{AllocError, Global};

/// Whether nothing is said: of a revoked user, and if `allowed` is set, of one who cannot log on.
pub(crate) fn is_silent(may: &May, allowed: bool) -> bool
    ensures { result ≡ is_silent allowed may.now }
{
    may.member.user.revoked || (allowed && may.no_logon.is_some())
}

/// Whether a user changes a profile as its owner. SPECIAL changes every profile anyway.
pub(crate) fn changes_as_owner(user: &User, profile: &Profile) -> bool
    ensures { result ≡ changes_as_owner user.now profile.now }
{
    !user.special && profile.owner == user.id
}

/// A profile that is owned.
pub(crate) fn owned_thing(alloc: Global, profile: &Profile) -> Result<String, AllocError>
    ensures { IfOk result (λ text. string_bytes text ≡ owned_thing profile.now) }
{
    let (class, pattern) = (profile.class, profile.pattern);
    format!(in alloc; "{class} {pattern}")
}
