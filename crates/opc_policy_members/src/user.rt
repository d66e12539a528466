//! Users.
use opc_names::name::UserId;

/// A user of the policy. The digest is the SHA-256 of the password; without one the user cannot log on. A RESTRICTED
/// user gets nothing of what a profile gives to everyone.
#[derive(Clone, Copy, PartialEq, Eq)]
pub struct User {
    pub id: UserId,
    pub special: bool,
    pub auditor: bool,
    pub revoked: bool,
    pub digest: Option<[u8; 32]>,
    pub restricted: bool,
}
