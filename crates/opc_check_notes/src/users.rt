//! Notes on users.
ghost use Rattle.std.specs.Prelude.{◌≡◌};
ghost use Rattle.opc_check_notes.specs.Notes.{no_access, no_digest, one_special, other_with, same_digest};

use crate::known::Known;
use crate::note::Finding;
use crate::profiles::if_so;
use opc_names::name::UserId;
use opc_policy_members::row::Row;
use opc_policy_members::user::User;

/// Nobody can log on as a user: the user has no digest, and no console acts for the user.
pub(crate) fn no_digest(known: &Known, row: &Row) -> Option<Finding>
    ensures { result ≡ no_digest known.now row.now }
{
    match *row {
        Row::User(user) => if_so(
            user.digest.is_none() && !user.revoked && !known.has_console(&user.id),
            Finding::NoDigest(user.id),
        ),
        // The note is about users.
        _ => None,
    }
}

/// Another user who has the digest of a user, if it is another one.
fn other_with(id: UserId, first: Option<UserId>) -> Option<Finding>
    ensures { result ≡ other_with id first }
{
    match first {
        Some(other) => if_so(other != id, Finding::SameDigest { user: id, other }),
        None => None,
    }
}

/// An earlier user has the digest of a user.
pub(crate) fn same_digest(known: &Known, row: &Row) -> Option<Finding>
    ensures { result ≡ same_digest known.now row.now }
{
    match *row {
        Row::User(
            User {
                id,
                digest: Some(digest),
                ..
            },
        ) => other_with(id, known.first_with(&digest)),
        // The user has no digest, or the row is no user's.
        _ => None,
    }
}

/// One user alone has SPECIAL.
pub(crate) fn one_special(known: &Known, row: &Row) -> Option<Finding>
    ensures { result ≡ one_special known.now row.now }
{
    match *row {
        Row::User(user) => if_so(
            user.special && !user.revoked && known.specials() == 1,
            Finding::OneSpecial(user.id),
        ),
        // The note is about users.
        _ => None,
    }
}

/// A user is in no group and no access list.
pub(crate) fn no_access(known: &Known, row: &Row) -> Option<Finding>
    ensures { result ≡ no_access known.now row.now }
{
    match *row {
        Row::User(user) => if_so(
            !(known.is_connected(&user.id) || known.is_holder(&user.id)),
            Finding::NoAccess(user.id),
        ),
        // The note is about users.
        _ => None,
    }
}
