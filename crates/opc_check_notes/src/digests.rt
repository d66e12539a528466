//! Users by their digests.
ghost use Rattle.std.specs.Prelude.{◌≡◌, ℕ, List, IfOk, OnOk, Some};
ghost use Rattle.std.specs.BTreeMap.{get};
ghost use Rattle.std.specs.Option.{option_or};
ghost use Rattle.opc_policy_members.specs.Members.{name_cmp};
ghost use Rattle.opc_check_notes.specs.Digests.{HasDigests, digest_at, digest_of, user_of};
ghost use Rattle.opc_check_notes.specs.First.{paired};

use crate::kinds::ByKind;
use crate::numbered::NumberedRow;
use opc_import::kind::Kind;
use opc_names::name::UserId;
use opc_policy_members::row::Row;
use opc_policy_members::user::User;
use std::alloc::{AllocError, Global};
use std::collections::BTreeMap;

/// The first user with each digest.
pub(crate) type Digests = BTreeMap<[u8; 32], UserId>;

/// The user of a row.
fn user_of(row: &Row) -> Option<User>
    ensures { result ≡ user_of row.now }
{
    match *row {
        Row::User(user) => Some(user),
        // Users alone have digests.
        _ => None,
    }
}

/// Keeps a user at a digest, unless an earlier one has it.
fn keep(digests: &mut Digests, digest: [u8; 32], user: UserId) -> Result<(), AllocError>
    ensures { OnOk result ((q : List ℕ)
        → get name_cmp digests.new q ≡ option_or (get name_cmp digests.old q) (paired q (Some (digest, user)))) }
{
    if digests.contains_key(&digest) {
        return Ok(());
    }
    digests.insert(digest, user)?;
    Ok(())
}

/// Keeps a user at the user's digest, if there is one.
#[tactic(auto, using(crate::proofs::Steps::or_none))]
fn keep_user(digests: &mut Digests, user: &User) -> Result<(), AllocError>
    ensures { OnOk result ((q : List ℕ)
        → get name_cmp digests.new q ≡ option_or (get name_cmp digests.old q) (paired q (digest_of user.now))) }
{
    match user.digest {
        Some(digest) => keep(digests, digest, user.id),
        None => Ok(()),
    }
}

/// Keeps the user of a row, if it has one.
#[tactic(auto, using(crate::proofs::Steps::or_none))]
fn keep_row(digests: &mut Digests, row: &Row) -> Result<(), AllocError>
    ensures { OnOk result ((q : List ℕ)
        → get name_cmp digests.new q ≡ option_or (get name_cmp digests.old q) (paired q (digest_at row.now))) }
{
    match user_of(row) {
        Some(user) => keep_user(digests, &user),
        None => Ok(()),
    }
}

fn digests_among(alloc: Global, rows: &[NumberedRow]) -> Result<Digests, AllocError>
    ensures { IfOk result (λ digests. HasDigests rows.now digests) }
{
    let mut digests = BTreeMap::new(alloc);
    for at in rows {
        keep_row(&mut digests, &at.row)?;
    }
    Ok(digests)
}

/// The first user of these rows with each digest.
pub(crate) fn digests(alloc: Global, rows: &ByKind) -> Result<Digests, AllocError>
    ensures { IfOk result (λ digests. HasDigests rows.now digests) }
{
    digests_among(alloc, rows.of(Kind::User))
}
