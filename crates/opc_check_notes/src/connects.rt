//! Who is in which group.
ghost use Rattle.std.specs.Prelude.{◌≡◌, IfOk, filter_map};
ghost use Rattle.opc_check_notes.specs.declared.numbered.NumberedRow.{NumberedRow as Numbered};
ghost use Rattle.opc_check_notes.specs.Connects.{HasPartners, pair, pairs};

use crate::kinds::ByKind;
use crate::names::copied;
use crate::numbered::NumberedRow;
use crate::sorted_pairs::{SortedPairs, push_if};
use opc_import::kind::Kind;
use opc_names::bytes::Bytes;
use opc_names::name::{GroupName, UserId};
use opc_policy_members::row::Row;
use opc_terms::entry_id::EntryId;
use std::alloc::{AllocError, Global};

/// Whether a connect is looked up by its user or by its group.
#[derive(Clone, Copy)]
pub enum Side {
    User,
    Group,
}

/// The two ids of a connect, the one that it is looked up by first.
type Pair = (Bytes<8>, EntryId);

/// The groups of each user, or the users of each group.
pub(crate) type Partners = SortedPairs<Bytes<8>, EntryId>;

fn group_id(group: &GroupName) -> EntryId
    ensures { result ≡ group.now }
{
    let id: UserId = group.as_kind();
    EntryId::from(id)
}

fn pair(side: Side, row: &Row) -> Option<Pair>
    ensures { result ≡ pair side row.now }
{
    match (side, *row) {
        (Side::User, Row::Connect { user, group }) => {
            Some((copied(user.text()), group_id(&group)))
        }
        (Side::Group, Row::Connect { user, group }) => {
            Some((copied(group.text()), EntryId::from(user)))
        }
        // Only a connect has two ids.
        _ => None,
    }
}

fn pairs_among(alloc: Global, rows: &[NumberedRow], side: Side) -> Result<Vec<Pair>, AllocError>
    ensures { IfOk result (λ list. list.items ≡ filter_map (λ (at : Numbered). pair side at.row) rows.now) }
{
    let mut list = Vec::new(alloc);
    for at in rows {
        push_if(&mut list, pair(side, &at.row))?;
    }
    Ok(list)
}

fn pairs(alloc: Global, rows: &ByKind, side: Side) -> Result<Vec<Pair>, AllocError>
    ensures { IfOk result (λ list. list.items ≡ pairs rows.now side) }
{
    pairs_among(alloc, rows.of(Kind::Connect), side)
}

/// The groups of each user, or the users of each group, in the order of the connects.
pub(crate) fn connects(alloc: Global, rows: &ByKind, side: Side) -> Result<Partners, AllocError>
    ensures { IfOk result (HasPartners rows.now side) }
{
    SortedPairs::sorted(pairs(alloc, rows, side)?)
}
