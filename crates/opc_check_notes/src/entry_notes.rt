//! Notes on groups and entries.
ghost use Rattle.std.specs.Prelude.{◌≡◌, ◌&&◌, ℕ, List};
ghost use Rattle.std.specs.List.{list_all};
ghost use Rattle.opc_check_notes.specs.Connects.{partners};
ghost use Rattle.opc_check_notes.specs.Named.{is_named};
ghost use Rattle.opc_check_notes.specs.declared.connects.Side.TheVariants as side;
ghost use Rattle.opc_check_notes.specs.declared.names.Given.TheVariants as given;
ghost use Rattle.opc_check_notes.specs.declared.note.Finding.TheVariants as found;
ghost use Rattle.opc_check_notes.specs.Notes.{
  empty_group,
  has_own,
  if_so,
  revoked_entry,
  serves_nobody,
};

use crate::effect::RowKey;
use crate::known::Known;
use crate::names::copied;
use crate::note::Finding;
use crate::profiles::if_so;
use opc_names::bytes::Bytes;
use opc_names::level::Level;
use opc_names::name::Pattern;
use opc_policy_members::row::Row;
use opc_terms::entry_id::EntryId;

/// Nobody is in a group.
pub(crate) fn empty_group(known: &Known, row: &Row) -> Option<Finding>
    ensures { result ≡ empty_group known.now row.now }
{
    match *row {
        Row::Group { name } => if_so(!known.has_members(&name), Finding::EmptyGroup(name)),
        // The note is about groups.
        _ => None,
    }
}

/// An entry is for a revoked user.
pub(crate) fn revoked_entry(known: &Known, row: &Row) -> Option<Finding>
    ensures { result ≡ revoked_entry known.now row.now }
{
    match *row {
        Row::Permit {
            class,
            pattern,
            id,
            ..
        } => if_so(
            known.is_revoked(&id),
            Finding::RevokedEntry {
                class,
                pattern,
                user: id,
            },
        ),
        // The note is about entries.
        _ => None,
    }
}

/// Whether a user has an entry of the user's own beside one of a group.
fn has_own(known: &Known, row: &Row, user: &EntryId) -> bool
    ensures { result ≡ has_own known.now row.now user.now }
{
    match *row {
        Row::Permit {
            class,
            pattern,
            when,
            ..
        } => known
            .level_of(&RowKey::Permit(copied(user.text()), class, pattern, when))
            .is_some(),
        // No other row is an entry, beside which another could stand.
        _ => false,
    }
}

fn have_own(known: &Known, row: &Row, users: &[(Bytes<8>, EntryId)]) -> bool
    ensures { result ≡ list_all (λ (p : List ℕ × List ℕ). has_own known.now row.now p.1) users.now }
{
    users.iter().all(|pair| has_own(known, row, &pair.1))
}

/// Whether all users of a group have.
fn users_have_own(known: &Known, row: &Row, group: &EntryId) -> bool
    ensures { result ≡ list_all (has_own known.now row.now) (partners known.now side.Group group.now) }
{
    have_own(known, row, known.users_of(group))
}

/// Whether an entry is for a group all users of which have their own entry beside it.
fn is_idle(known: &Known, row: &Row, id: &EntryId) -> bool
    ensures { result ≡ (is_named known.now given.Group id.now
        && list_all (has_own known.now row.now) (partners known.now side.Group id.now)) }
{
    known.is_group(id) && users_have_own(known, row, id)
}

/// The finding of an entry that serves nobody.
fn idle(
    known: &Known,
    row: &Row,
    pattern: &Pattern,
    group: &EntryId,
    level: Level,
) -> Option<Finding>
    ensures { result ≡ if_so (is_named known.now given.Group group.now
        && list_all (has_own known.now row.now) (partners known.now side.Group group.now))
        (found.ServesNobody pattern.now group.now level) }
{
    if_so(
        is_idle(known, row, group),
        Finding::ServesNobody {
            pattern: *pattern,
            group: *group,
            level,
        },
    )
}

/// All users of a group have their own entry beside that of the group.
pub(crate) fn serves_nobody(known: &Known, row: &Row) -> Option<Finding>
    ensures { result ≡ serves_nobody known.now row.now }
{
    match *row {
        Row::Permit {
            pattern,
            id,
            level,
            ..
        } => idle(known, row, &pattern, &id, level),
        // The note is about entries.
        _ => None,
    }
}
