//! Users' own entries that give less than one of a group.
ghost use Rattle.std.specs.Prelude.{◌≡◌, ℕ, List, Some, map, option_map};
ghost use Rattle.opc_check_notes.specs.declared.connects.Side.TheVariants as side;
ghost use Rattle.opc_check_notes.specs.Connects.{partners};
ghost use Rattle.opc_check_notes.specs.First.{first_of};
ghost use Rattle.opc_check_notes.specs.declared.groups.Ranked.{Ranked as RankedFinding};
ghost use Rattle.opc_check_notes.specs.Notes.{above, group_above, own_below_group};
ghost use Rattle.opc_check_notes.specs.Ranked.{earlier, first_ranked, place_of, ranked};

use crate::effect::RowKey;
use crate::entries::EntryPlace;
use crate::known::Known;
use crate::names::copied;
use crate::note::Finding;
use crate::profiles::if_so;
use opc_names::bytes::Bytes;
use opc_names::level::Level;
use opc_names::name::Pattern;
use opc_policy_members::row::Row;
use opc_terms::entry_id::EntryId;

/// A group whose entry gives more than an own entry.
fn above(
    pattern: &Pattern,
    user: &EntryId,
    level: Level,
    group: &EntryId,
    higher: Option<Level>,
) -> Option<Finding>
    ensures { result ≡ above pattern.now user.now level group.now higher }
{
    match higher {
        Some(higher) => if_so(
            !level.includes(higher),
            Finding::OwnBelowGroup {
                pattern: *pattern,
                user: *user,
                level,
                group: *group,
                higher,
            },
        ),
        None => None,
    }
}

/// The same, by the entry of the group at the same console or at every one.
fn group_above(known: &Known, row: &Row, group: &EntryId) -> Option<Finding>
    ensures { result ≡ group_above known.now row.now group.now }
{
    match *row {
        Row::Permit {
            class,
            pattern,
            id,
            level,
            when,
        } => {
            let key = RowKey::Permit(copied(group.text()), class, pattern, when);
            let higher = known.level_of(&key);
            above(&pattern, &id, level, group, higher)
        }
        // No other row is an entry, above which another could stand.
        _ => None,
    }
}

/// The first of the groups after these ids whose entry gives more.
fn first_above(known: &Known, row: &Row, groups: &[(Bytes<8>, EntryId)]) -> Option<Finding>
    ensures { result ≡ first_of (λ (p : List ℕ × List ℕ). group_above known.now row.now p.1) groups.now }
{
    for pair in groups {
        match group_above(known, row, &pair.1) {
            Some(finding) => return Some(finding),
            None => {}
        }
    }
    None
}

/// What is found by a group, with the number of the row that connects the user with it.
#[derive(Clone, Copy)]
pub(crate) struct Ranked {
    pub(crate) number: u64,
    pub(crate) finding: Finding,
}

fn with_number(number: Option<u64>, finding: Finding) -> Option<Ranked>
    ensures { result ≡ option_map (λ (n : ℕ). record { number = n; finding = finding }) number }
{
    match number {
        Some(number) => Some(Ranked { number, finding }),
        None => None,
    }
}

/// What is found by a group, if the user is in it.
fn ranked_by(known: &Known, row: &Row, user: &EntryId, group: &EntryId) -> Option<Ranked>
    ensures { result ≡ ranked known.now row.now user.now group.now }
{
    match group_above(known, row, group) {
        Some(finding) => with_number(known.number_of(user, group), finding),
        None => None,
    }
}

/// The one of two with the lower number.
fn earlier(first: Option<Ranked>, other: Option<Ranked>) -> Option<Ranked>
    ensures { result ≡ earlier first other }
{
    match (first, other) {
        (Some(one), Some(two)) => {
            if two.number < one.number {
                Some(two)
            } else {
                Some(one)
            }
        }
        (None, two) => two,
        (one, None) => one,
    }
}

/// What is found by the first group, in the order of the connects, of those after these places.
fn first_ranked(
    known: &Known,
    row: &Row,
    user: &EntryId,
    groups: &[(EntryPlace, EntryId)],
) -> Option<Ranked>
    ensures { result ≡ first_ranked known.now row.now user.now (map (λ p. p.1) groups.now) }
{
    let mut first = None;
    for pair in groups {
        first = earlier(first, ranked_by(known, row, user, &pair.1));
    }
    first
}

fn finding_of(ranked: Option<Ranked>) -> Option<Finding>
    ensures { result ≡ option_map (λ (r : RankedFinding). r.finding) ranked }
{
    match ranked {
        Some(ranked) => Some(ranked.finding),
        None => None,
    }
}

/// What is found by the first group of a user, by a walk through the user's groups.
fn above_by_connects(known: &Known, row: &Row, user: &EntryId) -> Option<Finding>
    ensures { result ≡ first_of (group_above known.now row.now) (partners known.now side.User user.now) }
{
    first_above(known, row, known.groups_of(user))
}

/// The same, by a walk through the groups that have an entry at the place.
fn above_by_entries(known: &Known, row: &Row, user: &EntryId, place: &EntryPlace) -> Option<Finding>
    requires { place_of row.now ≡ Some place.now }
    ensures { result ≡ first_of (group_above known.now row.now) (partners known.now side.User user.now) }
{
    finding_of(first_ranked(known, row, user, known.groups_at(place)))
}

/// The same, by the shorter walk of the two.
fn above_by_group(known: &Known, row: &Row, user: &EntryId, place: &EntryPlace) -> Option<Finding>
    requires { place_of row.now ≡ Some place.now }
    ensures { result ≡ first_of (group_above known.now row.now) (partners known.now side.User user.now) }
{
    // At most places no group has an entry: then the user's groups are not looked up.
    let entries = known.groups_at(place).len();
    if entries == 0 || entries < known.groups_of(user).len() {
        above_by_entries(known, row, user, place)
    } else {
        above_by_connects(known, row, user)
    }
}

/// A user's own entry gives less than that of a group of the user.
pub(crate) fn own_below_group(known: &Known, row: &Row) -> Option<Finding>
    ensures { result ≡ own_below_group known.now row.now }
{
    match *row {
        Row::Permit {
            class,
            pattern,
            id,
            when,
            ..
        } => above_by_group(
            known,
            row,
            &id,
            &EntryPlace {
                class,
                pattern,
                when,
            },
        ),
        // The note is about entries.
        _ => None,
    }
}
