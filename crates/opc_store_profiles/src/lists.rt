//! The access lists of many profiles, out of the rows of one query.
ghost use Rattle.std.specs.Prelude.{◌≡◌, ◌≤◌, List, IfOk, filter, length, map, take_while, false, true};
ghost use Rattle.std.specs.List.Sorted.{IsPartitionPoint, IsPartitionedBy};
ghost use Rattle.opc_policy_members.specs.declared.profile.Profile.{Profile as TheProfile};
ghost use Rattle.opc_store_profiles.specs.Lists.{AreByPattern, HasList, HaveLists, is_before, is_of, pattern_in};
ghost use Rattle.opc_store_schema.specs.Represented.{profile_row};

use crate::entries::entries_in;
use crate::profiles::profile_in;
use opc_policy_members::profile::Profile;
use opc_terms::store_fault::StoreFault;
use sqlite::Row;
use sqlite::types::ValueRef;
use std::alloc::Global;

// The pattern of the profile that an entry is of.
fn pattern_in(row: &Row) -> &[u8]
    ensures { result.now ≡ pattern_in row.now }
{
    match row.get_ref(1) {
        Ok(ValueRef::Text(text)) => text,
        // Only damaged tables have no text here; the access list of such a row is then nobody's.
        _ => &[],
    }
}

fn is_before(row: &Row, pattern: &str) -> bool
    ensures { result ≡ is_before pattern.now row.now }
{
    pattern_in(row) < pattern.as_bytes()
}

fn is_of(row: &Row, pattern: &str) -> bool
    ensures { result ≡ is_of pattern.now row.now }
{
    pattern_in(row) == pattern.as_bytes()
}

// Where the rows of a pattern begin, or would, among rows in the order of their patterns.
fn first_of(rows: &[Row], pattern: &str) -> usize
    ensures bound { result ≤ length rows.now }
    ensures split { IsPartitionedBy (is_before pattern.now) rows.now
        → IsPartitionPoint (λ row. is_before pattern.now row ≡ true) (λ row. is_before pattern.now row ≡ false) rows.now
        result }
{
    rows.partition_point(|row| is_before(row, pattern))
}

// How many rows of a pattern come first.
fn count_of(rows: &[Row], pattern: &str) -> usize
    ensures bound { result ≤ length rows.now }
    ensures count { result ≡ length (take_while (is_of pattern.now) rows.now) }
{
    rows.iter().take_while(|row| is_of(row, pattern)).count()
}

// The rows of a pattern, of rows in the order of their patterns.
fn rows_of<'a>(rows: &'a [Row], pattern: &str) -> &'a [Row]
    ensures { AreByPattern rows.now → result.now ≡ filter (is_of pattern.now) rows.now }
{
    let later = &rows[first_of(rows, pattern)..];
    &later[..count_of(later, pattern)]
}

// The profile of a row, with its access list.
fn whole_of(alloc: Global, row: &Row, entries: &[Row]) -> Result<Profile, StoreFault>
    ensures { (p : TheProfile) → row.now ≡ profile_row p → AreByPattern entries.now → HasList entries.now p
        → IfOk result (λ v. v ≡ p) }
{
    let profile = profile_in(alloc, row)?;
    let list = rows_of(entries, profile.pattern.text());
    Ok(Profile {
        entries: entries_in(alloc, list)?,
        ..profile
    })
}

/// The profiles of some rows, each with its access list.
pub(crate) fn whole_in(
    alloc: Global,
    rows: &[Row],
    entries: &[Row],
) -> Result<Vec<Profile>, StoreFault>
    ensures { (profiles : List TheProfile) → HaveLists entries.now profiles → rows.now ≡ map profile_row profiles
        → IfOk result (λ v. v.items ≡ profiles) }
{
    let mut profiles = Vec::new(alloc);
    for row in rows {
        profiles.push(whole_of(alloc, row, entries)?)?;
    }
    Ok(profiles)
}
