//! The profiles of older tables, with their access lists.
ghost use Rattle.std.specs.Prelude.{◌≡◌, List, false, map, Some, IfOk, IsTrue};
ghost use Rattle.sqlite.specs.Held.{state};
ghost use Rattle.sqlite.specs.State.{HasCleanDisk};
ghost use Rattle.opc_policy_members.specs.Profiles.{profile_of};
ghost use Rattle.opc_policy_members.specs.declared.profile.Profile.{Profile as TheProfile};
ghost use Rattle.opc_store_sql.specs.Steps.{Looks};
ghost use Rattle.opc_store_schema.specs.Represented.{definition_row};
ghost use Rattle.opc_store_old_tables.specs.Old.{RepresentsOld};
ghost use Rattle.opc_store_old_tables.specs.Read.{AreAmong, FindsOld, by_text, profile_puts};

use crate::entries::access_list_on;
use opc_policy_members::profile::Profile;
use opc_state::change::Edit;
use opc_store_profiles::profiles::definition_in;
use opc_store_schema::queries::read;
use opc_terms::store_fault::StoreFault;
use sqlite::{Alter, Connection, Row};
use std::alloc::Global;

/// The profile of a row, with its access list.
fn profile_on<S: Alter>(
    alloc: Global,
    conn: &mut Connection<S>,
    row: &Row,
) -> Result<Profile, StoreFault>
    requires { conn.old.in_transaction ≡ false }
    ensures mode { conn.new.in_transaction ≡ false }
    ensures looks { Looks S.Store conn.old conn.new result }
    ensures found { HasCleanDisk (state S.Store conn.new) → (version : _) → (s : _)
        → RepresentsOld version (state S.Store conn.old).now s → (p : TheProfile) → row.now ≡ definition_row p
        → profile_of s.policy.profiles p.class p.pattern ≡ Some p → IfOk result (λ v. v ≡ p) }
{
    let profile = definition_in(alloc, row)?;
    let entries = access_list_on(alloc, conn, profile.class, &profile.pattern)?;
    Ok(Profile { entries, ..profile })
}

fn profiles_in<S: Alter>(
    alloc: Global,
    conn: &mut Connection<S>,
    rows: &[Row],
) -> Result<Vec<Edit>, StoreFault>
    requires { conn.old.in_transaction ≡ false }
    ensures mode { conn.new.in_transaction ≡ false }
    ensures looks { (HasCleanDisk (state S.Store conn.old) → IsTrue (state S.Store conn.old).is_open)
        → Looks S.Store conn.old conn.new result }
    ensures found { HasCleanDisk (state S.Store conn.new) → (version : _) → (s : _)
        → RepresentsOld version (state S.Store conn.old).now s → (profiles : List TheProfile)
        → AreAmong s.policy.profiles profiles → rows.now ≡ map definition_row profiles
        → IfOk result (λ v. v.items ≡ profile_puts profiles) }
{
    let mut puts = Vec::new(alloc);
    for row in rows {
        puts.push(Edit::PutProfile(profile_on(alloc, conn, row)?))?;
    }
    Ok(puts)
}

/// Upserts of the profiles with their access lists, by the texts of their patterns.
pub fn profiles_on<S: Alter>(conn: &mut Connection<S>) -> Result<Vec<Edit>, StoreFault>
    requires { conn.old.in_transaction ≡ false }
    ensures mode { conn.new.in_transaction ≡ false }
    ensures looks { Looks S.Store conn.old conn.new result }
    ensures found { FindsOld S.Store conn.old conn.new result
        (λ s v. v.items ≡ profile_puts (by_text s.policy.profiles)) }
{
    let rows = read(
        conn,
        "SELECT class, pattern, owner, uacc, warning FROM profiles ORDER BY class, pattern",
        &[],
    )?;
    profiles_in(*rows.allocator(), conn, rows.as_slice())
}
