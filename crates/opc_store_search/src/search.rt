//! The search for the profile that decides, over the tables.
ghost use Rattle.std.specs.Prelude.{◌≡◌, ◌+◌, false, find, length, List, IfOk, OnOk};
ghost use Rattle.std.specs.Option.{option_map};
ghost use Rattle.sqlite.specs.Held.{state};
ghost use Rattle.sqlite.specs.State.{HasCleanDisk};
ghost use Rattle.sqlite.specs.Values.{bound};
ghost use Rattle.opc_store_sql.specs.Steps.{Looks, NeverWrites};
ghost use Rattle.opc_store_sql.specs.Taken.{taken_for};
ghost use Rattle.opc_policy_members.specs.Profiles.{of_class};
ghost use Rattle.opc_policy.specs.Deciding.{deciding};
ghost use Rattle.opc_policy.specs.Examined.{examined, head_length, read_until, with_head};
ghost use Rattle.opc_policy_members.specs.declared.profile.Profile.{Profile as TheProfile};
ghost use Rattle.opc_state.specs.Loads.{bare};
ghost use Rattle.opc_state.specs.State.{State, deciding_in};
ghost use Rattle.opc_store_schema.specs.Asked.{Finds};
ghost use Rattle.opc_store_schema.specs.Represented.{Represents};
ghost use Rattle.opc_store_profiles.specs.Keys.{AreKeyed};
ghost use Rattle.opc_store_search.specs.Search.{Selects, covers};

use crate::source::TableProfiles;
use opc_names::class::Class;
use opc_names::name::Resource;
use opc_policy::source::Taken;
use opc_policy::{Found, search};
use opc_policy_members::profile::Profile;
use opc_store_profiles::entries::access_list_on;
use opc_store_profiles::profiles::{BY_CLASS, profile_in, see_profiles_on};
use opc_store_schema::faults::fault;
use opc_terms::store_fault::StoreFault;
use sqlite::types::ValueRef;
use sqlite::{Alter, Connection, params};
use std::alloc::Global;

/// The profiles of a class with a head, in the order of their keys. A constant that its lemmas read, so that the prover
/// refuses a text with another order.
const BY_HEAD: &str =
    "SELECT class, pattern, owner, uacc, warning, skey, head FROM profiles WHERE class = ?1 AND head = ?2 ORDER BY class, skey";

/// The first profile that covers a resource, of those that a query selects, but without its access list, and how many
/// were read for it. The rows are taken one at a time, and reading stops at the first cover.
fn first_covering_on<S: Alter>(
    alloc: Global,
    conn: &mut Connection<S>,
    sql: &str,
    params: &[ValueRef<'_>],
    resource: &Resource,
) -> Result<Taken, StoreFault>
    requires quiet { NeverWrites sql.now }
    requires mode { conn.old.in_transaction ≡ false }
    ensures mode { conn.new.in_transaction ≡ false }
    ensures looks { Looks S.Store conn.old conn.new result }
    ensures found { HasCleanDisk (state S.Store conn.new) → (select : State → List TheProfile)
        → Selects S.Store sql.now (bound params.now) select → (s : State) → Represents (state S.Store conn.old).now s
        → IfOk result (λ taken.
        (taken.profile ≡ option_map bare (find (covers resource.now) (select s)))
        × (taken.rows ≡ taken_for (covers resource.now) (select s))) }
{
    // For the prover alone: this call's clause states that outside a transaction all that is stored is committed.
    let _settled = conn.is_autocommit();
    let mut rows = match conn.query(sql, params) {
        Ok(rows) => rows,
        Err(error) => return Err(fault(error)),
    };
    'rows: for at in 0..u64::MAX {
        let row = match rows.next() {
            Ok(row) => row,
            Err(error) => return Err(fault(error)),
        };
        let Some(row) = row else {
            return Ok(Taken {
                profile: None,
                rows: at,
            });
        };
        let profile = profile_in(alloc, row)?;
        if profile.pattern.covers(resource) {
            return Ok(Taken {
                profile: Some(profile),
                rows: at + 1,
            });
        }
    }
    Err(StoreFault::Store)
}

/// The first profile that covers a resource, in the order of the patterns, of those of a class with this very head, but
/// without its access list, and how many were read for it.
pub(crate) fn first_with_head_on<S: Alter>(
    alloc: Global,
    conn: &mut Connection<S>,
    class: Class,
    head: &str,
    resource: &Resource,
) -> Result<Taken, StoreFault>
    requires { conn.old.in_transaction ≡ false }
    ensures mode { conn.new.in_transaction ≡ false }
    ensures looks { Looks S.Store conn.old conn.new result }
    ensures first { Finds S.Store conn.old conn.new result (λ s taken.
        taken.profile ≡ option_map bare (deciding (with_head head.now (of_class class s.policy.profiles))
        resource.now)) }
    ensures rows { Finds S.Store conn.old conn.new result (λ s taken.
        taken.rows ≡ length (read_until (deciding (with_head head.now (of_class class s.policy.profiles)) resource.now)
        (with_head head.now (of_class class s.policy.profiles)))) }
{
    first_covering_on(alloc, conn, BY_HEAD, params![class.text(), head], resource)
}

/// The same with its access list.
pub fn first_in_on<S: Alter>(
    alloc: Global,
    conn: &mut Connection<S>,
    class: Class,
    head: &str,
    resource: &Resource,
) -> Result<Taken, StoreFault>
    requires { conn.old.in_transaction ≡ false }
    ensures mode { conn.new.in_transaction ≡ false }
    ensures looks { Looks S.Store conn.old conn.new result }
    ensures first { Finds S.Store conn.old conn.new result (λ s taken.
        taken.profile ≡ deciding (with_head head.now (of_class class s.policy.profiles)) resource.now) }
    ensures rows { Finds S.Store conn.old conn.new result (λ s taken.
        taken.rows ≡ length (read_until taken.profile (with_head head.now (of_class class s.policy.profiles)))) }
{
    let taken = first_covering_on(alloc, conn, BY_HEAD, params![class.text(), head], resource)?;
    let Taken { profile, rows } = taken;
    let Some(profile) = profile else {
        return Ok(Taken {
            profile: None,
            rows,
        });
    };
    let entries = access_list_on(alloc, conn, profile.class, &profile.pattern)?;
    Ok(Taken {
        profile: Some(Profile { entries, ..profile }),
        rows,
    })
}

/// The first profile of a class that covers a resource, in the order of the patterns, and how many were read for it.
pub fn first_on<S: Alter>(
    alloc: Global,
    conn: &mut Connection<S>,
    class: Class,
    resource: &Resource,
) -> Result<Taken, StoreFault>
    requires { conn.old.in_transaction ≡ false }
    ensures mode { conn.new.in_transaction ≡ false }
    ensures looks { Looks S.Store conn.old conn.new result }
    ensures first { Finds S.Store conn.old conn.new result (λ s taken.
        taken.profile ≡ deciding_in s.policy class resource.now) }
    ensures rows { Finds S.Store conn.old conn.new result (λ s taken.
        taken.rows ≡ length (read_until taken.profile (of_class class s.policy.profiles))) }
{
    let taken = first_covering_on(alloc, conn, BY_CLASS, params![class.text()], resource)?;
    let Taken { profile, rows } = taken;
    let Some(profile) = profile else {
        return Ok(Taken {
            profile: None,
            rows,
        });
    };
    let entries = access_list_on(alloc, conn, profile.class, &profile.pattern)?;
    Ok(Taken {
        profile: Some(Profile { entries, ..profile }),
        rows,
    })
}

/// The profile of a class that decides a resource, but without its access list: the search by heads asks the tables for
/// the prefixes of the name, from the whole name down to the empty one, until a profile covers.
pub fn deciding_on<S: Alter>(
    alloc: Global,
    conn: &mut Connection<S>,
    class: Class,
    resource: &Resource,
) -> Result<Found, StoreFault>
    requires { conn.old.in_transaction ≡ false }
    ensures mode { conn.new.in_transaction ≡ false }
    ensures looks { Looks S.Store conn.old conn.new result }
    ensures found { Finds S.Store conn.old conn.new result (λ s found.
        found.profile ≡ option_map bare (deciding_in s.policy class resource.now)) }
    ensures ranges { Finds S.Store conn.old conn.new result (λ s found.
        found.ranges + head_length found.profile ≡ length resource.now + 1) }
    ensures rows { Finds S.Store conn.old conn.new result (λ s found.
        found.rows ≡ length (examined found.profile resource.now (of_class class s.policy.profiles))) }
{
    search(&mut TableProfiles { alloc, conn }, class, resource)
}

/// The same where no profile was read since the tables were opened. A search by heads skips a profile whose class is
/// neither of the two, or whose head is not its pattern's, so each profile is read once before the first one.
pub fn first_deciding_on<S: Alter>(
    alloc: Global,
    conn: &mut Connection<S>,
    class: Class,
    resource: &Resource,
) -> Result<Found, StoreFault>
    requires { conn.old.in_transaction ≡ false }
    ensures mode { conn.new.in_transaction ≡ false }
    ensures looks { Looks S.Store conn.old conn.new result }
    ensures seen { HasCleanDisk (state S.Store conn.new) → OnOk result (AreKeyed (state S.Store conn.old).now) }
    ensures found { Finds S.Store conn.old conn.new result (λ s found.
        found.profile ≡ option_map bare (deciding_in s.policy class resource.now)) }
{
    see_profiles_on(alloc, conn)?;
    deciding_on(alloc, conn, class, resource)
}
