//! The profiles of a class whose heads lie between two texts.
ghost use Rattle.std.specs.Prelude.{◌≡◌, false, map, OnOk};
ghost use Rattle.sqlite.specs.Held.{state};
ghost use Rattle.sqlite.specs.State.{HasCleanDisk};
ghost use Rattle.opc_store_sql.specs.Steps.{Looks};
ghost use Rattle.opc_policy_members.specs.Profiles.{of_class};
ghost use Rattle.opc_policy_shared.specs.Shared.{with_heads_between};
ghost use Rattle.opc_state.specs.Loads.{bare};
ghost use Rattle.opc_store_profiles.specs.Keys.{AreKeyed};
ghost use Rattle.opc_store_schema.specs.Asked.{Finds};

use opc_names::class::Class;
use opc_policy_members::profile::Profile;
use opc_store_profiles::profiles::{definitions_in, see_profiles_on};
use opc_store_schema::queries::read;
use opc_terms::store_fault::StoreFault;
use sqlite::{Alter, Connection, params};
use std::alloc::Global;

/// The profiles of a class whose heads lie between two texts, in the order of their keys.
const BETWEEN: &str =
    "SELECT class, pattern, owner, uacc, warning, skey, head FROM profiles WHERE class = ?1 AND head >= ?2 AND head <= ?3 ORDER BY class, skey";

/// The profiles of a class whose heads lie between two texts, both among them, in the order of their patterns, but for
/// their access lists.
pub fn definitions_between_on<S: Alter>(
    alloc: Global,
    conn: &mut Connection<S>,
    class: Class,
    first: &str,
    last: &str,
) -> Result<Vec<Profile>, StoreFault>
    requires { conn.old.in_transaction ≡ false }
    ensures mode { conn.new.in_transaction ≡ false }
    ensures looks { Looks S.Store conn.old conn.new result }
    ensures found { Finds S.Store conn.old conn.new result
        (λ s v. v.items ≡ with_heads_between first.now last.now (map bare (of_class class s.policy.profiles))) }
{
    let rows = read(conn, BETWEEN, params![class.text(), first, last])?;
    definitions_in(alloc, rows.as_slice())
}

/// The same where no profile was read since the tables were opened. A profile whose class is neither of the two, or
/// whose head is not its pattern's, may lie elsewhere, so each profile is read once before the first search.
pub fn first_definitions_between_on<S: Alter>(
    alloc: Global,
    conn: &mut Connection<S>,
    class: Class,
    first: &str,
    last: &str,
) -> Result<Vec<Profile>, StoreFault>
    requires { conn.old.in_transaction ≡ false }
    ensures mode { conn.new.in_transaction ≡ false }
    ensures looks { Looks S.Store conn.old conn.new result }
    ensures seen { HasCleanDisk (state S.Store conn.new) → OnOk result (AreKeyed (state S.Store conn.old).now) }
    ensures found { Finds S.Store conn.old conn.new result
        (λ s v. v.items ≡ with_heads_between first.now last.now (map bare (of_class class s.policy.profiles))) }
{
    see_profiles_on(alloc, conn)?;
    definitions_between_on(alloc, conn, class, first, last)
}
