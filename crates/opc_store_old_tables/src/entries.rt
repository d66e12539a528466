//! The access lists of older tables, whose entries count at every console.
ghost use Rattle.std.specs.Prelude.{◌≡◌, false};
ghost use Rattle.opc_state.specs.Loads.{access_list};
ghost use Rattle.opc_store_sql.specs.Steps.{Looks};
ghost use Rattle.opc_store_old_tables.specs.Read.{FindsOld};

use opc_names::class::Class;
use opc_names::name::Pattern;
use opc_policy_members::entries::Entries;
use opc_store_profiles::entries::entries_in;
use opc_store_schema::queries::read;
use opc_terms::store_fault::StoreFault;
use sqlite::{Alter, Connection, params};
use std::alloc::Global;

/// The access list of the profile of a class and a pattern.
pub fn access_list_on<S: Alter>(
    alloc: Global,
    conn: &mut Connection<S>,
    class: Class,
    pattern: &Pattern,
) -> Result<Entries, StoreFault>
    requires { conn.old.in_transaction ≡ false }
    ensures mode { conn.new.in_transaction ≡ false }
    ensures looks { Looks S.Store conn.old conn.new result }
    ensures found { FindsOld S.Store conn.old conn.new result (λ s v. v ≡ access_list s.policy class pattern.now) }
{
    let rows = read(
        conn,
        "SELECT class, pattern, id, '', level FROM entries WHERE class = ?1 AND pattern = ?2 ORDER BY id",
        params![class.text(), pattern.text()],
    )?;
    entries_in(alloc, rows.as_slice())
}
