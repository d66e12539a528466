//! All edits of a migration.
ghost use Rattle.std.specs.Prelude.{◌≡◌, false};
ghost use Rattle.opc_store_sql.specs.Steps.{Looks};
ghost use Rattle.opc_store_old_tables.specs.MigrationEdits.{AreMigrationEditsOf};
ghost use Rattle.opc_store_old_tables.specs.Read.{FindsOld};

use crate::batches::batches_on;
use crate::connects::connects_on;
use crate::profiles::profiles_on;
use crate::users::users_on;
use opc_state::change::Edit;
use opc_terms::store_fault::StoreFault;
use sqlite::{Alter, Connection};

/// Upserts of the users, the connects, the profiles with their access lists, and the stored batches. Each part refers
/// to those before it alone.
#[derive(Drop)]
pub struct MigrationEdits {
    pub users: Vec<Edit>,
    pub connects: Vec<Edit>,
    pub profiles: Vec<Edit>,
    pub batches: Vec<Edit>,
}

/// The upserts that bring what tables of version 1 or 2 hold into those of version 3.
pub fn migration_edits_on<S: Alter>(conn: &mut Connection<S>) -> Result<MigrationEdits, StoreFault>
    requires { conn.old.in_transaction ≡ false }
    ensures mode { conn.new.in_transaction ≡ false }
    ensures looks { Looks S.Store conn.old conn.new result }
    ensures found { FindsOld S.Store conn.old conn.new result (λ s v. AreMigrationEditsOf s v) }
{
    let users = users_on(conn)?;
    let connects = connects_on(conn)?;
    let profiles = profiles_on(conn)?;
    let batches = batches_on(conn)?;
    Ok(MigrationEdits {
        users,
        connects,
        profiles,
        batches,
    })
}
