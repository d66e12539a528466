//! Who is named.
ghost use Rattle.std.specs.Prelude.{◌≡◌, false};
ghost use Rattle.opc_store_sql.specs.Steps.{Looks};
ghost use Rattle.opc_state.specs.Loads.{is_named};
ghost use Rattle.opc_store_schema.specs.Asked.{Finds};

use opc_names::name::UserId;
use opc_store_profiles::entries::has_entry_on;
use opc_store_profiles::profiles::has_owner_on;
use opc_store_users::connects::has_connect_on;
use opc_terms::store_fault::StoreFault;
use sqlite::{Alter, Connection};

/// Whether a connect, an owner or an access list names this user. Three queries for one row each, by a key, not one
/// over the whole policy.
pub fn is_named_on<S: Alter>(conn: &mut Connection<S>, user: &UserId) -> Result<bool, StoreFault>
    requires { conn.old.in_transaction ≡ false }
    ensures mode { conn.new.in_transaction ≡ false }
    ensures looks { Looks S.Store conn.old conn.new result }
    ensures found { Finds S.Store conn.old conn.new result (λ s v. v ≡ is_named s.policy user.now) }
{
    let connected = has_connect_on(conn, user)?;
    if connected {
        return Ok(true);
    }
    let owner = has_owner_on(conn, user)?;
    if owner {
        return Ok(true);
    }
    has_entry_on(conn, user)
}
