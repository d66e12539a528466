//! Where to begin.
ghost use Rattle.std.specs.Prelude.{◌≡◌, ◌≤◌, IfOk};
ghost use Rattle.opc_state.specs.Asked.{Loads};
ghost use Rattle.opc_account.specs.Queries.{first_number};

use crate::query::First;
use opc_account_length::length::account_length;
use opc_state::tables::Tables;
use opc_terms::store_fault::StoreFault;
use std::alloc::Global;

/// The number of the first row that is looked at.
pub fn first_on<T: Tables>(tables: &mut T, alloc: Global, first: First) -> Result<u64, StoreFault>
    ensures first { Loads T.meaning tables.old tables.new result
        (λ s number. number ≡ first_number first s.account) }
    ensures some { IfOk result (λ number. 1 ≤ number) }
{
    match first {
        First::Number(number) => Ok(number.max(1)),
        First::Last(count) => {
            let rows = account_length(tables, alloc)?;
            Ok(rows.saturating_sub(count) + 1)
        }
    }
}
