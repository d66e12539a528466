//! The account is not loaded whole. If at most one row was added since it was last counted, one page of three rows
//! states its length. Otherwise one row is loaded at a time, about twice as many as the length has binary digits.
ghost use Rattle.std.specs.Prelude.{◌≡◌, ◌≤◌, ◌<◌, ◌-◌, ◌^◌, IfOk, IfSome, length, nat_le};
ghost use Rattle.opc_state.specs.Asked.{Loads};

use opc_state::tables::Tables;
use opc_terms::store_fault::StoreFault;
use std::alloc::Global;

/// Whether the account has a row of this number.
#[tactic(auto, using(crate::proofs::Counted::row_there))]
fn has_row<T: Tables>(tables: &mut T, alloc: Global, number: u64) -> Result<bool, StoreFault>
    requires { 1 ≤ number }
    ensures { Loads T.meaning tables.old tables.new result (λ s there. there ≡ nat_le number (length s.account)) }
{
    let rows = tables.account(alloc, number, 1)?;
    Ok(!rows.is_empty())
}

/// A number that no row of the account has: a power of two.
fn past_end<T: Tables>(tables: &mut T, alloc: Global) -> Result<u64, StoreFault>
    ensures past { Loads T.meaning tables.old tables.new result (λ s past. length s.account < past) }
    ensures some { IfOk result (λ past. 1 ≤ past) }
{
    let mut past = 1u64;
    for _ in 0..64 {
        if !has_row(tables, alloc, past)? {
            return Ok(past);
        }
        past = past.saturating_mul(2);
    }
    // No table has so many rows.
    Err(StoreFault::Store)
}

/// How many rows the account has: the middle between a row that is there and one that is not is tried.
pub fn account_length<T: Tables>(tables: &mut T, alloc: Global) -> Result<u64, StoreFault>
    ensures count { Loads T.meaning tables.old tables.new result (λ s count. count ≡ length s.account) }
    ensures few { IfOk result (λ count. count < 2 ^ 64 - 1) }
{
    let mut past = past_end(tables, alloc)?;
    let mut known = 0;
    while past - known > 1 {
        let middle = known + (past - known) / 2;
        if has_row(tables, alloc, middle)? {
            known = middle;
        } else {
            past = middle;
        }
    }
    Ok(known)
}

/// How many rows the account has, if it has this many or one more.
#[tactic(auto, using(crate::proofs::Counted::page_ends))]
fn length_near<T: Tables>(
    tables: &mut T,
    alloc: Global,
    last: u64,
) -> Result<Option<u64>, StoreFault>
    requires { 1 ≤ last }
    ensures { Loads T.meaning tables.old tables.new result (λ s found. IfSome found (λ count. count ≡ length s.account)) }
{
    let rows = tables.account(alloc, last, 3)?;
    match rows.len() {
        1 => Ok(Some(last)),
        2 => Ok(last.checked_add(1)),
        // The account is shorter, or has more rows than the page.
        _ => Ok(None),
    }
}

/// How many rows the account has. It had this many when it was last counted, or 0 stands for never: only the cost depends
/// on it.
pub fn account_length_from<T: Tables>(
    tables: &mut T,
    alloc: Global,
    last: u64,
) -> Result<u64, StoreFault>
    ensures { Loads T.meaning tables.old tables.new result (λ s count. count ≡ length s.account) }
{
    if last > 0 {
        if let Some(count) = length_near(tables, alloc, last)? {
            return Ok(count);
        }
    }
    account_length(tables, alloc)
}
