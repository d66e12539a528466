//! The stored batches of older tables, whose texts have fewer columns.
ghost use Rattle.std.specs.Prelude.{◌≡◌, ℕ, List, false, map, Ok, IfOk};
ghost use Rattle.opc_import.specs.Files.{policy_of};
ghost use Rattle.opc_state.specs.declared.change.Batch.{Batch as TheBatch};
ghost use Rattle.opc_store_sql.specs.Steps.{Looks};
ghost use Rattle.opc_store_old_tables.specs.Read.{AreSaid, FindsOld, batch_puts, batch_shown};

use opc_state::change::{Batch, Edit};
use opc_store_history::batches::rows_in;
use opc_store_schema::columns::{text_in, value_in};
use opc_store_schema::queries::read;
use opc_terms::store_fault::StoreFault;
use sqlite::{Alter, Connection, Row};
use std::alloc::Global;

fn batch_in(alloc: Global, row: &Row) -> Result<Batch, StoreFault>
    ensures { (b : TheBatch) → (text_of : TheBatch → List ℕ) → policy_of (text_of b) ≡ Ok b.rows
        → row.now ≡ batch_shown text_of b → IfOk result (λ v. v ≡ b) }
{
    let text = text_in(row, 1)?;
    Ok(Batch {
        number: value_in(row, 0)?,
        rows: rows_in(alloc, &text)?,
    })
}

fn batches_in(alloc: Global, rows: &[Row]) -> Result<Vec<Edit>, StoreFault>
    ensures { (text_of : TheBatch → List ℕ) → (batches : List TheBatch) → AreSaid text_of batches
        → rows.now ≡ map (batch_shown text_of) batches → IfOk result (λ v. v.items ≡ batch_puts batches) }
{
    let mut puts = Vec::new(alloc);
    for row in rows {
        puts.push(Edit::PutBatch(batch_in(alloc, row)?))?;
    }
    Ok(puts)
}

/// Upserts of the stored batches, in order.
pub fn batches_on<S: Alter>(conn: &mut Connection<S>) -> Result<Vec<Edit>, StoreFault>
    requires { conn.old.in_transaction ≡ false }
    ensures mode { conn.new.in_transaction ≡ false }
    ensures looks { Looks S.Store conn.old conn.new result }
    ensures found { FindsOld S.Store conn.old conn.new result (λ s v. v.items ≡ batch_puts s.batches) }
{
    let rows = read(
        conn,
        "SELECT number, rows FROM batches ORDER BY number",
        &[],
    )?;
    batches_in(*rows.allocator(), rows.as_slice())
}
