//! The outcome of an import: loads, and no change.
ghost use Rattle.std.specs.Prelude.{◌≡◌, ◌∷◌, ◌++◌, [], IfOk, OnOk, None, codes, string_bytes};
ghost use Rattle.std.specs.Fmt.{decimal};
ghost use Rattle.opc_board.specs.Invariants.{Name, console_at};
ghost use Rattle.opc_board.specs.Texts.{columns};
ghost use Rattle.opc_state.specs.declared.change.Edit.TheVariants.{PutBatch};
ghost use Rattle.opc_state.specs.Asked.{Loads};
ghost use Rattle.opc_state.specs.Loads.{batch_rows};
ghost use Rattle.opc_state.specs.State.{State};
ghost use Rattle.opc_machine.specs.Effects.{IsOutcome};
ghost use Rattle.opc_machine.specs.Imports.{
  batch_line,
  batch_of,
  batch_outcome,
  import_outcome,
  new_batch,
  same_batch,
  same_rows,
};

use crate::bootstrap::row_edits_on;
use opc_board::line::{Item, Line};
use opc_board::rows::ConsoleRow;
use opc_board::text::KeptText;
use opc_gate_rulings::requester::{Asking, is_special, requester_on};
use opc_machine::outcome::{Effect, Outcome, refused};
use opc_policy_members::row::Row;
use opc_rows::Rows;
use opc_state::change::{Batch, Edit};
use opc_state::tables::Tables;
use opc_terms::fault::Fault;
use opc_terms::store_fault::StoreFault;
use std::alloc::{AllocError, Global};

fn batch_text(alloc: Global, number: u32, what: &str) -> Result<String, AllocError>
    ensures { IfOk result (λ text. string_bytes text ≡ columns (codes "BATCH" ∷ decimal number ∷ what.now ∷ [])) }
{
    format!(in alloc; "BATCH {number} {what}")
}

// The line of a batch, alone.
#[tactic(auto, using(crate::proofs::Importing::line_text))]
fn batch_lines(alloc: Global, number: u32, what: &str) -> Result<Rows<Line>, AllocError>
    ensures { IfOk result (λ lines. lines ≡ batch_line number what.now ∷ []) }
{
    let text = batch_text(alloc, number, what)?;
    let mut lines = Rows::new(alloc);
    lines.push(Line {
        item: Item::Plain,
        text: KeptText::from(text),
    })?;
    Ok(lines)
}

// The edits of the rows, and the batch after them.
fn keep(alloc: Global, edits: &mut Vec<Edit>, number: u32, rows: &[Row]) -> Result<(), AllocError>
    ensures { OnOk result (edits.new.items ≡ edits.old.items ++ PutBatch (record { number = number; rows = rows.now })
        ∷ []) }
{
    let rows = Rows::from_slice(alloc, rows)?;
    edits.push(Edit::PutBatch(Batch { number, rows }))?;
    Ok(())
}

// A batch with a new number: its rows are taken one after another, all of them or none.
fn new_batch<T: Tables>(
    tables: &mut T,
    alloc: Global,
    number: u32,
    rows: &[Row],
) -> Result<Outcome, StoreFault>
    ensures { Loads T.meaning tables.old tables.new result
        (λ s o. batch_rows s.batches number ≡ None → IsOutcome s (new_batch s number rows.now) o) }
{
    let mut edits = match row_edits_on(tables, alloc, rows) {
        Ok(edits) => edits,
        Err(Fault::NoMemory) => return Err(StoreFault::NoMemory),
        Err(Fault::Store) => return Err(StoreFault::Store),
        Err(fault) => return refused(fault, None),
    };
    keep(alloc, &mut edits, number, rows)?;
    let lines = batch_lines(alloc, number, "KEPT")?;
    Ok(Outcome::Done(Effect {
        edits,
        lines,
        rule: None,
    }))
}

#[tactic(auto, using(crate::proofs::SameLists::same_by_derived))]
fn same_rows(rows: &[Row], others: &[Row]) -> bool
    ensures { result ≡ same_rows rows.now others.now }
{
    rows == others
}

// A batch whose number is stored: nothing is done if its rows are the same.
fn same_batch(alloc: Global, number: u32, kept: &[Row], rows: &[Row]) -> Result<Outcome, StoreFault>
    ensures { (s : State)
        → IfOk result (λ o. IsOutcome s (same_batch s number rows.now
        (record { number = number; rows = kept.now })) o) }
{
    if !same_rows(kept, rows) {
        return refused(Fault::BatchChanged, None);
    }
    let lines = batch_lines(alloc, number, "AGAIN")?;
    Ok(Outcome::Done(Effect {
        edits: Vec::new(alloc),
        lines,
        rule: None,
    }))
}

// The outcome of a batch, by what is stored under its number.
fn batch_on<T: Tables>(
    tables: &mut T,
    alloc: Global,
    number: u32,
    rows: &[Row],
) -> Result<Outcome, StoreFault>
    ensures { Loads T.meaning tables.old tables.new result
        (λ s o. IsOutcome s (batch_outcome s number rows.now (batch_of s.batches number)) o) }
{
    match tables.batch(alloc, number)? {
        None => new_batch(tables, alloc, number, rows),
        Some(kept) => same_batch(alloc, number, kept.as_slice(), rows),
    }
}

/// The outcome of an import at a console, whose row is loaded: first, whether the acting user is SPECIAL (E50), then
/// the number (E56), and only for a new number what is in the way of the rows (E52, E53, E41).
pub fn import_on<T: Tables>(
    tables: &mut T,
    alloc: Global,
    console: Option<ConsoleRow>,
    batch: u32,
    rows: &Rows<Row>,
) -> Result<Outcome, StoreFault>
    ensures { Loads T.meaning tables.old tables.new result
        (λ s o. (name : Name) → console ≡ console_at s.board name
        → IsOutcome s (import_outcome s name batch rows.now) o) }
{
    let requester = match requester_on(tables, alloc, console)? {
        Asking::By(requester) => requester,
        Asking::Refused(refusal) => return Ok(Outcome::Refused(refusal)),
    };
    if !is_special(&requester.user) {
        return refused(Fault::NotSpecial, None);
    }
    batch_on(tables, alloc, batch, rows.as_slice())
}
