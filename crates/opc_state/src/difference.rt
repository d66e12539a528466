//! The edits by which one board becomes another.
ghost use Rattle.std.specs.Prelude.{◌≡◌, ◌++◌, [], IfOk, OnOk, find, map};
ghost use Rattle.std.specs.Option.{is_none};
ghost use Rattle.opc_rows.specs.Ordered.{IsInKeyOrder};
ghost use Rattle.opc_board.specs.Invariants.{IsBoard};
ghost use Rattle.opc_board.specs.History.{without_history};
ghost use Rattle.opc_board.specs.declared.board.BoardRows.{BoardRows};
ghost use Rattle.opc_state.specs.State.{State};
ghost use Rattle.opc_state.specs.Footprints.{AreFootprints};
ghost use Rattle.opc_state.specs.Changes.{all_edited, with_board};
ghost use Rattle.opc_state.specs.Difference.{
  as_it_was,
  board_difference,
  fresh,
  gone,
  halted_difference,
  part_difference,
};

use crate::change::Edit;
use crate::member::{Member, Past};
use opc_board::board::{Board, BoardRows};
use opc_rows::Rows;
use std::alloc::{AllocError, Global};

fn copied_rows<R: Member>(alloc: Global, rows: &Rows<R>) -> Result<Rows<R>, AllocError>
    ensures { IfOk result (λ copy. copy ≡ rows.now) }
{
    let mut copies = Rows::new(alloc);
    for row in rows.as_slice() {
        copies.push(row.copied(alloc)?)?;
    }
    Ok(copies)
}

/// A copy of a board, with empty histories.
pub fn copied(alloc: Global, board: &Board) -> Result<Board, AllocError>
    ensures { IfOk result (λ copy. copy ≡ without_history board.now) }
{
    let rows = board.rows();
    let copy = BoardRows {
        units: copied_rows(alloc, &rows.units)?,
        devices: copied_rows(alloc, &rows.devices)?,
        consoles: copied_rows(alloc, &rows.consoles)?,
        replies: copied_rows(alloc, &rows.replies)?,
        answered: Rows::new(alloc),
        log: Rows::new(alloc),
        messages: Rows::new(alloc),
        halted: rows.halted,
    };
    match Board::of(copy) {
        Ok(board) => Ok(board),
        // The rows of a board make a board.
        Err(_) => unreachable!(),
    }
}

fn is_as_it_was<R: Member>(old: &Rows<R>, row: &R) -> bool
    requires { IsInKeyOrder R.Key.cmp R.key_of old.now }
    ensures { result ≡ as_it_was R.is_same (find (λ q. R.Key.eq (R.key_of q) (R.key_of row.now)) old.now) row.now }
{
    match old.find(row.key()) {
        Some(stored) => stored.is_same(row),
        None => false,
    }
}

fn lacks<R: Member>(rows: &Rows<R>, row: &R) -> bool
    requires { IsInKeyOrder R.Key.cmp R.key_of rows.now }
    ensures { result ≡ is_none (find (λ q. R.Key.eq (R.key_of q) (R.key_of row.now)) rows.now) }
{
    rows.find(row.key()).is_none()
}

// Removes the old rows whose keys the new ones lack.
fn remove_gone<R: Member>(
    edits: &mut Vec<Edit>,
    old: &Rows<R>,
    new: &Rows<R>,
) -> Result<(), AllocError>
    requires { IsInKeyOrder R.Key.cmp R.key_of new.now }
    ensures { OnOk result (edits.new.items ≡ edits.old.items
        ++ map R.removal (gone (λ q r. R.Key.eq (R.key_of q) (R.key_of r)) old.now new.now)) }
{
    for row in old.as_slice() {
        if lacks(new, row) {
            edits.push(row.removal())?;
        }
    }
    Ok(())
}

// Puts the new rows that the old ones lack, or have with other contents.
fn put_fresh<R: Member>(
    alloc: Global,
    edits: &mut Vec<Edit>,
    old: &Rows<R>,
    new: &Rows<R>,
) -> Result<(), AllocError>
    requires { IsInKeyOrder R.Key.cmp R.key_of old.now }
    ensures { OnOk result (edits.new.items ≡ edits.old.items
        ++ map R.put (fresh (λ q r. R.Key.eq (R.key_of q) (R.key_of r)) R.is_same old.now new.now)) }
{
    for row in new.as_slice() {
        if !is_as_it_was(old, row) {
            edits.push(row.copied(alloc)?.put())?;
        }
    }
    Ok(())
}

fn add_part<R: Member>(
    alloc: Global,
    edits: &mut Vec<Edit>,
    old: &Rows<R>,
    new: &Rows<R>,
) -> Result<(), AllocError>
    requires old { IsInKeyOrder R.Key.cmp R.key_of old.now }
    requires new { IsInKeyOrder R.Key.cmp R.key_of new.now }
    ensures { OnOk result (edits.new.items ≡ edits.old.items
        ++ part_difference (λ q r. R.Key.eq (R.key_of q) (R.key_of r)) R.is_same R.removal R.put old.now new.now) }
{
    remove_gone(edits, old, new)?;
    put_fresh(alloc, edits, old, new)
}

fn add_halted(edits: &mut Vec<Edit>, old: bool, new: bool) -> Result<(), AllocError>
    ensures { OnOk result (edits.new.items ≡ edits.old.items ++ halted_difference old new) }
{
    if old != new {
        edits.push(Edit::SetHalted(new))?;
    }
    Ok(())
}

fn add_past<R: Past>(alloc: Global, edits: &mut Vec<Edit>, rows: &Rows<R>) -> Result<(), AllocError>
    ensures { OnOk result (edits.new.items ≡ edits.old.items ++ map R.added rows.now) }
{
    for row in rows.as_slice() {
        edits.push(row.added(alloc)?)?;
    }
    Ok(())
}

fn parts(alloc: Global, old: &BoardRows, new: &BoardRows) -> Result<Vec<Edit>, AllocError>
    requires old { IsBoard old.now }
    requires new { IsBoard new.now }
    ensures { IfOk result (λ edits. edits.items ≡ board_difference old.now new.now) }
{
    let mut edits = Vec::new(alloc);
    add_part(alloc, &mut edits, &old.units, &new.units)?;
    add_part(alloc, &mut edits, &old.devices, &new.devices)?;
    add_part(alloc, &mut edits, &old.consoles, &new.consoles)?;
    add_part(alloc, &mut edits, &old.replies, &new.replies)?;
    add_halted(&mut edits, old.halted, new.halted)?;
    add_past(alloc, &mut edits, &new.answered)?;
    add_past(alloc, &mut edits, &new.log)?;
    add_past(alloc, &mut edits, &new.messages)?;
    Ok(edits)
}

/// The edits by which a board becomes another one, from their footprints. The histories of the new one are what is
/// added to the old ones. Members that stay as they are are not among the edits; so there are none if a state stays as
/// it is.
pub fn difference(alloc: Global, old: &Board, new: &Board) -> Result<Vec<Edit>, AllocError>
    ensures becomes { IfOk result (λ edits. (s : State) → (whole : BoardRows) → AreFootprints old.now new.now s whole
        → all_edited edits.items s ≡ with_board whole s) }
    ensures idle { IfOk result (λ edits. (s : State) → (whole : BoardRows) → AreFootprints old.now new.now s whole
        → all_edited edits.items s ≡ s → edits.items ≡ []) }
{
    let edits = parts(alloc, old.rows(), new.rows())?;
    Ok(edits)
}
