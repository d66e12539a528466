//! The first policy.
ghost use Rattle.std.specs.Prelude.{◌≡◌, ◌≢◌, ◌⊎◌, ◌++◌, List, [], IfErr, IfOk, OnErr, OnOk, Ok, Err, true, false};
ghost use Rattle.std.specs.List.{cons_option};
ghost use Rattle.opc_terms.specs.declared.fault.Fault.TheVariants as why;
ghost use Rattle.opc_policy_members.specs.declared.row.Row.{Row as TheRow};
ghost use Rattle.opc_board.specs.Footprint.{IsInOrder};
ghost use Rattle.opc_state.specs.Asked.{Answers, Loads};
ghost use Rattle.opc_state.specs.State.{State, has_users};
ghost use Rattle.opc_state.specs.Changes.{all_edited};
ghost use Rattle.opc_gate_imports.specs.RowEdits.{
  AreEditsOf,
  consoles_alone,
  HaveNothingNew,
  IsBootstrap,
  IsRefusedFor,
  edit_of,
  edits_of,
};
ghost use Rattle.opc_policy_members.specs.Taken.{policy_after};
ghost use Rattle.opc_machine.specs.Bootstrap.{bootstrapped, console_after, consoles_after, with_rows, loses_master};

use opc_board::board::{Board, BoardRows};
use opc_board::rows::ConsoleRow;
use opc_policy_members::connect::Connect;
use opc_policy_members::entries::Entries;
use opc_policy_members::entry::Entry;
use opc_policy_members::policy::Policy;
use opc_policy_members::profile::Profile;
use opc_policy_members::row::Row;
use opc_rows::Rows;
use opc_state::change::{Change, Edit};
use opc_state::difference::{copied, difference};
use opc_state::tables::Tables;
use opc_terms::fault::Fault;
use opc_terms::store_fault::StoreFault;
use std::alloc::{AllocError, Global};

/// What is stored: a policy, and of the board the consoles.
#[derive(Drop)]
struct Stored {
    policy: Policy,
    board: Board,
}

// What a row makes of a policy, as an edit: each row has its own, even if it repeats what is stored. A console is not
// part of a policy; consoles are compared (`edits_of_consoles`).
fn edit_of(alloc: Global, row: &Row) -> Option<Edit>
    ensures { result ≡ edit_of row.now }
{
    match *row {
        Row::Class { class, active } => Some(Edit::SetActive(class, active)),
        Row::Group { name } => Some(Edit::PutGroup(name)),
        Row::User(user) => Some(Edit::PutUser(user)),
        Row::Connect { user, group } => Some(Edit::PutConnect(Connect { user, group })),
        Row::Console { .. } => None,
        Row::Profile {
            class,
            pattern,
            uacc,
            owner,
            warning,
        } => Some(Edit::PutProfile(Profile {
            class,
            pattern,
            owner,
            uacc,
            warning,
            entries: Entries::new(alloc),
        })),
        Row::Permit {
            class,
            pattern,
            id,
            level,
            when,
        } => Some(Edit::PutEntry(class, pattern, Entry { id, when, level })),
    }
}

// The edits so far and one more, if there is one.
fn add_any(edits: &mut Vec<Edit>, edit: Option<Edit>) -> Result<(), AllocError>
    ensures { OnOk result (edits.new.items ≡ edits.old.items ++ cons_option edit []) }
{
    match edit {
        Some(edit) => {
            edits.push(edit)?;
            Ok(())
        }
        None => Ok(()),
    }
}

// The edits so far, and those that rows make of a policy.
fn add_edits(alloc: Global, edits: &mut Vec<Edit>, rows: &[Row]) -> Result<(), AllocError>
    ensures { OnOk result (edits.new.items ≡ edits.old.items ++ edits_of rows.now) }
{
    for row in rows {
        add_any(edits, edit_of(alloc, row))?;
    }
    Ok(())
}

fn define_console(board: &mut Board, row: &Row) -> Result<(), AllocError>
    ensures { OnOk result (board.new ≡ console_after row.now board.old) }
{
    match *row {
        Row::Console { name, auth, mode } => board.define_console(name, auth, mode),
        // Rows of other kinds define no console.
        _ => Ok(()),
    }
}

fn define_all(board: &mut Board, rows: &[Row]) -> Result<(), AllocError>
    ensures { OnOk result (board.new ≡ consoles_after rows.now board.old) }
{
    for row in rows {
        define_console(board, row)?;
    }
    Ok(())
}

// Whether a console was online with authority MASTER, and none is.
fn loses_master(old: &Board, new: &Board) -> bool
    ensures { result ≡ loses_master old.now new.now }
{
    old.has_master() && !new.has_master()
}

// The edits by which rows turn one live board into another and change a policy.
fn edits_from(
    alloc: Global,
    old: &Board,
    new: &Board,
    rows: &[Row],
) -> Result<Vec<Edit>, AllocError>
    ensures { IfOk result (λ edits. AreEditsOf old.now new.now rows.now edits.items) }
{
    // For the prover alone: a clause of this call states that the board keeps its invariants.
    let _rows = new.rows();
    let mut edits = difference(alloc, old, new)?;
    add_edits(alloc, &mut edits, rows)?;
    Ok(edits)
}

// The edits of rows that define consoles of a board, of which there is a copy, and change a policy.
fn edits_of_consoles(
    alloc: Global,
    old: &Board,
    board: &mut Board,
    rows: &[Row],
) -> Result<Vec<Edit>, Fault>
    ensures made { IfOk result (λ edits. AreEditsOf old.now (consoles_after rows.now board.old) rows.now edits.items) }
    ensures kept { OnOk result (loses_master old.now (consoles_after rows.now board.old) ≡ false) }
    ensures refused { IfErr result (λ f. f ≢ why.NoMemory → (f ≡ why.LastMaster)
        × (loses_master old.now (consoles_after rows.now board.old) ≡ true)) }
{
    define_all(board, rows)?;
    if loses_master(old, board) {
        return Err(Fault::LastMaster);
    }
    Ok(edits_from(alloc, old, board, rows)?)
}

// The edits that rows make of what is stored, which they change, or why they are refused.
fn edits_of_rows(
    alloc: Global,
    policy: &mut Policy,
    board: &mut Board,
    rows: &[Row],
) -> Result<Vec<Edit>, Fault>
    ensures made { IfOk result (λ edits. (s : State) → policy.old ≡ s.policy → board.old ≡ consoles_alone s.board
        → IsInOrder s.board → with_rows rows.now s ≡ Ok (all_edited edits.items s)) }
    ensures idle { IfOk result (λ edits. (s : State) → board.old ≡ consoles_alone s.board → IsInOrder s.board
        → HaveNothingNew rows.now s → edits.items ≡ []) }
    ensures refused { IfErr result (λ f. f ≢ why.NoMemory → (s : State) → policy.old ≡ s.policy
        → board.old ≡ consoles_alone s.board → IsInOrder s.board → with_rows rows.now s ≡ Err f) }
{
    if let Err(refused) = policy.take_all(alloc, rows) {
        return Err(refused.fault);
    }
    let old = copied(alloc, board)?;
    edits_of_consoles(alloc, &old, board, rows)
}

// Loads what is stored. Of the board, rows depend on consoles alone.
fn stored_on<T: Tables>(tables: &mut T, alloc: Global) -> Result<Stored, StoreFault>
    ensures { Loads T.meaning tables.old tables.new result
        (λ s stored. (stored.policy ≡ s.policy) × (stored.board ≡ consoles_alone s.board) × IsInOrder s.board) }
{
    let policy = tables.policy(alloc)?;
    let halted = tables.is_halted()?;
    let consoles = tables.consoles(alloc)?;
    match Board::of(alone(alloc, consoles, halted)) {
        Ok(board) => Ok(Stored { policy, board }),
        Err(_) => Err(StoreFault::Store),
    }
}

fn alone(alloc: Global, consoles: Rows<ConsoleRow>, halted: bool) -> BoardRows
    ensures { result ≡ record {
      units = [];
      devices = [];
      consoles = consoles;
      replies = [];
      answered = [];
      log = [];
      messages = [];
      halted = halted;
    } }
{
    BoardRows {
        units: Rows::new(alloc),
        devices: Rows::new(alloc),
        consoles,
        replies: Rows::new(alloc),
        answered: Rows::new(alloc),
        log: Rows::new(alloc),
        messages: Rows::new(alloc),
        halted,
    }
}

/// The edits that rows make of what is stored, or why they are refused; writes nothing.
pub fn row_edits_on<T: Tables>(
    tables: &mut T,
    alloc: Global,
    rows: &[Row],
) -> Result<Vec<Edit>, Fault>
    ensures made { Loads T.meaning tables.old tables.new result
        (λ s edits. with_rows rows.now s ≡ Ok (all_edited edits.items s)) }
    ensures idle { Answers T.meaning tables.old tables.new result
        (λ s edits. HaveNothingNew rows.now s → edits.items ≡ []) }
    ensures refused { IsRefusedFor T.meaning tables.old tables.new result (with_rows rows.now) }
{
    let Stored {
        mut policy,
        mut board,
    } = stored_on(tables, alloc)?;
    edits_of_rows(alloc, &mut policy, &mut board, rows)
}

// Loads what a first policy needs, and decides; writes nothing.
fn edits_on<T: Tables>(tables: &mut T, alloc: Global, rows: &[Row]) -> Result<Vec<Edit>, Fault>
    ensures made { Loads T.meaning tables.old tables.new result
        (λ s edits. bootstrapped rows.now s ≡ Ok (all_edited edits.items s)) }
    ensures idle { Answers T.meaning tables.old tables.new result
        (λ s edits. HaveNothingNew rows.now s → edits.items ≡ []) }
    ensures refused { IsRefusedFor T.meaning tables.old tables.new result (bootstrapped rows.now) }
{
    if tables.has_users()? {
        return Err(Fault::NotEmpty);
    }
    row_edits_on(tables, alloc, rows)
}

// Writes the edits of a first policy, if there are any.
fn write_first<T: Tables>(tables: &mut T, alloc: Global, edits: Vec<Edit>) -> Result<(), Fault>
    ensures sure { T.meaning.is_sure tables.new → T.meaning.is_sure tables.old }
    ensures idle { edits.items ≡ [] → (left : State) → T.meaning.may_leave tables.new left
        → T.meaning.may_leave tables.old left }
    ensures founds { T.meaning.is_sure tables.new → (s : State) → T.meaning.represents tables.old s
        → (rows : List TheRow)
        → bootstrapped rows s ≡ Ok (all_edited edits.items s)
        → OnOk result (IsBootstrap T.meaning tables.new s rows) }
    ensures refused { IfErr result (λ f. (f ≡ why.NoMemory) ⊎ (f ≡ why.Store)) }
    ensures unchanged { T.meaning.is_sure tables.new → (s : State) → T.meaning.represents tables.old s
        → OnErr result (T.meaning.represents tables.new s) }
    ensures crash { T.meaning.is_sure tables.new → (s : State) → T.meaning.represents tables.old s → (left : State)
        → T.meaning.may_leave tables.new left
        → T.meaning.may_leave tables.old left ⊎ (left ≡ all_edited edits.items s) }
{
    let change = Change {
        edits,
        account: None,
    };
    if change.is_nothing() {
        return Ok(());
    }
    tables.commit(alloc, &change)?;
    Ok(())
}

/// Takes the rows of a first policy, if no user is stored.
pub fn bootstrap<T: Tables>(tables: &mut T, alloc: Global, rows: &[Row]) -> Result<(), Fault>
    ensures sure { T.meaning.is_sure tables.new → T.meaning.is_sure tables.old }
    ensures done { T.meaning.is_sure tables.new → (s : State) → T.meaning.represents tables.old s
        → OnOk result (IsBootstrap T.meaning tables.new s rows.now) }
    ensures refused { IsRefusedFor T.meaning tables.old tables.new result (bootstrapped rows.now) }
    ensures unchanged { T.meaning.is_sure tables.new → (s : State) → T.meaning.represents tables.old s
        → OnErr result (T.meaning.represents tables.new s) }
    ensures crash { T.meaning.is_sure tables.new → (s : State) → T.meaning.represents tables.old s → (left : State)
        → T.meaning.may_leave tables.new left
        → T.meaning.may_leave tables.old left ⊎ (bootstrapped rows.now s ≡ Ok left) }
    ensures idle { T.meaning.is_sure tables.new → (s : State) → T.meaning.represents tables.old s
        → HaveNothingNew rows.now s
        → (left : State) → T.meaning.may_leave tables.new left → T.meaning.may_leave tables.old left }
{
    let edits = edits_on(tables, alloc, rows)?;
    write_first(tables, alloc, edits)
}
