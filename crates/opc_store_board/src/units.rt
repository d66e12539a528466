//! The table of units.
ghost use Rattle.std.specs.Prelude.{◌≡◌, IfOk, false};
ghost use Rattle.opc_store_sql.specs.Steps.{Stays, Looks};
ghost use Rattle.std.specs.Option.{option_copied};
ghost use Rattle.opc_store_schema.specs.Asked.{Finds, Makes};
ghost use Rattle.opc_store_schema.specs.Represented.{kind_letter, kind_member, text_or_null, unit_row};
ghost use Rattle.opc_board.specs.Invariants.{unit_at};
ghost use Rattle.opc_state.specs.Changes.{with_units};
ghost use Rattle.opc_state.specs.Members.{with_unit, without_unit};
ghost use Rattle.sqlite.specs.Order.{column};
ghost use Rattle.sqlite.specs.declared.types.Value.TheVariants.{Text};
ghost use Rattle.opc_board.specs.declared.rows.UnitKind.{UnitKind as TheKind};

use opc_board::rows::{UnitKind, UnitRow};
use opc_names::name::UnitName;
use opc_rows::Rows;
use opc_store_schema::columns::{
    TableRow, name_in, name_or_none_in, text_at, text_or_none_in, value_in,
};
use opc_store_schema::faults::unreadable;
use opc_store_schema::queries::{member_on, members_on};
use opc_store_sql::{put, run};
use opc_terms::store_fault::StoreFault;
use sqlite::{Alter, Connection, Error, Row, Transaction, params};
use std::alloc::Global;

/// The table of units.
pub struct UnitTable;

impl TableRow<UnitRow> for UnitTable {
    ghost row_of = { unit_row };

    fn decode(row: &Row) -> Result<UnitRow, StoreFault> {
        Ok(UnitRow {
            name: name_in(row, 0)?,
            kind: kind_in(row)?,
            cancelable: value_in(row, 3)?,
            stopping: value_in(row, 4)?,
            last_text: text_or_none_in(row, 5)?,
        })
    }
}

/// Puts a unit of work, in the place of the one of its name.
pub fn put_unit<S: Alter>(tx: &mut Transaction<'_, S>, unit: &UnitRow) -> Result<(), Error>
    ensures same_reference { tx.new.conn.ghost_name ≡ tx.old.conn.ghost_name }
    ensures stays { Stays S.Store tx.old.conn.now tx.new.conn.now result }
    ensures done { Makes S.Store tx.old.conn.now tx.new.conn.now result
        (λ s. with_units (with_unit unit.now s.board.units) s) }
{
    put(
        tx,
        "UPDATE units SET name = ?1, kind = ?2, member = ?3, cancelable = ?4, stopping = ?5, last = ?6 WHERE name = ?1",
        "INSERT INTO units VALUES (?1, ?2, ?3, ?4, ?5, ?6)",
        params![
            unit.name.text(),
            letter_of(&unit.kind),
            member_of(&unit.kind),
            unit.cancelable,
            unit.stopping,
            last_text_of(unit)
        ],
    )
}

/// Removes the unit of work of a name.
pub fn remove_unit<S: Alter>(tx: &mut Transaction<'_, S>, name: &UnitName) -> Result<(), Error>
    ensures same_reference { tx.new.conn.ghost_name ≡ tx.old.conn.ghost_name }
    ensures stays { Stays S.Store tx.old.conn.now tx.new.conn.now result }
    ensures done { Makes S.Store tx.old.conn.now tx.new.conn.now result
        (λ s. with_units (without_unit name.now s.board.units) s) }
{
    run(
        tx,
        "DELETE FROM units WHERE name = ?1",
        params![name.text()],
    )?;
    Ok(())
}

/// What a unit is, by a letter.
fn letter_of(kind: &UnitKind) -> &str
    ensures { result.now ≡ kind_letter kind.now }
{
    match kind {
        UnitKind::Job => "J",
        UnitKind::Stc { member: _ } => "S",
        UnitKind::Tsu => "T",
    }
}

fn member_of(kind: &UnitKind) -> Option<&str>
    ensures { option_copied result ≡ kind_member kind.now }
{
    match kind {
        UnitKind::Stc { member } => Some(member.text()),
        UnitKind::Job | UnitKind::Tsu => None,
    }
}

fn last_text_of(unit: &UnitRow) -> Option<&str>
    ensures { option_copied result ≡ unit.now.last_text }
{
    match &unit.last_text {
        Some(text) => Some(text.as_str()),
        None => None,
    }
}

fn kind_in(row: &Row) -> Result<UnitKind, StoreFault>
    ensures { (kind : TheKind) → column row.now 1 ≡ Text (kind_letter kind)
        → column row.now 2 ≡ text_or_null (kind_member kind) → IfOk result (λ v. v ≡ kind) }
{
    let member = name_or_none_in(row, 2)?;
    match (text_at(row, 1)?, member) {
        ("J", None) => Ok(UnitKind::Job),
        ("S", Some(member)) => Ok(UnitKind::Stc { member }),
        ("T", None) => Ok(UnitKind::Tsu),
        // Only damaged tables have another letter, a started task without a member, or a member with another kind.
        _ => Err(unreadable()),
    }
}

/// The units, in order.
pub fn units_on<S: Alter>(
    alloc: Global,
    conn: &mut Connection<S>,
) -> Result<Rows<UnitRow>, StoreFault>
    requires { conn.old.in_transaction ≡ false }
    ensures mode { conn.new.in_transaction ≡ false }
    ensures looks { Looks S.Store conn.old conn.new result }
    ensures found { Finds S.Store conn.old conn.new result (λ s v. v ≡ s.board.units) }
{
    members_on::<_, _, UnitTable>(
        alloc,
        conn,
        "SELECT name, kind, member, cancelable, stopping, last FROM units ORDER BY name",
        &[],
    )
}

/// The unit of a name.
pub fn unit_on<S: Alter>(
    conn: &mut Connection<S>,
    name: &UnitName,
) -> Result<Option<UnitRow>, StoreFault>
    requires { conn.old.in_transaction ≡ false }
    ensures mode { conn.new.in_transaction ≡ false }
    ensures looks { Looks S.Store conn.old conn.new result }
    ensures found { Finds S.Store conn.old conn.new result (λ s v. v ≡ unit_at s.board name.now) }
{
    member_on::<_, _, UnitTable>(
        conn,
        "SELECT name, kind, member, cancelable, stopping, last FROM units WHERE name = ?1 ORDER BY name",
        params![name.text()],
    )
}
