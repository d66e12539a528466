//! Parts of a board, and what one more row makes of them.
ghost use Rattle.std.specs.Prelude.{◌≡◌, IsSome, OnOk, Some, true, []};
ghost use Rattle.opc_rows.specs.Ordered.{comes_before};
ghost use Rattle.opc_board.specs.Invariants.{console_at, unit_at};
ghost use Rattle.opc_state.specs.Asked.{Loads};
ghost use Rattle.opc_state.specs.State.{State};
ghost use Rattle.opc_gate_footprints.specs.Joined.{joined};
ghost use Rattle.opc_gate_footprints.specs.Loading.{IsUnitOf, LoadsMore};

use opc_board::board::BoardRows;
use opc_board::rows::{ConsoleRow, DeviceRow, UnitRow};
use opc_names::name::{ConsoleName, Device, UnitName};
use opc_names::reply_id::ReplyId;
use opc_rows::{Keyed, Rows};
use opc_state::tables::Tables;
use opc_terms::store_fault::StoreFault;

// Adds the row of a key, if there is one, to rows that may have it already. Rows out of order are refused.
fn add<R: Keyed + Drop>(rows: &mut Rows<R>, key: &R::Key, row: Option<R>) -> Result<(), StoreFault>
    ensures { OnOk result (rows.new ≡ joined (comes_before R.Key.cmp R.key_of) (λ row. R.Key.eq (R.key_of row) key.now)
        row rows.old) }
{
    let Some(row) = row else {
        return Ok(());
    };
    let ascends = rows.is_ascending();
    if !ascends {
        return Err(StoreFault::Store);
    }
    if rows.find(key).is_none() {
        rows.insert(row)?;
    }
    Ok(())
}

/// Adds a console whose row is loaded.
pub(crate) fn add_console(part: &mut BoardRows, console: &ConsoleRow) -> Result<(), StoreFault>
    ensures footprint { OnOk result ((s : State) → console_at s.board console.now.name ≡ Some console.now
        → LoadsMore s part.old part.new (λ footprint. footprint.consoles console.now.name ≡ true)) }
    ensures there { OnOk result (IsSome (console_at part.new console.now.name)) }
    ensures alone { OnOk result (part.old.consoles ≡ [] → console_at part.new console.now.name ≡ Some console.now) }
{
    add(&mut part.consoles, &console.name, Some(*console))
}

pub(crate) fn load_unit<T: Tables>(
    tables: &mut T,
    part: &mut BoardRows,
    name: &UnitName,
) -> Result<(), StoreFault>
    ensures { Loads T.meaning tables.old tables.new result
        (λ s _. LoadsMore s part.old part.new (λ footprint. footprint.units name.now ≡ true)) }
{
    let unit = tables.unit(name)?;
    add(&mut part.units, name, unit)
}

// The unit of a name, which is not loaded again if it is loaded.
fn unit_on<T: Tables>(
    tables: &mut T,
    name: &UnitName,
    loaded: Option<UnitRow>,
) -> Result<Option<UnitRow>, StoreFault>
    ensures { Loads T.meaning tables.old tables.new result
        (λ s unit. IsUnitOf s loaded → unit ≡ unit_at s.board name.now) }
{
    match loaded {
        Some(unit) if unit.name == *name => Ok(Some(unit)),
        // No unit is loaded, or another one.
        _ => tables.unit(name),
    }
}

/// Adds a unit that may be loaded already.
pub(crate) fn load_unit_once<T: Tables>(
    tables: &mut T,
    part: &mut BoardRows,
    name: &UnitName,
    loaded: Option<UnitRow>,
) -> Result<(), StoreFault>
    ensures { Loads T.meaning tables.old tables.new result
        (λ s _. IsUnitOf s loaded → LoadsMore s part.old part.new (λ footprint. footprint.units name.now ≡ true)) }
{
    let unit = unit_on(tables, name, loaded)?;
    add(&mut part.units, name, unit)
}

pub(crate) fn load_console<T: Tables>(
    tables: &mut T,
    part: &mut BoardRows,
    name: &ConsoleName,
) -> Result<(), StoreFault>
    ensures { Loads T.meaning tables.old tables.new result
        (λ s _. LoadsMore s part.old part.new (λ footprint. footprint.consoles name.now ≡ true)) }
{
    let console = tables.console(name)?;
    add(&mut part.consoles, name, console)
}

pub(crate) fn load_reply<T: Tables>(
    tables: &mut T,
    part: &mut BoardRows,
    id: ReplyId,
) -> Result<(), StoreFault>
    ensures { Loads T.meaning tables.old tables.new result
        (λ s _. LoadsMore s part.old part.new (λ footprint. footprint.replies id ≡ true)) }
{
    let reply = tables.reply(id)?;
    add(&mut part.replies, &id, reply)
}

// The unit that has a device, if one has it: a board has the unit of each device in use.
fn load_holder<T: Tables>(
    tables: &mut T,
    part: &mut BoardRows,
    device: &Option<DeviceRow>,
) -> Result<(), StoreFault>
    ensures { Loads T.meaning tables.old tables.new result (λ s _. LoadsMore s part.old part.new (λ _. Unit {0})) }
{
    match device {
        Some(
            DeviceRow {
                unit: Some(name),
                ..
            },
        ) => load_unit(tables, part, name),
        // Nobody has the device, or it is not there.
        _ => Ok(()),
    }
}

pub(crate) fn load_device<T: Tables>(
    tables: &mut T,
    part: &mut BoardRows,
    number: &Device,
) -> Result<(), StoreFault>
    ensures { Loads T.meaning tables.old tables.new result
        (λ s _. LoadsMore s part.old part.new (λ footprint. footprint.devices number.now ≡ true)) }
{
    let device = tables.device(number)?;
    load_holder(tables, part, &device)?;
    add(&mut part.devices, number, device)
}
