//! The table of devices.
ghost use Rattle.std.specs.Prelude.{◌≡◌, false};
ghost use Rattle.opc_store_sql.specs.Steps.{Stays, Looks};
ghost use Rattle.std.specs.Option.{option_copied};
ghost use Rattle.opc_board.specs.Invariants.{device_at};
ghost use Rattle.opc_state.specs.Changes.{with_devices};
ghost use Rattle.opc_state.specs.Loads.{devices_of};
ghost use Rattle.opc_state.specs.Members.{with_device, without_device};
ghost use Rattle.opc_store_schema.specs.Asked.{Finds, Makes};
ghost use Rattle.opc_store_schema.specs.Represented.{device_row};

use opc_board::rows::DeviceRow;
use opc_names::name::{Device, UnitName};
use opc_rows::Rows;
use opc_store_schema::columns::{TableRow, name_in, name_or_none_in, value_in};
use opc_store_schema::queries::{member_on, members_on};
use opc_store_sql::{put, run};
use opc_terms::store_fault::StoreFault;
use sqlite::{Alter, Connection, Error, Row, Transaction, params};
use std::alloc::Global;

/// The table of devices.
pub struct DeviceTable;

impl TableRow<DeviceRow> for DeviceTable {
    ghost row_of = { device_row };

    fn decode(row: &Row) -> Result<DeviceRow, StoreFault> {
        Ok(DeviceRow {
            number: name_in(row, 0)?,
            online: value_in(row, 1)?,
            volume: name_or_none_in(row, 2)?,
            unit: name_or_none_in(row, 3)?,
        })
    }
}

/// Puts a device, in the place of the one of its number.
pub fn put_device<S: Alter>(tx: &mut Transaction<'_, S>, device: &DeviceRow) -> Result<(), Error>
    ensures same_reference { tx.new.conn.ghost_name ≡ tx.old.conn.ghost_name }
    ensures stays { Stays S.Store tx.old.conn.now tx.new.conn.now result }
    ensures done { Makes S.Store tx.old.conn.now tx.new.conn.now result
        (λ s. with_devices (with_device device.now s.board.devices) s) }
{
    put(
        tx,
        "UPDATE devices SET number = ?1, online = ?2, volume = ?3, unit = ?4 WHERE number = ?1",
        "INSERT INTO devices VALUES (?1, ?2, ?3, ?4)",
        params![
            device.number.text(),
            device.online,
            volume_of(device),
            unit_of(device)
        ],
    )
}

/// Removes the device of a number.
pub fn remove_device<S: Alter>(tx: &mut Transaction<'_, S>, number: &Device) -> Result<(), Error>
    ensures same_reference { tx.new.conn.ghost_name ≡ tx.old.conn.ghost_name }
    ensures stays { Stays S.Store tx.old.conn.now tx.new.conn.now result }
    ensures done { Makes S.Store tx.old.conn.now tx.new.conn.now result
        (λ s. with_devices (without_device number.now s.board.devices) s) }
{
    run(
        tx,
        "DELETE FROM devices WHERE number = ?1",
        params![number.text()],
    )?;
    Ok(())
}

fn volume_of(device: &DeviceRow) -> Option<&str>
    ensures { option_copied result ≡ device.now.volume }
{
    match &device.volume {
        Some(volume) => Some(volume.text()),
        None => None,
    }
}

fn unit_of(device: &DeviceRow) -> Option<&str>
    ensures { option_copied result ≡ device.now.unit }
{
    match &device.unit {
        Some(unit) => Some(unit.text()),
        None => None,
    }
}

/// The devices, in order.
pub fn devices_on<S: Alter>(
    alloc: Global,
    conn: &mut Connection<S>,
) -> Result<Rows<DeviceRow>, StoreFault>
    requires { conn.old.in_transaction ≡ false }
    ensures mode { conn.new.in_transaction ≡ false }
    ensures looks { Looks S.Store conn.old conn.new result }
    ensures found { Finds S.Store conn.old conn.new result (λ s v. v ≡ s.board.devices) }
{
    members_on::<_, _, DeviceTable>(
        alloc,
        conn,
        "SELECT number, online, volume, unit FROM devices ORDER BY number",
        &[],
    )
}

/// The device of a number.
pub fn device_on<S: Alter>(
    conn: &mut Connection<S>,
    number: &Device,
) -> Result<Option<DeviceRow>, StoreFault>
    requires { conn.old.in_transaction ≡ false }
    ensures mode { conn.new.in_transaction ≡ false }
    ensures looks { Looks S.Store conn.old conn.new result }
    ensures found { Finds S.Store conn.old conn.new result (λ s v. v ≡ device_at s.board number.now) }
{
    member_on::<_, _, DeviceTable>(
        conn,
        "SELECT number, online, volume, unit FROM devices WHERE number = ?1 ORDER BY number",
        params![number.text()],
    )
}

/// The devices that a unit has, in order.
pub fn devices_of_on<S: Alter>(
    alloc: Global,
    conn: &mut Connection<S>,
    unit: &UnitName,
) -> Result<Rows<DeviceRow>, StoreFault>
    requires { conn.old.in_transaction ≡ false }
    ensures mode { conn.new.in_transaction ≡ false }
    ensures looks { Looks S.Store conn.old conn.new result }
    ensures found { Finds S.Store conn.old conn.new result (λ s v. v ≡ devices_of s.board unit.now) }
{
    // The tested column comes first in ORDER BY, so that one key serves both; the rows come in the order of the others.
    // NULL is no unit's name, so the row of a device that is free is never selected.
    members_on::<_, _, DeviceTable>(
        alloc,
        conn,
        "SELECT number, online, volume, unit FROM devices WHERE unit = ?1 ORDER BY unit, number",
        params![unit.text()],
    )
}
