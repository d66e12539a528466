//! Rows of the board: one by its key, those that another column picks, and all of a kind.
use crate::board_words::{console_line, device_line, reply_id, reply_line, unit_line};
use crate::words::{add_word, ended, fault_line, nothing};
use anyhow::{Context, Result, bail};
use opc_board::rows::{ConsoleRow, DeviceRow};
use opc_names::name::{ConsoleName, Device, UnitName, UserId};
use opc_state::tables::Tables;
use std::alloc::Global;

/// The row of a kind and a key.
pub fn one_row<T: Tables>(alloc: Global, tables: &mut T, words: &str) -> Result<String> {
    let (kind, key) = words.split_once(' ').context("no key")?;
    match kind {
        "unit" => match tables.unit(&UnitName::read(key)?)? {
            Some(unit) => unit_line(alloc, &unit),
            None => nothing(alloc),
        },
        "device" => match tables.device(&Device::read(key)?)? {
            Some(device) => device_line(alloc, &device),
            None => nothing(alloc),
        },
        "console" => match tables.console(&ConsoleName::read(key)?)? {
            Some(console) => console_line(alloc, &console),
            None => nothing(alloc),
        },
        "reply" => match tables.reply(reply_id(key)?)? {
            Some(reply) => reply_line(alloc, &reply),
            None => nothing(alloc),
        },
        _ => bail!("no row: {kind}"),
    }
}

/// All units.
pub fn units<T: Tables>(alloc: Global, tables: &mut T) -> Result<String> {
    let mut lines = String::new(alloc);
    for unit in tables.units(alloc)?.as_slice() {
        lines.push_str(unit_line(alloc, unit)?.as_str())?;
    }
    ended(alloc, lines)
}

/// All open replies.
pub fn replies<T: Tables>(alloc: Global, tables: &mut T) -> Result<String> {
    let mut lines = String::new(alloc);
    for reply in tables.replies(alloc)?.as_slice() {
        lines.push_str(reply_line(alloc, reply)?.as_str())?;
    }
    ended(alloc, lines)
}

/// The numbers of the devices of a unit, or of all, or the fault.
pub fn devices<T: Tables>(alloc: Global, tables: &mut T, unit: &str) -> Result<String> {
    let answer = match unit {
        "" => tables.devices(alloc),
        unit => tables.devices_of(alloc, &UnitName::read(unit)?),
    };
    match answer {
        Ok(devices) => numbers(alloc, devices.as_slice()),
        Err(fault) => fault_line(alloc, fault),
    }
}

fn numbers(alloc: Global, devices: &[DeviceRow]) -> Result<String> {
    let mut line = String::new(alloc);
    for device in devices {
        add_word(&mut line, device.number.text())?;
    }
    ended(alloc, line)
}

/// The names of all consoles.
pub fn all_consoles<T: Tables>(alloc: Global, tables: &mut T) -> Result<String> {
    names(alloc, tables.consoles(alloc)?.as_slice())
}

/// The names of the consoles where a user is logged on.
pub fn consoles_of<T: Tables>(alloc: Global, tables: &mut T, user: &str) -> Result<String> {
    names(
        alloc,
        tables.consoles_of(alloc, &UserId::read(user)?)?.as_slice(),
    )
}

/// The names of the first masters.
pub fn masters<T: Tables>(alloc: Global, tables: &mut T) -> Result<String> {
    names(alloc, tables.masters(alloc)?.as_slice())
}

fn names(alloc: Global, consoles: &[ConsoleRow]) -> Result<String> {
    let mut line = String::new(alloc);
    for console in consoles {
        add_word(&mut line, console.name.text())?;
    }
    ended(alloc, line)
}
