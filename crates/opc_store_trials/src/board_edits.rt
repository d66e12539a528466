//! Edits of the board and of the batches.
use crate::board_words::{console_in, device_in, reply_id, reply_in, unit_in};
use crate::records::row_in;
use anyhow::{Context, Result, bail};
use opc_names::name::{ConsoleName, Device, UnitName};
use opc_rows::Rows;
use opc_state::change::{Batch, Edit};
use std::alloc::Global;

/// The edit that puts a row of a kind.
pub fn put_on_board(alloc: Global, kind: &str, words: &str) -> Result<Edit> {
    match kind {
        "unit" => Ok(Edit::PutUnit(unit_in(alloc, words)?)),
        "device" => Ok(Edit::PutDevice(device_in(alloc, words)?)),
        "console" => Ok(Edit::PutConsole(console_in(alloc, words)?)),
        "reply" => Ok(Edit::PutReply(reply_in(alloc, words)?)),
        "halted" => Ok(Edit::SetHalted(words == "yes")),
        "batch" => Ok(Edit::PutBatch(batch_in(alloc, words)?)),
        _ => bail!("nothing is put: {kind}"),
    }
}

/// The edit that removes the row of a kind with this key.
pub fn removed_from_board(kind: &str, key: &str) -> Result<Edit> {
    match kind {
        "unit" => Ok(Edit::RemoveUnit(UnitName::read(key)?)),
        "device" => Ok(Edit::RemoveDevice(Device::read(key)?)),
        "console" => Ok(Edit::RemoveConsole(ConsoleName::read(key)?)),
        "reply" => Ok(Edit::RemoveReply(reply_id(key)?)),
        _ => bail!("nothing is removed: {kind}"),
    }
}

/// A batch: its number and the record of its one row.
fn batch_in(alloc: Global, words: &str) -> Result<Batch> {
    // For the prover alone, which needs a name from the crate that defines them.
    let _nowhere: Option<ConsoleName> = None;
    let (number, record) = words.split_once(' ').context("no record")?;
    let mut rows = Rows::new(alloc);
    rows.push(row_in(alloc, record)?)?;
    Ok(Batch {
        number: number.parse::<u32>()?,
        rows,
    })
}
