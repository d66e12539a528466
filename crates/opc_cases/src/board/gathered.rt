//! The rows of a board, written as words.
use anyhow::{Context, Result};
use opc_board::board::BoardRows;
use opc_board::rows::{ConsoleRow, DeviceRow, ReplyRow, UnitKind, UnitRow};
use opc_board::text::KeptText;
use opc_names::auth::Auth;
use opc_names::name::{ConsoleName, Device, UnitName, UserId};
use opc_names::reply_id::ReplyId;
use opc_rows::Rows;
use opc_terms::mode::Mode;
use std::alloc::Global;

// A row that a word describes: its kind, an equals sign, and its parts with commas between them.
trait Parsed: Sized {
    fn kind() -> &'static str;

    fn parsed(alloc: Global, parts: &str) -> Result<Self>;
}

impl Parsed for UnitRow {
    fn kind() -> &'static str {
        "unit"
    }

    fn parsed(_alloc: Global, parts: &str) -> Result<Self> {
        Ok(UnitRow {
            name: UnitName::read(parts)?,
            kind: UnitKind::Job,
            cancelable: true,
            stopping: false,
            last_text: None,
        })
    }
}

impl Parsed for DeviceRow {
    fn kind() -> &'static str {
        "device"
    }

    // Its number and state, and the unit that has it, if one has.
    fn parsed(_alloc: Global, parts: &str) -> Result<Self> {
        let (number, state) = parts.split_once(',').context("a state")?;
        let (online, unit) = match state.split_once(',') {
            Some((state, name)) => (state == "ONLINE", Some(UnitName::read(name)?)),
            None => (state == "ONLINE", None),
        };
        Ok(DeviceRow {
            number: Device::read(number)?,
            online,
            volume: None,
            unit,
        })
    }
}

impl Parsed for ConsoleRow {
    fn kind() -> &'static str {
        "console"
    }

    // Its name, authority and state, and the user who is logged on there, if one is.
    fn parsed(_alloc: Global, parts: &str) -> Result<Self> {
        let (name, parts) = parts.split_once(',').context("an authority")?;
        let (auth, state) = parts.split_once(',').context("a state")?;
        let (online, user) = match state.split_once(',') {
            Some((state, id)) => (state == "ONLINE", Some(UserId::read(id)?)),
            None => (state == "ONLINE", None),
        };
        Ok(ConsoleRow {
            name: ConsoleName::read(name)?,
            auth: Auth::read(auth).context("an authority")?,
            mode: Mode::Optional,
            online,
            user,
            monitor: false,
        })
    }
}

impl Parsed for ReplyRow {
    fn kind() -> &'static str {
        "reply"
    }

    fn parsed(alloc: Global, parts: &str) -> Result<Self> {
        Ok(ReplyRow {
            id: ReplyId::new(parts.parse::<u8>()?).context("the number of a reply")?,
            text: KeptText::new(alloc, "MOUNT")?,
        })
    }
}

// The rows of one kind, in the order of the text.
fn rows_of<R: Parsed + Drop>(alloc: Global, text: &str) -> Result<Rows<R>> {
    let mut rows = Rows::new(alloc);
    for word in text.split(' ') {
        let (kind, parts) = word.split_once('=').unwrap_or((word, ""));
        if kind == R::kind() {
            rows.push(R::parsed(alloc, parts)?)?;
        }
    }
    Ok(rows)
}

/// The rows of a board, as a text has them; its histories are empty.
pub fn gathered(alloc: Global, text: &str) -> Result<BoardRows> {
    Ok(BoardRows {
        units: rows_of(alloc, text)?,
        devices: rows_of(alloc, text)?,
        consoles: rows_of(alloc, text)?,
        replies: rows_of(alloc, text)?,
        answered: Rows::new(alloc),
        log: Rows::new(alloc),
        messages: Rows::new(alloc),
        halted: false,
    })
}
