//! Rows of the board, as words; `-` stands for a part that is not there.
use anyhow::{Context, Result, bail};
use opc_board::rows::{ConsoleRow, DeviceRow, ReplyRow, UnitKind, UnitRow};
use opc_board::text::KeptText;
use opc_names::auth::Auth;
use opc_names::name::{ConsoleName, Device, Name, NameKind, UnitName};
use opc_names::reply_id::ReplyId;
use opc_terms::mode::Mode;
use std::alloc::Global;

/// The name in a word, if it is not `-`.
fn name_in<K: NameKind<N>, const N: usize>(word: &str) -> Result<Option<Name<K, N>>> {
    match word {
        "-" => Ok(None),
        word => Ok(Some(Name::read(word)?)),
    }
}

fn name_word<K: NameKind<N>, const N: usize>(name: &Option<Name<K, N>>) -> &str {
    match name {
        Some(name) => name.text(),
        None => "-",
    }
}

fn word_if(is_so: bool, word: &str) -> &str {
    if is_so { word } else { "-" }
}

/// A unit: its name, kind and member, whether it is cancelable and stopping, and its last text.
pub fn unit_in(alloc: Global, words: &str) -> Result<UnitRow> {
    let words: Vec<&str> = words.split(' ').collect(alloc)?;
    let [name, kind, member, cancelable, stopping, last] = words.as_slice() else {
        bail!("no unit");
    };
    Ok(UnitRow {
        name: UnitName::read(name)?,
        kind: unit_kind(kind, member)?,
        cancelable: *cancelable == "CANCELABLE",
        stopping: *stopping == "STOPPING",
        last_text: text_in(alloc, last)?,
    })
}

/// The text in a word, if it is not `-`.
fn text_in(alloc: Global, word: &str) -> Result<Option<KeptText>> {
    match word {
        "-" => Ok(None),
        word => Ok(Some(KeptText::new(alloc, word)?)),
    }
}

fn unit_kind(kind: &str, member: &str) -> Result<UnitKind> {
    match kind {
        "JOB" => Ok(UnitKind::Job),
        "STC" => Ok(UnitKind::Stc {
            member: UnitName::read(member)?,
        }),
        "TSU" => Ok(UnitKind::Tsu),
        _ => bail!("no kind: {kind}"),
    }
}

fn kind_words(kind: &UnitKind) -> (&str, &str) {
    match kind {
        UnitKind::Job => ("JOB", "-"),
        UnitKind::Stc { member } => ("STC", member.text()),
        UnitKind::Tsu => ("TSU", "-"),
    }
}

/// The line of a unit.
pub fn unit_line(alloc: Global, unit: &UnitRow) -> Result<String> {
    let (kind, member) = kind_words(&unit.kind);
    let cancelable = word_if(unit.cancelable, "CANCELABLE");
    let stopping = word_if(unit.stopping, "STOPPING");
    let last = match &unit.last_text {
        Some(text) => text.as_str(),
        None => "-",
    };
    let name = unit.name.text();
    Ok(format!(in alloc; "{name} {kind} {member} {cancelable} {stopping} {last}\n")?)
}

/// A device: its number, state, volume and unit.
pub fn device_in(alloc: Global, words: &str) -> Result<DeviceRow> {
    let words: Vec<&str> = words.split(' ').collect(alloc)?;
    let [number, state, volume, unit] = words.as_slice() else {
        bail!("no device");
    };
    Ok(DeviceRow {
        number: Device::read(number)?,
        online: *state == "ONLINE",
        volume: name_in(volume)?,
        unit: name_in(unit)?,
    })
}

fn state_word(online: bool) -> &'static str {
    if online { "ONLINE" } else { "OFFLINE" }
}

/// The line of a device.
pub fn device_line(alloc: Global, device: &DeviceRow) -> Result<String> {
    let (number, state) = (device.number.text(), state_word(device.online));
    let (volume, unit) = (name_word(&device.volume), name_word(&device.unit));
    Ok(format!(in alloc; "{number} {state} {volume} {unit}\n")?)
}

/// A console: its name, authority, mode, state and user, and `MONITOR` if it shows job messages.
pub fn console_in(alloc: Global, words: &str) -> Result<ConsoleRow> {
    let words: Vec<&str> = words.split(' ').collect(alloc)?;
    let [name, auth, mode, state, user, monitor] = words.as_slice() else {
        bail!("no console");
    };
    Ok(ConsoleRow {
        name: ConsoleName::read(name)?,
        auth: Auth::read(auth).context("no authority")?,
        mode: Mode::read(mode).context("no mode")?,
        online: *state == "ONLINE",
        user: name_in(user)?,
        monitor: *monitor == "MONITOR",
    })
}

/// The line of a console.
pub fn console_line(alloc: Global, console: &ConsoleRow) -> Result<String> {
    let (name, auth) = (console.name.text(), console.auth.text());
    let (mode, state) = (console.mode.text(), state_word(console.online));
    let user = name_word(&console.user);
    let monitor = word_if(console.monitor, "MONITOR");
    Ok(format!(in alloc; "{name} {auth} {mode} {state} {user} {monitor}\n")?)
}

/// The number of a reply.
pub fn reply_id(word: &str) -> Result<ReplyId> {
    ReplyId::new(word.parse::<u8>()?).context("no number of a reply")
}

/// A reply: its number and its text.
pub fn reply_in(alloc: Global, words: &str) -> Result<ReplyRow> {
    let (id, text) = words.split_once(' ').context("no text")?;
    Ok(ReplyRow {
        id: reply_id(id)?,
        text: KeptText::new(alloc, text)?,
    })
}

/// The line of a reply.
pub fn reply_line(alloc: Global, reply: &ReplyRow) -> Result<String> {
    let (id, text) = (reply.id, reply.text.as_str());
    Ok(format!(in alloc; "{id} {text}\n")?)
}
