//! Lines of answers.
ghost use Rattle.std.specs.Prelude.{◌≡◌, ◌≤◌, ◌∷◌, [], IfOk, codes, length, map, string_bytes};
ghost use Rattle.std.specs.Option.{option_copied};
ghost use Rattle.std.specs.Str.{IsAscii};
ghost use Rattle.opc_board.specs.Texts.{
  activity_text,
  columns,
  console_line,
  console_text,
  device_line,
  device_text,
  kind_text,
  left,
  lines_of,
  monitor_text,
  online_text,
  reply_line,
  reply_text,
  text_or,
  unit_line,
  unit_text,
};

use crate::rows::{ConsoleRow, DeviceRow, ReplyRow, UnitKind, UnitRow};
use crate::text::KeptText;
use opc_names::name::{ConsoleName, Name, NameKind, UnitName};
use opc_names::reply_id::ReplyId;
use std::alloc::{AllocError, Global};

/// What a line is about: whoever shows the line decides by this who may see it.
#[derive(Clone, Copy)]
pub enum Item {
    Plain,
    Unit(UnitName),
    Console(ConsoleName),
}

/// A line of an answer.
#[derive(Drop)]
pub struct Line {
    pub item: Item,
    pub text: KeptText,
}

fn online_text(online: bool) -> &'static str
    ensures text { result.now ≡ online_text online }
    ensures ascii { IsAscii result.now }
    ensures short { length result.now ≤ 1000 }
{
    if online { "ONLINE" } else { "OFFLINE" }
}

fn activity_text(stopping: bool) -> &'static str
    ensures { result.now ≡ activity_text stopping }
{
    if stopping { "STOPPING" } else { "ACTIVE" }
}

fn monitor_text(monitor: bool) -> &'static str
    ensures { result.now ≡ monitor_text monitor }
{
    if monitor { "MN" } else { "--" }
}

fn kind_text(kind: &UnitKind) -> &'static str
    ensures { result.now ≡ kind_text kind.now }
{
    match kind {
        UnitKind::Job => "JOB",
        UnitKind::Stc { .. } => "STC",
        UnitKind::Tsu => "TSU",
    }
}

fn name_text<'a, K: NameKind<8>>(name: &'a Option<Name<K, 8>>, none: &'static str) -> &'a str
    requires ascii { IsAscii none.now }
    requires short { length none.now ≤ 1000 }
    ensures text { result.now ≡ text_or none.now name.now }
    ensures ascii { IsAscii result.now }
    ensures short { length result.now ≤ 1000 }
{
    match name {
        Some(name) => name.text(),
        None => none,
    }
}

#[tactic(auto, using(crate::proofs::Padding::padded_left))]
fn unit_columns(alloc: Global, name: &str, kind: &str, activity: &str) -> Result<String, AllocError>
    requires name { IsAscii name.now }
    requires name_short { length name.now ≤ 1000 }
    ensures { IfOk result (λ text. string_bytes text ≡ columns (left 8 name.now ∷ kind.now ∷ activity.now ∷ [])) }
{
    format!(in alloc; "{name:<8} {kind} {activity}")
}

#[tactic(auto, using(crate::proofs::Padding::padded_left))]
fn task_columns(
    alloc: Global,
    name: &str,
    activity: &str,
    member: &str,
) -> Result<String, AllocError>
    requires name { IsAscii name.now }
    requires name_short { length name.now ≤ 1000 }
    ensures { IfOk result (λ text. string_bytes text ≡ columns
        (left 8 name.now ∷ codes "STC" ∷ activity.now ∷ member.now ∷ [])) }
{
    format!(in alloc; "{name:<8} STC {activity} {member}")
}

#[tactic(auto, using(crate::proofs::Padding::padded_left))]
fn device_columns(
    alloc: Global,
    number: &str,
    state: &str,
    volume: &str,
    unit: &str,
) -> Result<String, AllocError>
    requires state { IsAscii state.now }
    requires state_short { length state.now ≤ 1000 }
    requires volume { IsAscii volume.now }
    requires volume_short { length volume.now ≤ 1000 }
    ensures { IfOk result (λ text. string_bytes text ≡ columns
        (number.now ∷ left 7 state.now ∷ left 6 volume.now ∷ unit.now ∷ [])) }
{
    format!(in alloc; "{number} {state:<7} {volume:<6} {unit}")
}

#[tactic(auto, using(crate::proofs::Padding::padded_left))]
fn console_columns(
    alloc: Global,
    name: &str,
    state: &str,
    monitor: &str,
    auth: &str,
    user: &str,
) -> Result<String, AllocError>
    requires name { IsAscii name.now }
    requires name_short { length name.now ≤ 1000 }
    requires state { IsAscii state.now }
    requires state_short { length state.now ≤ 1000 }
    ensures { IfOk result (λ text. string_bytes text ≡ columns
        (left 8 name.now ∷ left 7 state.now ∷ monitor.now ∷ auth.now ∷ user.now ∷ [])) }
{
    format!(in alloc; "{name:<8} {state:<7} {monitor} {auth} {user}")
}

fn text_of_reply(alloc: Global, id: ReplyId, text: &str) -> Result<String, AllocError>
    ensures { IfOk result (λ line. string_bytes line ≡ reply_text id text.now) }
{
    format!(in alloc; "{id} {text}")
}

fn text_of_unit(alloc: Global, unit: &UnitRow) -> Result<String, AllocError>
    ensures { IfOk result (λ text. string_bytes text ≡ unit_text unit.now) }
{
    let name = unit.name.text();
    let activity = activity_text(unit.stopping);
    match &unit.kind {
        UnitKind::Stc { member } => task_columns(alloc, name, activity, member.text()),
        kind => unit_columns(alloc, name, kind_text(kind), activity),
    }
}

fn text_of_device(alloc: Global, device: &DeviceRow) -> Result<String, AllocError>
    ensures { IfOk result (λ text. string_bytes text ≡ device_text device.now) }
{
    device_columns(
        alloc,
        device.number.text(),
        online_text(device.online),
        name_text(&device.volume, "------"),
        name_text(&device.unit, "-"),
    )
}

fn text_of_console(alloc: Global, console: &ConsoleRow) -> Result<String, AllocError>
    ensures { IfOk result (λ text. string_bytes text ≡ console_text console.now) }
{
    console_columns(
        alloc,
        console.name.text(),
        online_text(console.online),
        monitor_text(console.monitor),
        console.auth.text(),
        name_text(&console.user, "-"),
    )
}

fn unit_line(alloc: Global, unit: &UnitRow) -> Result<Line, AllocError>
    ensures { IfOk result (λ line. line ≡ unit_line unit.now) }
{
    Ok(Line {
        item: Item::Unit(unit.name),
        text: KeptText::from(text_of_unit(alloc, unit)?),
    })
}

fn device_line(alloc: Global, device: &DeviceRow) -> Result<Line, AllocError>
    ensures { IfOk result (λ line. line ≡ device_line device.now) }
{
    Ok(Line {
        item: Item::Plain,
        text: KeptText::from(text_of_device(alloc, device)?),
    })
}

fn console_line(alloc: Global, console: &ConsoleRow) -> Result<Line, AllocError>
    ensures { IfOk result (λ line. line ≡ console_line console.now) }
{
    Ok(Line {
        item: Item::Console(console.name),
        text: KeptText::from(text_of_console(alloc, console)?),
    })
}

pub(crate) fn reply_line(alloc: Global, id: ReplyId, text: &str) -> Result<Line, AllocError>
    ensures { IfOk result (λ line. line ≡ reply_line id text.now) }
{
    Ok(Line {
        item: Item::Plain,
        text: KeptText::from(text_of_reply(alloc, id, text)?),
    })
}

/// The line of a unit, if it is there.
pub fn lines_of(alloc: Global, unit: Option<&UnitRow>) -> Result<Vec<Line>, AllocError>
    ensures { IfOk result (λ lines. lines.items ≡ lines_of (option_copied unit.entry)) }
{
    let mut lines = Vec::new(alloc);
    match unit {
        Some(unit) => {
            lines.push(unit_line(alloc, unit)?)?;
            Ok(lines)
        }
        None => Ok(lines),
    }
}

/// The lines of units, as `D A` gives them.
pub fn unit_lines(alloc: Global, units: &[UnitRow]) -> Result<Vec<Line>, AllocError>
    ensures { IfOk result (λ lines. lines.items ≡ map unit_line units.now) }
{
    let mut lines = Vec::new(alloc);
    for unit in units {
        lines.push(unit_line(alloc, unit)?)?;
    }
    Ok(lines)
}

/// The lines of devices, as `D U` gives them.
pub fn device_lines(alloc: Global, devices: &[DeviceRow]) -> Result<Vec<Line>, AllocError>
    ensures { IfOk result (λ lines. lines.items ≡ map device_line devices.now) }
{
    let mut lines = Vec::new(alloc);
    for device in devices {
        lines.push(device_line(alloc, device)?)?;
    }
    Ok(lines)
}

/// The lines of consoles, as `D C` gives them.
pub fn console_lines(alloc: Global, consoles: &[ConsoleRow]) -> Result<Vec<Line>, AllocError>
    ensures { IfOk result (λ lines. lines.items ≡ map console_line consoles.now) }
{
    let mut lines = Vec::new(alloc);
    for console in consoles {
        lines.push(console_line(alloc, console)?)?;
    }
    Ok(lines)
}

/// The lines of open replies, as `D R` gives them.
pub fn reply_lines(alloc: Global, replies: &[ReplyRow]) -> Result<Vec<Line>, AllocError>
    ensures { IfOk result (λ lines. lines.items ≡ map (λ reply. reply_line reply.id reply.text) replies.now) }
{
    let mut lines = Vec::new(alloc);
    for reply in replies {
        lines.push(reply_line(alloc, reply.id, reply.text.as_str())?)?;
    }
    Ok(lines)
}
