//! The rows of a board: units, devices, consoles, replies and messages.
use crate::text::KeptText;
use opc_names::auth::Auth;
use opc_names::name::{ConsoleName, Device, UnitName, UserId, Volume};
use opc_names::reply_id::ReplyId;
use opc_rows::Keyed;
use opc_terms::mode::Mode;

/// What a unit is: a job, a started task of a member, or a user's session.
#[derive(Clone, Copy)]
pub enum UnitKind {
    Job,
    Stc { member: UnitName },
    Tsu,
}

/// A unit of work.
#[derive(Drop)]
pub struct UnitRow {
    pub name: UnitName,
    pub kind: UnitKind,
    pub cancelable: bool,
    pub stopping: bool,
    /// What the last F gave it.
    pub last_text: Option<KeptText>,
}

impl Keyed for UnitRow {
    type Key = UnitName;

    ghost key_of = { λ unit. unit.name };

    fn key(&self) -> &UnitName {
        &self.name
    }
}

/// A device, with the volume that is mounted on it and the unit that has it.
#[derive(Clone, Copy)]
pub struct DeviceRow {
    pub number: Device,
    pub online: bool,
    pub volume: Option<Volume>,
    pub unit: Option<UnitName>,
}

impl Keyed for DeviceRow {
    type Key = Device;

    ghost key_of = { λ device. device.number };

    fn key(&self) -> &Device {
        &self.number
    }
}

/// A console, with the user who is logged on there.
#[derive(Clone, Copy)]
pub struct ConsoleRow {
    pub name: ConsoleName,
    pub auth: Auth,
    pub mode: Mode,
    pub online: bool,
    pub user: Option<UserId>,
    /// Whether it shows messages of jobs that start and end.
    pub monitor: bool,
}

impl Keyed for ConsoleRow {
    type Key = ConsoleName;

    ghost key_of = { λ console. console.name };

    fn key(&self) -> &ConsoleName {
        &self.name
    }
}

/// An open reply with the text of its question, or an answered one with the answer.
#[derive(Drop)]
pub struct ReplyRow {
    pub id: ReplyId,
    pub text: KeptText,
}

impl Keyed for ReplyRow {
    type Key = ReplyId;

    ghost key_of = { λ reply. reply.id };

    fn key(&self) -> &ReplyId {
        &self.id
    }
}

/// A message for a user.
#[derive(Drop)]
pub struct MessageRow {
    pub user: UserId,
    pub text: KeptText,
}
