//! What is written for one request.
ghost use Rattle.std.specs.Prelude.{◌≡◌};
ghost use Rattle.opc_state.specs.Changes.{is_nothing};

use crate::account::AccountRow;
use opc_board::rows::{ConsoleRow, DeviceRow, MessageRow, ReplyRow, UnitRow};
use opc_board::text::KeptText;
use opc_names::class::Class;
use opc_names::name::{ConsoleName, Device, GroupName, Pattern, UnitName, UserId};
use opc_names::reply_id::ReplyId;
use opc_policy_members::connect::Connect;
use opc_policy_members::entry::Entry;
use opc_policy_members::profile::Profile;
use opc_policy_members::row::Row;
use opc_policy_members::user::User;
use opc_rows::Rows;
use opc_terms::entry_id::EntryId;

/// An import that is stored: its number and its rows.
#[derive(Drop)]
pub struct Batch {
    pub number: u32,
    pub rows: Rows<Row>,
}

/// One member of the state that is put, in the place of the one with its key, or removed by its key; or a row that is
/// added at the end of a history.
#[derive(Drop)]
pub enum Edit {
    SetActive(Class, bool),
    PutGroup(GroupName),
    RemoveGroup(GroupName),
    PutUser(User),
    RemoveUser(UserId),
    PutConnect(Connect),
    RemoveConnect(Connect),
    /// A profile, which keeps the access list of the one that it replaces.
    PutProfile(Profile),
    /// A profile is removed with its access list.
    RemoveProfile(Class, Pattern),
    PutEntry(Class, Pattern, Entry),
    /// The entry for this id, and for this console alone or, if none is given, for every console.
    RemoveEntry(Class, Pattern, EntryId, Option<ConsoleName>),
    PutUnit(UnitRow),
    RemoveUnit(UnitName),
    PutDevice(DeviceRow),
    RemoveDevice(Device),
    PutConsole(ConsoleRow),
    RemoveConsole(ConsoleName),
    PutReply(ReplyRow),
    RemoveReply(ReplyId),
    SetHalted(bool),
    AddAnswered(ReplyRow),
    AddLog(KeptText),
    AddMessage(MessageRow),
    PutBatch(Batch),
}

/// Edits, one after another, and a row of the account.
#[derive(Drop)]
pub struct Change {
    pub edits: Vec<Edit>,
    pub account: Option<AccountRow>,
}

impl Change {
    /// Whether there is nothing to write.
    pub fn is_nothing(&self) -> bool
        ensures { result ≡ is_nothing self.now }
    {
        self.edits.is_empty() && self.account.is_none()
    }
}
