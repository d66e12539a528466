//! The rows of a board as members of the state.
ghost use Rattle.std.specs.Prelude.{◌≡◌, Bool, IfOk};
ghost use Rattle.opc_state.specs.declared.change.Edit.{Edit as TheEdit};
ghost use Rattle.opc_state.specs.declared.change.Edit.TheVariants.{
  PutUnit,
  PutDevice,
  PutConsole,
  PutReply,
  AddAnswered,
  AddLog,
  AddMessage,
};
ghost use Rattle.opc_state.specs.Difference.{
  same_flag,
  same_text,
  same_kind,
  same_unit,
  same_device,
  same_console,
  same_reply,
  unit_removal,
  device_removal,
  console_removal,
  reply_removal,
};

use crate::change::Edit;
use opc_board::rows::{ConsoleRow, DeviceRow, MessageRow, ReplyRow, UnitKind, UnitRow};
use opc_board::text::KeptText;
use opc_names::name::{Name, NameKind};
use opc_rows::Keyed;
use std::alloc::{AllocError, Global};

/// A row that edits put in its place and remove by its key.
pub(crate) trait Member: Keyed + Drop {
    ghost is_same: { Self → Self → Bool };

    ghost put: { Self → TheEdit };

    ghost removal: { Self → TheEdit };

    fn is_same(&self, other: &Self) -> bool
        ensures { result ≡ is_same self.now other.now };

    fn copied(&self, alloc: Global) -> Result<Self, AllocError>
        ensures { IfOk result (λ copy. copy ≡ self.now) };

    fn put(self) -> Edit
        ensures { result ≡ put self };

    fn removal(&self) -> Edit
        ensures { result ≡ removal self.now };
}

/// A row that is added at the end of a history.
pub(crate) trait Past: Drop {
    ghost added: { Self → TheEdit };

    fn added(&self, alloc: Global) -> Result<Edit, AllocError>
        ensures { IfOk result (λ edit. edit ≡ added self.now) };
}

fn same_flag(flag: bool, other: bool) -> bool
    ensures { result ≡ same_flag flag other }
{
    flag == other
}

fn same_name<K: NameKind<N>, const N: usize>(
    name: &Option<Name<K, N>>,
    other: &Option<Name<K, N>>,
) -> bool
    ensures { result ≡ same_text name.now other.now }
{
    match (name, other) {
        (None, None) => true,
        (Some(name), Some(other)) => name == other,
        // One of them is missing.
        _ => false,
    }
}

fn same_text(text: &Option<KeptText>, other: &Option<KeptText>) -> bool
    ensures { result ≡ same_text text.now other.now }
{
    match (text, other) {
        (None, None) => true,
        (Some(text), Some(other)) => text.as_str() == other.as_str(),
        // One of them is missing.
        _ => false,
    }
}

fn same_kind(kind: &UnitKind, other: &UnitKind) -> bool
    ensures { result ≡ same_kind kind.now other.now }
{
    match (kind, other) {
        (UnitKind::Job, UnitKind::Job) => true,
        (UnitKind::Tsu, UnitKind::Tsu) => true,
        (UnitKind::Stc { member }, UnitKind::Stc { member: other }) => member == other,
        // The kinds differ.
        _ => false,
    }
}

fn copy_of(alloc: Global, text: &KeptText) -> Result<KeptText, AllocError>
    ensures { IfOk result (λ copy. copy ≡ text.now) }
{
    KeptText::new(alloc, text.as_str())
}

fn copy_of_any(alloc: Global, text: &Option<KeptText>) -> Result<Option<KeptText>, AllocError>
    ensures { IfOk result (λ copy. copy ≡ text.now) }
{
    match text {
        Some(text) => Ok(Some(copy_of(alloc, text)?)),
        None => Ok(None),
    }
}

impl Member for UnitRow {
    ghost is_same = { same_unit };

    ghost put = { λ unit. PutUnit unit };

    ghost removal = { unit_removal };

    fn is_same(&self, other: &Self) -> bool {
        self.name == other.name
            && same_kind(&self.kind, &other.kind)
            && same_flag(self.cancelable, other.cancelable)
            && same_flag(self.stopping, other.stopping)
            && same_text(&self.last_text, &other.last_text)
    }

    fn copied(&self, alloc: Global) -> Result<Self, AllocError> {
        Ok(UnitRow {
            name: self.name,
            kind: self.kind,
            cancelable: self.cancelable,
            stopping: self.stopping,
            last_text: copy_of_any(alloc, &self.last_text)?,
        })
    }

    fn put(self) -> Edit {
        Edit::PutUnit(self)
    }

    fn removal(&self) -> Edit {
        Edit::RemoveUnit(self.name)
    }
}

impl Member for DeviceRow {
    ghost is_same = { same_device };

    ghost put = { λ device. PutDevice device };

    ghost removal = { device_removal };

    fn is_same(&self, other: &Self) -> bool {
        self.number == other.number
            && same_flag(self.online, other.online)
            && same_name(&self.volume, &other.volume)
            && same_name(&self.unit, &other.unit)
    }

    fn copied(&self, _alloc: Global) -> Result<Self, AllocError> {
        Ok(*self)
    }

    fn put(self) -> Edit {
        Edit::PutDevice(self)
    }

    fn removal(&self) -> Edit {
        Edit::RemoveDevice(self.number)
    }
}

impl Member for ConsoleRow {
    ghost is_same = { same_console };

    ghost put = { λ console. PutConsole console };

    ghost removal = { console_removal };

    #[tactic(auto, using(crate::proofs::SameRows::same_auths, crate::proofs::SameRows::same_modes))]
    fn is_same(&self, other: &Self) -> bool {
        self.name == other.name
            && self.auth == other.auth
            && self.mode == other.mode
            && same_flag(self.online, other.online)
            && same_name(&self.user, &other.user)
            && same_flag(self.monitor, other.monitor)
    }

    fn copied(&self, _alloc: Global) -> Result<Self, AllocError> {
        Ok(*self)
    }

    fn put(self) -> Edit {
        Edit::PutConsole(self)
    }

    fn removal(&self) -> Edit {
        Edit::RemoveConsole(self.name)
    }
}

impl Member for ReplyRow {
    ghost is_same = { same_reply };

    ghost put = { λ reply. PutReply reply };

    ghost removal = { reply_removal };

    fn is_same(&self, other: &Self) -> bool {
        self.id == other.id && self.text.as_str() == other.text.as_str()
    }

    fn copied(&self, alloc: Global) -> Result<Self, AllocError> {
        Ok(ReplyRow {
            id: self.id,
            text: copy_of(alloc, &self.text)?,
        })
    }

    fn put(self) -> Edit {
        Edit::PutReply(self)
    }

    fn removal(&self) -> Edit {
        Edit::RemoveReply(self.id)
    }
}

impl Past for ReplyRow {
    ghost added = { λ reply. AddAnswered reply };

    fn added(&self, alloc: Global) -> Result<Edit, AllocError> {
        Ok(Edit::AddAnswered(self.copied(alloc)?))
    }
}

impl Past for KeptText {
    ghost added = { λ text. AddLog text };

    fn added(&self, alloc: Global) -> Result<Edit, AllocError> {
        Ok(Edit::AddLog(copy_of(alloc, self)?))
    }
}

impl Past for MessageRow {
    ghost added = { λ message. AddMessage message };

    fn added(&self, alloc: Global) -> Result<Edit, AllocError> {
        Ok(Edit::AddMessage(MessageRow {
            user: self.user,
            text: copy_of(alloc, &self.text)?,
        }))
    }
}
