//! Why a request is refused.
ghost use Rattle.std.specs.Prelude.{◌≡◌, ◌≤◌, IfOk, length, string_bytes};
ghost use Rattle.std.specs.Str.{IsAscii};

use crate::entry_id::EntryId;
use crate::store_fault::StoreFault;
use opc_names::bytes::Bytes;
use opc_names::name::{Name, NameKind, UserId};
use std::alloc::{AllocError, Global};
use std::error::Error;
use std::marker::Model;
use std::{fmt, str};

/// What stands in the way of a request, by its name: a user, a group, or a profile by its pattern.
#[derive(Clone, Copy, PartialEq, Eq)]
pub struct Subject {
    bytes: Bytes<39>,
}

impl Model for Subject {
    ghost use Rattle.std.specs.Prelude.{List, ℕ};
    ghost use Rattle.std.specs.Str.{IsAscii};

    ghost Value = { List ℕ };

    ghost view = { λ s. s.bytes };

    ghost invariant = { λ s. IsAscii s.bytes };

    ghost inverse = { λ text. record { bytes = text } };
}

impl Subject {
    /// The text of a name.
    pub fn of<K: NameKind<N>, const N: usize>(name: &Name<K, N>) -> Self
        ensures { result ≡ name.now }
    {
        Subject {
            bytes: Bytes::copied(name.text().as_bytes()),
        }
    }

    /// The id of an entry of an access list.
    pub fn of_entry(id: &EntryId) -> Self
        ensures { result ≡ id.now }
    {
        Subject {
            bytes: Bytes::copied(id.text().as_bytes()),
        }
    }

    /// The name.
    pub fn text(&self) -> &str
        ensures text { result.now ≡ self.now }
        ensures ascii { IsAscii self.now }
        ensures short { length self.now ≤ 39 }
    {
        match str::from_utf8(self.bytes.as_slice()) {
            Ok(text) => text,
            // The bytes were copied from a name.
            Err(_) => unreachable!(),
        }
    }
}

impl fmt::Debug for Subject {
    fn fmt<W: fmt::Write>(&self, f: &mut fmt::Formatter<W>) -> fmt::Result {
        fmt::Debug::fmt(self.text(), f)
    }
}

impl fmt::Display for Subject {
    ghost use Rattle.std.specs.Prelude.{Some};

    ghost output = { λ subject. Some subject };

    fn fmt<W: fmt::Write>(&self, f: &mut fmt::Formatter<W>) -> fmt::Result {
        f.pad(self.text())
    }
}

/// What is wrong with a row of a policy file: the header, the number of columns, the number of rows, or a column.
#[derive(Clone, Copy, Debug, PartialEq, Eq)]
pub enum Why {
    Header,
    Columns,
    Many,
    Kind,
    Class,
    Name,
    Id,
    Value,
    Owner,
    Flags,
    Digest,
    When,
    Restricted,
}

impl Why {
    ghost use Rattle.opc_terms.specs.Faults.{why_text};

    /// What is wrong, in one word.
    pub fn text(&self) -> &str
        ensures text { result.now ≡ why_text self.now }
        ensures ascii { IsAscii (why_text self.now) }
    {
        match self {
            Why::Header => "Header",
            Why::Columns => "Columns",
            Why::Many => "Many",
            Why::Kind => "Kind",
            Why::Class => "Class",
            Why::Name => "Name",
            Why::Id => "Id",
            Why::Value => "Value",
            Why::Owner => "Owner",
            Why::Flags => "Flags",
            Why::Digest => "Digest",
            Why::When => "When",
            Why::Restricted => "Restricted",
        }
    }
}

impl fmt::Display for Why {
    ghost use Rattle.std.specs.Prelude.{Some};
    ghost use Rattle.opc_terms.specs.Faults.{why_text};

    ghost output = { λ why. Some (why_text why) };

    fn fmt<W: fmt::Write>(&self, f: &mut fmt::Formatter<W>) -> fmt::Result {
        f.pad(self.text())
    }
}

/// Why a request is refused. Places are bytes of the command line.
#[derive(Clone, Copy, Debug, PartialEq, Eq)]
pub enum Fault {
    /// The line has only spaces or nothing.
    Empty,
    /// The line has more than 126 characters.
    TooLong,
    /// The character at this byte is not a printable ASCII one.
    BadCharacter { at: usize },
    /// The verb, from the first byte to the last excluded, is not a command's.
    UnknownVerb { from: usize, to: usize },
    /// The operands, from the first byte to the last excluded, have no form of the command.
    BadOperand { from: usize, to: usize },
    /// The quoted text that begins at this byte is not closed.
    OpenQuote { at: usize },
    /// There is no such console.
    NoConsole,
    /// The console is offline.
    ConsoleOffline,
    /// The console requires a logon, and nobody is logged on.
    LogonRequired,
    /// The user is revoked.
    Revoked,
    /// There is no such user, or the password is not the user's.
    BadLogon,
    /// This user is logged on at the console.
    AlreadyOn(UserId),
    /// Nobody is logged on at the console.
    NotOn,
    /// A profile of class CONSOLE denies the logon.
    DeniedConsole,
    /// A profile denies the command.
    DeniedProfile,
    /// The authority of the console does not enter the group of the command.
    DeniedGroup,
    /// There is no such unit of work.
    NoUnit,
    /// The unit is not cancelable.
    NonCancelable,
    /// The unit is cancelable, so it must not be forced.
    Cancelable,
    /// There is a unit of that name.
    UnitExists,
    /// There is no such device.
    NoDevice,
    /// The state of the device does not allow it.
    DeviceState,
    /// A unit uses the device.
    DeviceInUse,
    /// The device has no volume.
    NoVolume,
    /// No reply with this number is open.
    NoReply,
    /// There is no such console or user to reach.
    NoTarget,
    /// The day is halted.
    Halted,
    /// No online console would be left with authority MASTER.
    LastMaster,
    /// The unit is of a kind that the command does not take.
    WrongKind,
    /// A reply with this number is open.
    ReplyExists,
    /// The user lacks the right to administer.
    NotSpecial,
    /// The user neither has the right to administer nor owns the profile.
    NotOwner,
    /// There is one of this name.
    Exists(Subject),
    /// There is none of this name.
    Missing(Subject),
    /// The one of this name is in use.
    InUse(Subject),
    /// The batch of that number was stored with other rows.
    BatchChanged,
    /// The store has users.
    NotEmpty,
    /// A row of a policy file, counted from 1, is bad; row 0 is the header.
    RowFault { row: u32, why: Why },
    /// An allocation failed.
    NoMemory,
    /// The store failed.
    Store,
    /// The database is of another version, or, with 0, of another product.
    NotOurs { version: u64 },
}

impl Fault {
    ghost use Rattle.opc_terms.specs.Faults.{fault_code, fault_text};

    /// The letter `E` and two digits.
    pub fn code(&self) -> &str
        ensures code { result.now ≡ fault_code self.now }
        ensures ascii { IsAscii (fault_code self.now) }
        ensures three { length (fault_code self.now) ≡ 3 }
    {
        match self {
            Fault::Empty => "E01",
            Fault::TooLong => "E02",
            Fault::BadCharacter { .. } => "E03",
            Fault::UnknownVerb { .. } => "E04",
            Fault::BadOperand { .. } => "E05",
            Fault::OpenQuote { .. } => "E06",
            Fault::NoConsole => "E10",
            Fault::ConsoleOffline => "E11",
            Fault::LogonRequired => "E12",
            Fault::Revoked => "E13",
            Fault::BadLogon => "E14",
            Fault::AlreadyOn(_) => "E15",
            Fault::NotOn => "E16",
            Fault::DeniedConsole => "E17",
            Fault::DeniedProfile => "E20",
            Fault::DeniedGroup => "E21",
            Fault::NoUnit => "E30",
            Fault::NonCancelable => "E31",
            Fault::Cancelable => "E32",
            Fault::UnitExists => "E33",
            Fault::NoDevice => "E34",
            Fault::DeviceState => "E35",
            Fault::DeviceInUse => "E36",
            Fault::NoVolume => "E37",
            Fault::NoReply => "E38",
            Fault::NoTarget => "E39",
            Fault::Halted => "E40",
            Fault::LastMaster => "E41",
            Fault::WrongKind => "E42",
            Fault::ReplyExists => "E45",
            Fault::NotSpecial => "E50",
            Fault::NotOwner => "E51",
            Fault::Exists(_) => "E52",
            Fault::Missing(_) => "E53",
            Fault::InUse(_) => "E55",
            Fault::BatchChanged => "E56",
            Fault::NotEmpty => "E57",
            Fault::RowFault { .. } => "E60",
            Fault::NoMemory => "E90",
            Fault::Store => "E91",
            Fault::NotOurs { .. } => "E92",
        }
    }

    /// The name of the fault, then each of its details after a space.
    pub fn text(&self, alloc: Global) -> Result<String, AllocError>
        ensures { IfOk result (λ text. string_bytes text ≡ fault_text self.now) }
    {
        self.to_string(alloc)
    }
}

impl Error for Fault {}

impl From<AllocError> for Fault {
    ghost use Rattle.std.specs.Prelude.{◌≡◌};
    ghost use Rattle.opc_terms.specs.declared.fault.Fault.TheVariants.{NoMemory};

    ghost from_gives = { λ _ fault. fault ≡ NoMemory };

    fn from(_refused: AllocError) -> Self {
        Fault::NoMemory
    }
}

impl From<StoreFault> for Fault {
    ghost use Rattle.std.specs.Prelude.{◌≡◌};
    ghost use Rattle.opc_terms.specs.Faults.{store_fault};

    ghost from_gives = { λ store fault. fault ≡ store_fault store };

    fn from(store: StoreFault) -> Self {
        match store {
            StoreFault::NoMemory => Fault::NoMemory,
            StoreFault::Store => Fault::Store,
        }
    }
}

impl fmt::Display for Fault {
    ghost use Rattle.std.specs.Prelude.{Some};
    ghost use Rattle.opc_terms.specs.Faults.{fault_text};

    ghost output = { λ fault. Some (fault_text fault) };

    fn fmt<W: fmt::Write>(&self, f: &mut fmt::Formatter<W>) -> fmt::Result {
        match self {
            Fault::Empty => write!(f, "Empty"),
            Fault::TooLong => write!(f, "TooLong"),
            Fault::BadCharacter { at } => write!(f, "BadCharacter {at}"),
            Fault::UnknownVerb { from, to } => write!(f, "UnknownVerb {from} {to}"),
            Fault::BadOperand { from, to } => write!(f, "BadOperand {from} {to}"),
            Fault::OpenQuote { at } => write!(f, "OpenQuote {at}"),
            Fault::NoConsole => write!(f, "NoConsole"),
            Fault::ConsoleOffline => write!(f, "ConsoleOffline"),
            Fault::LogonRequired => write!(f, "LogonRequired"),
            Fault::Revoked => write!(f, "Revoked"),
            Fault::BadLogon => write!(f, "BadLogon"),
            Fault::AlreadyOn(user) => write!(f, "AlreadyOn {user}"),
            Fault::NotOn => write!(f, "NotOn"),
            Fault::DeniedConsole => write!(f, "DeniedConsole"),
            Fault::DeniedProfile => write!(f, "DeniedProfile"),
            Fault::DeniedGroup => write!(f, "DeniedGroup"),
            Fault::NoUnit => write!(f, "NoUnit"),
            Fault::NonCancelable => write!(f, "NonCancelable"),
            Fault::Cancelable => write!(f, "Cancelable"),
            Fault::UnitExists => write!(f, "UnitExists"),
            Fault::NoDevice => write!(f, "NoDevice"),
            Fault::DeviceState => write!(f, "DeviceState"),
            Fault::DeviceInUse => write!(f, "DeviceInUse"),
            Fault::NoVolume => write!(f, "NoVolume"),
            Fault::NoReply => write!(f, "NoReply"),
            Fault::NoTarget => write!(f, "NoTarget"),
            Fault::Halted => write!(f, "Halted"),
            Fault::LastMaster => write!(f, "LastMaster"),
            Fault::WrongKind => write!(f, "WrongKind"),
            Fault::ReplyExists => write!(f, "ReplyExists"),
            Fault::NotSpecial => write!(f, "NotSpecial"),
            Fault::NotOwner => write!(f, "NotOwner"),
            Fault::Exists(subject) => write!(f, "Exists {subject}"),
            Fault::Missing(subject) => write!(f, "Missing {subject}"),
            Fault::InUse(subject) => write!(f, "InUse {subject}"),
            Fault::BatchChanged => write!(f, "BatchChanged"),
            Fault::NotEmpty => write!(f, "NotEmpty"),
            Fault::RowFault { row, why } => write!(f, "RowFault {row} {why}"),
            Fault::NoMemory => write!(f, "NoMemory"),
            Fault::Store => write!(f, "Store"),
            Fault::NotOurs { version } => write!(f, "NotOurs {version}"),
        }
    }
}
