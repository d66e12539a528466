//! Notes.
ghost use Rattle.std.specs.Prelude.{◌≡◌};
ghost use Rattle.opc_check_notes.specs.Texts.{code_of, code_text};

use opc_names::auth::Auth;
use opc_names::class::Class;
use opc_names::level::Level;
use opc_names::name::{ConsoleName, GroupName, Pattern, UserId};
use opc_terms::entry_id::EntryId;

/// The code of a note, by its subject.
#[derive(Clone, Copy)]
pub enum NoteCode {
    Warning,
    OpenToAll,
    NoDigest,
    SameDigest,
    EmptyGroup,
    RevokedEntry,
    Special,
    Auditor,
    Master,
    OpenConsole,
    NoOwnUser,
    InactiveClass,
    NoProfile,
    OwnBelowGroup,
    ServesNobody,
    NoResource,
    SpecialConsole,
    NoAccess,
    NeverDecides,
}

impl NoteCode {
    /// Its text. The codes stay as they are: the number of a note that was removed is not used again.
    pub fn text(self) -> &'static str
        ensures { result.now ≡ code_text self }
    {
        match self {
            NoteCode::Warning => "N01",
            NoteCode::OpenToAll => "N02",
            NoteCode::NoDigest => "N03",
            NoteCode::SameDigest => "N04",
            NoteCode::EmptyGroup => "N05",
            NoteCode::RevokedEntry => "N06",
            NoteCode::Special => "N08",
            NoteCode::Auditor => "N09",
            NoteCode::Master => "N10",
            NoteCode::OpenConsole => "N11",
            NoteCode::NoOwnUser => "N12",
            NoteCode::InactiveClass => "N13",
            NoteCode::NoProfile => "N14",
            NoteCode::OwnBelowGroup => "N15",
            NoteCode::ServesNobody => "N16",
            NoteCode::NoResource => "N17",
            NoteCode::SpecialConsole => "N18",
            NoteCode::NoAccess => "N19",
            NoteCode::NeverDecides => "N20",
        }
    }
}

/// What was found.
#[derive(Clone, Copy)]
pub enum Finding {
    Warning {
        class: Class,
        pattern: Pattern,
    },
    OpenToAll {
        class: Class,
        pattern: Pattern,
        uacc: Level,
    },
    NoDigest(UserId),
    SameDigest {
        user: UserId,
        other: UserId,
    },
    EmptyGroup(GroupName),
    RevokedEntry {
        class: Class,
        pattern: Pattern,
        user: EntryId,
    },
    OneSpecial(UserId),
    NoSpecial,
    NoAuditor,
    NoMaster,
    OpenConsole {
        console: ConsoleName,
        auth: Auth,
    },
    NoOwnUser(ConsoleName),
    InactiveClass(Class),
    NoProfile(Class),
    OwnBelowGroup {
        pattern: Pattern,
        user: EntryId,
        level: Level,
        group: EntryId,
        higher: Level,
    },
    ServesNobody {
        pattern: Pattern,
        group: EntryId,
        level: Level,
    },
    NoResource(Pattern),
    SpecialConsole(ConsoleName),
    NoAccess(UserId),
    NeverDecides(Pattern),
}

impl Finding {
    /// The code of its note.
    pub fn code(&self) -> NoteCode
        ensures { result ≡ code_of self.now }
    {
        match self {
            Finding::Warning { .. } => NoteCode::Warning,
            Finding::OpenToAll { .. } => NoteCode::OpenToAll,
            Finding::NoDigest(_) => NoteCode::NoDigest,
            Finding::SameDigest { .. } => NoteCode::SameDigest,
            Finding::EmptyGroup(_) => NoteCode::EmptyGroup,
            Finding::RevokedEntry { .. } => NoteCode::RevokedEntry,
            Finding::OneSpecial(_) | Finding::NoSpecial => NoteCode::Special,
            Finding::NoAuditor => NoteCode::Auditor,
            Finding::NoMaster => NoteCode::Master,
            Finding::OpenConsole { .. } => NoteCode::OpenConsole,
            Finding::NoOwnUser(_) => NoteCode::NoOwnUser,
            Finding::InactiveClass(_) => NoteCode::InactiveClass,
            Finding::NoProfile(_) => NoteCode::NoProfile,
            Finding::OwnBelowGroup { .. } => NoteCode::OwnBelowGroup,
            Finding::ServesNobody { .. } => NoteCode::ServesNobody,
            Finding::NoResource(_) => NoteCode::NoResource,
            Finding::SpecialConsole(_) => NoteCode::SpecialConsole,
            Finding::NoAccess(_) => NoteCode::NoAccess,
            Finding::NeverDecides(_) => NoteCode::NeverDecides,
        }
    }
}

/// A note: the number of the row that it is about, if it is about one, and what was found.
#[derive(Clone, Copy)]
pub struct Note {
    pub row: Option<u64>,
    pub finding: Finding,
}
