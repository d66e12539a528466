//! The operations of administration.
use opc_names::auth::Auth;
use opc_names::class::Class;
use opc_names::level::Level;
use opc_names::name::{ConsoleName, GroupName, Pattern, UserId};
use opc_terms::entry_id::EntryId;
use opc_terms::mode::Mode;

/// What is done to users, groups and connects; to profiles and their access lists; to classes and consoles (RACF guide:
/// the commands of these names).
#[derive(Clone, Copy)]
pub enum Operation {
    /// A user who is not revoked. Without a digest the user cannot log on.
    AddUser {
        id: UserId,
        special: bool,
        auditor: bool,
        digest: Option<[u8; 32]>,
        restricted: bool,
    },
    AltUser {
        id: UserId,
        special: bool,
        auditor: bool,
        revoked: bool,
        digest: Option<[u8; 32]>,
        restricted: bool,
    },
    DelUser {
        id: UserId,
    },
    AddGroup {
        name: GroupName,
    },
    Connect {
        user: UserId,
        group: GroupName,
    },
    Remove {
        user: UserId,
        group: GroupName,
    },
    RDefine {
        class: Class,
        pattern: Pattern,
        owner: UserId,
        uacc: Level,
        warning: bool,
    },
    /// The profile keeps its access list.
    RAlter {
        class: Class,
        pattern: Pattern,
        owner: UserId,
        uacc: Level,
        warning: bool,
    },
    /// The access list is removed with the profile.
    RDelete {
        class: Class,
        pattern: Pattern,
    },
    /// An entry for one console alone or, if none is given, for every console.
    Permit {
        class: Class,
        pattern: Pattern,
        id: EntryId,
        level: Level,
        when: Option<ConsoleName>,
    },
    PermitDelete {
        class: Class,
        pattern: Pattern,
        id: EntryId,
        when: Option<ConsoleName>,
    },
    ClassActive {
        class: Class,
        active: bool,
    },
    DefineConsole {
        name: ConsoleName,
        auth: Auth,
        mode: Mode,
    },
}
