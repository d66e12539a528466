//! Rows of a written policy.
use crate::user::User;
use opc_names::auth::Auth;
use opc_names::class::Class;
use opc_names::level::Level;
use opc_names::name::{ConsoleName, GroupName, Pattern, UserId};
use opc_terms::entry_id::EntryId;
use opc_terms::mode::Mode;

/// One row of a written policy. The kinds are in the order in which a policy is written.
#[derive(Clone, Copy, PartialEq, Eq)]
pub enum Row {
    Class {
        class: Class,
        active: bool,
    },
    Group {
        name: GroupName,
    },
    User(User),
    Connect {
        user: UserId,
        group: GroupName,
    },
    Console {
        name: ConsoleName,
        auth: Auth,
        mode: Mode,
    },
    Profile {
        class: Class,
        pattern: Pattern,
        uacc: Level,
        owner: UserId,
        warning: bool,
    },
    Permit {
        class: Class,
        pattern: Pattern,
        id: EntryId,
        level: Level,
        when: Option<ConsoleName>,
    },
}
