//! What a unit of the board is.
use opc_names::name::UnitName;

/// The kind of the unit that a command names: absent, a job, a started task of a member, or a user's session.
#[derive(Clone, Copy, PartialEq, Eq)]
pub enum UnitKindAt {
    Absent,
    Job,
    Stc { member: UnitName },
    Tsu,
}
