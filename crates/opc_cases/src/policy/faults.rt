//! Faults by their codes: those in which no script or policy of the examples ends.
use anyhow::{Result, bail};
use opc_names::name::UserId;
use opc_terms::fault::{Fault, Subject};

/// The fault of a code.
pub fn fault_of(code: &str) -> Result<Fault> {
    Ok(match code {
        "E31" => Fault::NonCancelable,
        "E33" => Fault::UnitExists,
        "E37" => Fault::NoVolume,
        "E39" => Fault::NoTarget,
        "E42" => Fault::WrongKind,
        "E45" => Fault::ReplyExists,
        "E50" => Fault::NotSpecial,
        "E51" => Fault::NotOwner,
        "E55" => Fault::InUse(Subject::of(&UserId::read("ANNA")?)),
        "E56" => Fault::BatchChanged,
        "E90" => Fault::NoMemory,
        "E92" => Fault::NotOurs { version: 2 },
        _ => bail!("no fault"),
    })
}
