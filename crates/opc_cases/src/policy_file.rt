//! Policy files, and the faults of what is asked about them.
use anyhow::{Result, bail};
use opc_terms::fault::Fault;
use std::alloc::{AllocError, Global};

/// The first line of a policy file.
pub const HEADER: &str = "kind,class,name,id,value,owner,flags,digest,when,restricted\n";

/// A fault by its code and text.
pub fn spelled(alloc: Global, fault: &Fault) -> Result<String, AllocError> {
    format!(in alloc; "{} {fault}", fault.code())
}

/// A fault as an answer. A failed allocation is none, and ends the program.
pub fn reported(alloc: Global, fault: &Fault) -> Result<String> {
    match fault {
        Fault::NoMemory => bail!("out of memory"),
        fault => Ok(spelled(alloc, fault)?),
    }
}
