//! Why a state of a policy is not in its folder.
use opc_terms::fault::Fault;
use std::io;

/// Why a state was not brought into its folder.
#[derive(Clone, Copy, Debug)]
pub enum PolicyFault {
    /// The policy could not be loaded, or its text not be allocated.
    Gate(Fault),
    /// A call of the system failed.
    System(io::Error),
}
