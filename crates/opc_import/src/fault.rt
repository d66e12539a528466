//! Why a text is not a policy file.
use opc_terms::fault::{Fault, Why};
use std::alloc::{AllocError, AllocFailed};

/// Why no rows were read: the first bad row, counted from 1, with the header as row 0; or a failed allocation.
#[derive(Clone, Copy, Debug, PartialEq, Eq)]
pub enum ImportFault {
    Row { row: u32, why: Why },
    NoMemory,
}

impl From<ImportFault> for Fault {
    ghost use Rattle.std.specs.Prelude.{◌≡◌};
    ghost use Rattle.opc_import.specs.Faults.{as_fault};

    ghost from_gives = { λ fault given. given ≡ as_fault fault };

    fn from(fault: ImportFault) -> Fault {
        match fault {
            ImportFault::Row { row, why } => Fault::RowFault { row, why },
            ImportFault::NoMemory => Fault::NoMemory,
        }
    }
}

impl From<AllocError> for ImportFault {
    ghost use Rattle.std.specs.Prelude.{◌≡◌};
    ghost use Rattle.opc_import.specs.declared.fault.ImportFault.TheVariants.{NoMemory};

    ghost from_gives = { λ _ fault. fault ≡ NoMemory };

    fn from(_error: AllocError) -> ImportFault {
        ImportFault::NoMemory
    }
}

impl<T: Drop> From<AllocFailed<T>> for ImportFault {
    ghost use Rattle.std.specs.Prelude.{◌≡◌};
    ghost use Rattle.opc_import.specs.declared.fault.ImportFault.TheVariants.{NoMemory};

    ghost from_gives = { λ _ fault. fault ≡ NoMemory };

    fn from(_error: AllocFailed<T>) -> ImportFault {
        ImportFault::NoMemory
    }
}
