//! Why no further lines are answered.

use std::alloc::{AllocError, AllocFailed};
use std::io;
use thiserror::Error;

/// Why no further line is answered.
#[derive(Clone, Copy, Debug, Error)]
pub enum NowFault {
    /// No line could be read.
    #[error("{0}")]
    Input(io::Error),
    /// The clock could not be read.
    #[error("{0}")]
    Clock(io::Error),
    /// The output took no more.
    #[error("{0}")]
    Output(io::Error),
    #[error("no memory")]
    NoMemory,
}

impl From<AllocError> for NowFault {
    ghost use Rattle.std.specs.Prelude.{◌≡◌};
    ghost use Rattle.opc_cli_script.specs.declared.fault.NowFault.TheVariants.{NoMemory};

    ghost from_gives = { λ _ fault. fault ≡ NoMemory };

    fn from(_: AllocError) -> Self {
        NowFault::NoMemory
    }
}
