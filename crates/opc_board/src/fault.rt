//! Faults of the board.
use std::alloc::{AllocError, AllocFailed};

/// Why the board refuses, `NoMemory` among them.
#[derive(Clone, Copy, Debug)]
pub enum BoardFault {
    NoUnit,
    NonCancelable,
    Cancelable,
    UnitExists,
    NoDevice,
    DeviceState,
    DeviceInUse,
    NoVolume,
    NoReply,
    NoTarget,
    Halted,
    LastMaster,
    WrongKind,
    ReplyExists,
    NoMemory,
}

impl From<AllocError> for BoardFault {
    ghost use Rattle.std.specs.Prelude.{◌≡◌};
    ghost use Rattle.opc_board.specs.declared.fault.BoardFault.TheVariants.{NoMemory};

    ghost from_gives = { λ _ fault. fault ≡ NoMemory };

    fn from(_error: AllocError) -> Self {
        BoardFault::NoMemory
    }
}

impl<T: Drop> From<AllocFailed<T>> for BoardFault {
    ghost use Rattle.std.specs.Prelude.{◌≡◌};
    ghost use Rattle.opc_board.specs.declared.fault.BoardFault.TheVariants.{NoMemory};

    ghost from_gives = { λ _ fault. fault ≡ NoMemory };

    fn from(_error: AllocFailed<T>) -> Self {
        BoardFault::NoMemory
    }
}
