//! Why no request was read.
use crate::refusal::{AskFault, HttpRefusal};
use opc_io::source::SourceFault;

/// Why no request was read: what was read is refused, or a read or an allocation failed.
#[derive(Clone, Copy, Debug, PartialEq, Eq)]
pub enum ReadingFault {
    Refused(HttpRefusal),
    Read,
    NoMemory,
}

impl From<HttpRefusal> for ReadingFault {
    ghost use Rattle.std.specs.Prelude.{◌≡◌};
    ghost use Rattle.opc_http_requests.specs.declared.fault.ReadingFault.TheVariants.{Refused};

    ghost from_gives = { λ refusal fault. fault ≡ Refused refusal };

    fn from(refusal: HttpRefusal) -> ReadingFault {
        ReadingFault::Refused(refusal)
    }
}

impl From<AskFault> for ReadingFault {
    ghost use Rattle.std.specs.Prelude.{◌≡◌};
    ghost use Rattle.opc_http_requests.specs.Faults.{by_asking};

    ghost from_gives = { λ given fault. fault ≡ by_asking given };

    fn from(fault: AskFault) -> ReadingFault {
        match fault {
            AskFault::Refused(refusal) => ReadingFault::Refused(refusal),
            AskFault::NoMemory => ReadingFault::NoMemory,
        }
    }
}

impl From<SourceFault> for ReadingFault {
    ghost use Rattle.std.specs.Prelude.{◌≡◌};
    ghost use Rattle.opc_http_requests.specs.Faults.{by_reading};

    ghost from_gives = { λ given fault. fault ≡ by_reading given };

    fn from(fault: SourceFault) -> ReadingFault {
        match fault {
            SourceFault::Read => ReadingFault::Read,
            SourceFault::NoMemory => ReadingFault::NoMemory,
        }
    }
}
