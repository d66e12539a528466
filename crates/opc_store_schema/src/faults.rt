//! What a caller learns about a failure.
ghost use Rattle.std.specs.Prelude.{◌≡◌};
ghost use Rattle.opc_terms.specs.declared.store_fault.StoreFault.TheVariants.{Store};
ghost use Rattle.opc_store_schema.specs.Changes.{fault_of};

use opc_terms::store_fault::StoreFault;
use sqlite::{Error, ErrorCode};

/// The fault of the store: a failed allocation is distinguished from every other cause.
pub fn fault(error: Error) -> StoreFault
    ensures { result ≡ fault_of error }
{
    match error {
        Error::SqliteFailure(ErrorCode::OutOfMemory) => StoreFault::NoMemory,
        // No other error is a failed allocation.
        _ => StoreFault::Store,
    }
}

/// The tables hold something that does not belong there.
pub fn unreadable() -> StoreFault
    ensures { result ≡ Store }
{
    StoreFault::Store
}
