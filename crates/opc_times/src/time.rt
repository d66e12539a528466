//! Times, as RFC 3339 writes them.
ghost use Rattle.std.specs.Prelude.{◌≡◌, IfOk, pos, string_bytes};
ghost use Rattle.jiff.specs.Words.{civil_nanos};
ghost use Rattle.opc_times.specs.Times.{IsTime};

use jiff::Timestamp;
use jiff::civil::DateTime;
use jiff::tz::Offset;
use std::alloc::{AllocError, Global};
use std::time::Duration;

/// When 1970 began, in UTC.
fn epoch() -> DateTime
    ensures { civil_nanos result ≡ pos 0 }
{
    Offset::UTC.to_datetime(Timestamp::UNIX_EPOCH)
}

/// A timestamp as a time in UTC; after the year 9999 as a number.
pub fn time_text(alloc: Global, moment: u64) -> Result<String, AllocError>
    ensures { IfOk result (λ time. IsTime moment (string_bytes time)) }
{
    match epoch().checked_add(Duration::from_secs(moment)) {
        Ok(at) => format!(in alloc; "{at}Z"),
        Err(_) => moment.to_string(alloc),
    }
}
