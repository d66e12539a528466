//! Timestamps, by the clock.
ghost use Rattle.std.specs.Prelude.{◌≡◌, ◌≤◌, IfOk};
ghost use Rattle.opc_http_serve.specs.Moments.{moment_at, moment_of};

use std::io;
use std::io::ErrorKind;
use std::rt::Clock;
use std::time::Duration;

/// The last timestamp: 13 digits.
pub const LAST_MOMENT: u64 = 9_999_999_999_999;

fn moment_at(since: Duration) -> u64
    ensures { result ≡ moment_at since }
{
    since.as_secs().min(LAST_MOMENT)
}

/// The timestamp by a reading of the clock. A time before 1970 is an error of its own there.
pub(crate) fn moment_of(reading: io::Result<Duration>) -> io::Result<u64>
    ensures { result ≡ moment_of reading }
{
    match reading {
        Ok(since) => Ok(moment_at(since)),
        Err(error) if error.kind() == ErrorKind::InvalidData => Ok(0),
        Err(error) => Err(error),
    }
}

/// The clock's whole seconds since 1970; 0 before then, and at most the last timestamp.
pub fn moment<C: Clock>(clock: &C) -> io::Result<u64>
    ensures { IfOk result (λ moment. moment ≤ LAST_MOMENT) }
{
    moment_of(clock.since_1970())
}
