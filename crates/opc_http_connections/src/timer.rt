//! The clock by which deadlines are kept.
ghost use Rattle.std.specs.Prelude.{◌≡◌, ◌≤◌, ◌<◌, ◌+◌, Err, IfErr, IfOk, IsSomeAnd};
ghost use Rattle.std.specs.Duration.{as_nanos};
ghost use Rattle.std.specs.IoError.{error_kind};
ghost use Rattle.opc_http_connections.specs.Timed.{IsDue};

use std::io;
use std::io::ErrorKind;
use std::rt::Clock;
use std::time::Duration;

/// A monotonic clock: the time since a start of its own.
pub trait Timer {
    ghost use Rattle.std.specs.Prelude.{Result};
    ghost use Rattle.std.specs.declared.io.Error.{Error};
    ghost use Rattle.std.specs.declared.time.Duration.{Duration};

    /// The clock was read, and showed this. Only such a reading can show what a function over any timer promises by it.
    ghost shows: { Self → Result Duration Error → Type 0 };

    fn time(&self) -> io::Result<Duration>
        ensures { shows self.now result };
}

// No clause states that a clock of the system was read.
impl<H: Clock> Timer for H {
    ghost use Rattle.std.specs.Prelude.{⊤};

    ghost shows = { λ _ _. ⊤ };

    fn time(&self) -> io::Result<Duration> {
        self.monotonic()
    }
}

/// The deadline this long after now; none if there is no limit.
pub fn deadline_after<K: Timer>(timer: &K, limit: Option<Duration>) -> io::Result<Option<Duration>>
    ensures due { IfOk result (λ deadline. IsDue K.shows timer.now limit deadline) }
    ensures failed { IfErr result (λ error. IsSomeAnd limit (λ _. K.shows timer.now (Err error))) }
{
    match limit {
        Some(time) => Ok(Some(timer.time()?.saturating_add(time))),
        None => Ok(None),
    }
}

/// The time left until a deadline, or that it is over.
pub(crate) fn left_until(deadline: Duration, time: Duration) -> io::Result<Duration>
    ensures left { IfOk result (λ left. (as_nanos time + as_nanos left ≡ as_nanos deadline) × (0 < as_nanos left)) }
    ensures over { IfErr result
        (λ error. (as_nanos deadline ≤ as_nanos time) × (error_kind error ≡ ErrorKind.TimedOut)) }
{
    match deadline.checked_sub(time) {
        Some(left) if !left.is_zero() => Ok(left),
        // Nothing is left, so the deadline is over.
        _ => Err(io::Error::from(ErrorKind::TimedOut)),
    }
}
