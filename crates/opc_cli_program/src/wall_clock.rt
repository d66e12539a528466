//! The clock that shows the time of day.
ghost use Rattle.std.specs.Prelude.{◌≤◌, IfOk};
ghost use Rattle.opc_http_serve.specs.declared.clock.TheConstants.{LAST_MOMENT};

use opc_http_serve::clock::moment;
use std::io;

/// A clock by which requests get their timestamps.
pub trait WallClock {
    ghost use Rattle.std.specs.Prelude.{ℕ};

    /// Such a clock was read, and this was the timestamp. Only a reading can show what a function over any clock
    /// promises by it.
    ghost shows_moment: { ℕ → Type 0 };

    fn moment_now(&self) -> io::Result<u64>
        ensures shown { IfOk result (λ moment. shows_moment moment) }
        ensures valid { IfOk result (λ moment. moment ≤ LAST_MOMENT) };
}

// No clause states that the clock of the system was read.
impl WallClock for HostRuntime {
    ghost use Rattle.std.specs.Prelude.{⊤};

    ghost shows_moment = { λ _. ⊤ };

    fn moment_now(&self) -> io::Result<u64> {
        moment(self)
    }
}
