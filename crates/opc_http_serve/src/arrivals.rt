//! Clients that come, one after another.
ghost use Rattle.opc_http_serve.specs.Arriving.{Accepts, Arrives};

use crate::arrival::{Arrival, ServeFault};
use crate::clock::moment_of;
use crate::passing::is_passing;
use opc_http_connections::connection::Connection;
use opc_http_connections::timed::Timed;
use opc_http_connections::timer::{Timer, deadline_after};
use std::io;
use std::time::Duration;

/// Where clients come from, and the clock there.
pub trait Arrivals {
    ghost use Rattle.std.specs.Prelude.{Option, Result};
    ghost use Rattle.std.specs.declared.io.Error.{Error};
    ghost use Rattle.std.specs.declared.time.Duration.{Duration};

    type Connection: Connection;

    /// A client came, with a handle to read its connection and one to write it, or why none did. Only the calls that a
    /// function over any arrivals makes can show what it promises by this.
    ghost accepts: { Self → Result (Option (Self.Connection × Self.Connection)) Error → Self → Type 0 };

    /// The clock was read, and showed this.
    ghost clock_says: { Self → Result Duration Error → Self → Type 0 };

    /// The handles of the next connection; none if it cannot have two.
    fn accept(&mut self) -> io::Result<Option<(Self::Connection, Self::Connection)>>
        ensures { accepts self.old result self.new };

    fn since_1970(&mut self) -> io::Result<Duration>
        ensures { clock_says self.old result self.new };
}

/// The handles of the next connection; none if the accept failed by a transient fault.
fn accepted<A: Arrivals>(
    arrivals: &mut A,
) -> Result<Option<(A::Connection, A::Connection)>, ServeFault>
    ensures { Accepts A.accepts arrivals.old result arrivals.new }
{
    match arrivals.accept() {
        Ok(handles) => Ok(handles),
        Err(error) if is_passing(&error) => Ok(None),
        Err(error) => Err(ServeFault::Accept(error)),
    }
}

/// Accepts the next client, with the time of its arrival and the time that its exchange has from then on. There is none
/// if the accept failed.
pub fn next<'a, A: Arrivals, K: Timer>(
    timer: &'a K,
    arrivals: &mut A,
    timeout: Option<Duration>,
) -> Result<Option<Arrival<'a, A::Connection, K>>, ServeFault>
    ensures { Arrives A.accepts A.clock_says K.shows timer.entry.now timeout arrivals.old result arrivals.new }
{
    let Some((reader, writer)) = accepted(arrivals)? else {
        return Ok(None);
    };
    let deadline = match deadline_after(timer, timeout) {
        Ok(deadline) => deadline,
        Err(error) => return Err(ServeFault::Clock(error)),
    };
    match moment_of(arrivals.since_1970()) {
        Ok(moment) => Ok(Some(Arrival {
            reader: Timed::new(reader, timer, deadline),
            writer: Timed::new(writer, timer, deadline),
            moment,
        })),
        Err(error) => Err(ServeFault::Clock(error)),
    }
}
