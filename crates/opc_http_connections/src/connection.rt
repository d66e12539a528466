//! Connections to clients.
ghost use Rattle.std.specs.Prelude.{is_ok, ⊤};

use opc_io::stream::{Readable, Writable};
use std::io;
use std::net::{Shutdown, TcpStream};
use std::time::Duration;

/// A handle of a connection to a client.
pub trait Connection: Readable + Writable + Drop {
    ghost use Rattle.std.specs.Prelude.{Bool, Result};
    ghost use Rattle.std.specs.declared.io.Error.{Error};
    ghost use Rattle.std.specs.declared.time.Duration.{Duration};

    /// A call limited the waits for its peer to this duration, and whether it succeeded. Only such a call can show what
    /// a function over any connection promises by this.
    ghost limits: { Self → Duration → Bool → Type 0 };

    /// A call asked for another handle of the connection, with its result. Only such a call can show it.
    ghost clones: { Self → Result Self Error → Type 0 };

    /// A call shut down our half of the connection, and whether it succeeded. Only such a call can show it.
    ghost shuts: { Self → Bool → Type 0 };

    /// Limits how long each read and each write waits for the peer, by this handle and by others.
    fn limit_waits(&self, longest: Duration) -> io::Result<()>
        ensures { limits self.now longest (is_ok result) };

    /// Another handle of the connection.
    fn another(&self) -> io::Result<Self>
    where
        Self: Sized,
        ensures { clones self.now result };

    /// Shuts down our half of the connection: after what was written, the peer reads the end.
    fn shut(&self) -> io::Result<()>
        ensures { shuts self.now (is_ok result) };
}

// No clause states what the system's calls do: `opc_http_connections_tests` tests each.
impl Connection for TcpStream {
    ghost limits = { λ _ _ _. ⊤ };

    ghost clones = { λ _ _. ⊤ };

    ghost shuts = { λ _ _. ⊤ };

    fn limit_waits(&self, longest: Duration) -> io::Result<()> {
        self.set_read_timeout(Some(longest))?;
        self.set_write_timeout(Some(longest))
    }

    fn another(&self) -> io::Result<TcpStream> {
        self.try_clone()
    }

    fn shut(&self) -> io::Result<()> {
        self.shutdown(Shutdown::Write)
    }
}
