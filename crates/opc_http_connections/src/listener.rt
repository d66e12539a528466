//! Where clients connect.
ghost use Rattle.std.specs.Prelude.{⊤};

use crate::connection::Connection;
use std::io;
use std::net::OpenListener;

/// A listener, at a port or at the path of a Unix socket.
pub trait ClientListener {
    ghost use Rattle.std.specs.Prelude.{Result};
    ghost use Rattle.std.specs.declared.io.Error.{Error};

    type Client: Connection;

    /// A call accepted a connection, with its result. Only such a call can show what a function over any listener
    /// promises by this.
    ghost accepts: { Self → Result Self.Client Error → Type 0 };

    /// The connection of the next client.
    fn accept_client(&self) -> io::Result<Self::Client>
        ensures { accepts self.now result };
}

impl<L: OpenListener> ClientListener for L
where
    L::Stream: Connection,
{
    type Client = L::Stream;

    ghost accepts = { λ _ _. ⊤ };

    fn accept_client(&self) -> io::Result<L::Stream> {
        let (client, _) = self.accept()?;
        Ok(client)
    }
}
