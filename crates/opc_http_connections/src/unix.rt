//! Connections by the path of a Unix socket.
ghost use Rattle.std.specs.Prelude.{⊤};

use crate::connection::Connection;
use crate::listener::ClientListener;
use crate::socket_paths::FileId;
use std::io;
use std::io::{Read, Write};
use std::net::Shutdown;
use std::os::unix::net::{UnixListener, UnixStream};
use std::time::Duration;

/// A handle of a connection by a Unix socket.
#[derive(Drop)]
pub struct UnixClient {
    pub stream: UnixStream,
}

impl Read for UnixClient {
    fn read(&mut self, buf: &mut [u8]) -> io::Result<usize> {
        self.stream.read(buf)
    }
}

impl Write for UnixClient {
    fn write(&mut self, bytes: &[u8]) -> io::Result<usize> {
        self.stream.write(bytes)
    }

    fn flush(&mut self) -> io::Result<()> {
        self.stream.flush()
    }
}

impl Connection for UnixClient {
    ghost limits = { λ _ _ _. ⊤ };

    ghost clones = { λ _ _. ⊤ };

    ghost shuts = { λ _ _. ⊤ };

    fn limit_waits(&self, longest: Duration) -> io::Result<()> {
        self.stream.set_read_timeout(Some(longest))?;
        self.stream.set_write_timeout(Some(longest))
    }

    fn another(&self) -> io::Result<UnixClient> {
        let stream = self.stream.try_clone()?;
        Ok(UnixClient { stream })
    }

    fn shut(&self) -> io::Result<()> {
        self.stream.shutdown(Shutdown::Write)
    }
}

/// A listener at the path of a Unix socket, and which file was made for it there, if that is known.
#[derive(Drop)]
pub struct SocketListener {
    pub listener: UnixListener,
    pub file: Option<FileId>,
}

impl ClientListener for SocketListener {
    type Client = UnixClient;

    ghost accepts = { λ _ _. ⊤ };

    fn accept_client(&self) -> io::Result<UnixClient> {
        let (stream, _) = self.listener.accept()?;
        Ok(UnixClient { stream })
    }
}
