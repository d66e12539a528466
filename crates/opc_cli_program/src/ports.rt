//! What lets the program listen.
ghost use Rattle.std.specs.Prelude.{IfOk, OnOk};

use opc_http_connections::connection::Connection;
use opc_http_connections::listener::ClientListener;
use opc_http_connections::socket_file;
use opc_http_connections::socket_file::BoundSocket;
use opc_http_connections::unix::SocketListener;
use std::fs::Files;
use std::io;
use std::net::{Net, OpenListener, SocketAddr};

/// Where the program may listen.
pub trait Ports {
    ghost use Rattle.std.specs.Prelude.{ℕ, List};
    ghost use Rattle.std.specs.declared.net.socket_addr.SocketAddr.{SocketAddr};
    ghost use Rattle.opc_cli_program.specs.Listening.{IsLocalhost};

    /// Listens at a port.
    type Listener: ClientListener + Drop;

    /// A Unix socket that has its file, and does not listen yet.
    type Bound: Drop;

    /// Listens at the file of a Unix socket.
    type Socket: ClientListener + Drop;

    /// A listener was bound to an address. Only a call can show what a function over any ports promises by this.
    ghost binds: { Self → SocketAddr → Self.Listener → Type 0 };

    /// This is the address of a listener.
    ghost is_at: { Self → Self.Listener → SocketAddr → Type 0 };

    /// The file at this path was made for a socket.
    ghost names: { Self → List ℕ → Self.Bound → Type 0 };

    /// The file at this path was given these permissions.
    ghost permits: { Self → List ℕ → ℕ → Type 0 };

    /// A socket began to listen.
    ghost listens: { Self → Self.Bound → Self.Socket → Type 0 };

    /// The file at this path was removed, if it was the one that was made for this socket, and nothing else was.
    ghost removes: { Self → List ℕ → Self.Socket → Type 0 };

    /// Listens at an address of this host alone.
    fn bind(&self, address: SocketAddr) -> io::Result<Self::Listener>
        requires { IsLocalhost address }
        ensures { IfOk result (λ listener. binds self.now address listener) };

    fn address_of(&self, listener: &Self::Listener) -> io::Result<SocketAddr>
        ensures { IfOk result (λ address. is_at self.now listener.now address) };

    /// Makes a socket with a file at this path, if there is none. Nobody can connect to it before it listens.
    fn make_file(&self, path: &str) -> io::Result<Self::Bound>
        ensures { IfOk result (λ bound. names self.now path.now bound) };

    fn permit(&self, path: &str, mode: u32) -> io::Result<()>
        ensures { OnOk result (permits self.now path.now mode) };

    /// Lets a socket listen, whose file has its permissions.
    fn listen(&self, bound: Self::Bound) -> io::Result<Self::Socket>
        requires { (path : List ℕ) × (mode : ℕ) × names self.now path bound × permits self.now path mode }
        ensures { IfOk result (λ socket. listens self.now bound socket) };

    /// Removes the file of a socket at which nobody listens, if that is what is at this path; returns whether it did.
    fn clear(&self, path: &str) -> bool;

    /// Removes the file of a socket that is no longer used, if what is at this path is the file that was made for it.
    fn remove(&self, path: &str, socket: &Self::Socket)
        ensures { removes self.now path.now socket.now };
}

/// The system's ports and files.
#[derive(Drop)]
pub struct System<'a, H: Net> {
    pub net: &'a H,
}

impl<H: Files + Net> Ports for System<'_, H>
where
    H::Stream: Connection,
{
    ghost use Rattle.std.specs.Prelude.{⊤};

    type Listener = H::Listener;

    type Bound = BoundSocket;

    type Socket = SocketListener;

    ghost binds = { λ _ _ _. ⊤ };

    ghost is_at = { λ _ _ _. ⊤ };

    ghost names = { λ _ _ _. ⊤ };

    ghost permits = { λ _ _ _. ⊤ };

    ghost listens = { λ _ _ _. ⊤ };

    ghost removes = { λ _ _ _. ⊤ };

    fn bind(&self, address: SocketAddr) -> io::Result<H::Listener> {
        self.net.bind(address)
    }

    fn address_of(&self, listener: &H::Listener) -> io::Result<SocketAddr> {
        listener.local_addr()
    }

    fn make_file(&self, path: &str) -> io::Result<BoundSocket> {
        socket_file::make(self.net, path)
    }

    fn permit(&self, path: &str, mode: u32) -> io::Result<()> {
        socket_file::permit(self.net, path, mode)
    }

    fn listen(&self, bound: BoundSocket) -> io::Result<SocketListener> {
        socket_file::listen(bound)
    }

    fn clear(&self, path: &str) -> bool {
        socket_file::clear(self.net, path)
    }

    fn remove(&self, path: &str, socket: &SocketListener) {
        socket_file::remove(self.net, path, socket);
    }
}
