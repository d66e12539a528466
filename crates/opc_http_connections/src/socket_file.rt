//! The file of a Unix socket.
ghost use Rattle.std.specs.Prelude.{◌≡◌, ◌↔◌, IfOk, IsTrue, OnOk};
ghost use Rattle.opc_http_connections.specs.Removing.{IsCleared, IsRemovedIfMade};

use crate::socket_paths::{FileId, SocketPaths};
use crate::unix::SocketListener;
use std::io;
use std::os::fd::{AsRawFd, OwnedFd};
use std::os::unix::net::UnixListener;

/// As many connections may wait to be accepted as the system allows.
const BACKLOG: i32 = -1;

/// A socket that has its file, and does not listen yet.
#[derive(Drop)]
pub struct BoundSocket {
    descriptor: OwnedFd,
    file: Option<FileId>,
}

/// Whether the file that was found is the one that was made.
fn is_made(made: FileId, found: FileId) -> bool
    ensures { IsTrue result ↔ found ≡ made }
{
    found.device == made.device && found.number == made.number
}

/// A new socket, whose file is made at this path.
pub fn make<N: SocketPaths>(net: &N, path: &str) -> io::Result<BoundSocket>
    ensures { IfOk result (λ bound. N.makes net.now path.now bound.descriptor × N.finds net.now path.now bound.file) }
{
    let descriptor = net.make_at(path)?;
    Ok(BoundSocket {
        file: net.find(path),
        descriptor,
    })
}

/// Gives the file at this path these permissions, whatever the umask is.
pub fn permit<N: SocketPaths>(net: &N, path: &str, mode: u32) -> io::Result<()>
    ensures { OnOk result (N.permits net.now path.now mode) }
{
    net.set_mode(path, mode)
}

/// Lets a socket that has its file listen.
pub fn listen(socket: BoundSocket) -> io::Result<SocketListener>
    ensures { IfOk result (λ listener. listener.file ≡ socket.file) }
{
    let BoundSocket { descriptor, file } = socket;
    if libc::net::listen(descriptor.as_raw_fd(), BACKLOG) < 0 {
        return Err(io::Error::from_raw_os_error(os::errno()));
    }
    let listener = UnixListener::from(descriptor);
    Ok(SocketListener { listener, file })
}

/// Removes the file of a socket at this path if nobody listens there; returns whether it did.
pub fn clear<N: SocketPaths>(net: &N, path: &str) -> bool
    ensures { IsCleared N.finds N.refuses N.removes net.now path.now result }
{
    net.find(path).is_some() && net.is_refused(path) && net.remove_left(path)
}

/// Removes the file at this path if it is the one that was made for this socket.
pub fn remove<N: SocketPaths>(net: &N, path: &str, socket: &SocketListener)
    ensures { IsRemovedIfMade N.finds N.removes net.now path.now socket.now.file }
{
    let (Some(made), Some(found)) = (socket.file, net.find(path)) else {
        return;
    };
    if is_made(made, found) {
        // (a file that is left is replaced by the next service)
        let _ = net.remove_made(path, socket);
    }
}
