//! What the system does at the paths of sockets.

use crate::unix::SocketListener;
use std::fs::{Files, Permissions};
use std::io::ErrorKind;
use std::net::Net;
use std::os::fd::{AsFd, OwnedFd};
use std::os::unix::fs::{FileTypeExt, MetadataExt, PermissionsExt};
use std::os::unix::net::{SocketAddr, UnixStream};
use std::{fs, io};

/// Which file is at a path: its device and its number there. As long as a socket is open, the system gives the number
/// of its file to no other file, even if that is removed.
#[derive(Clone, Copy)]
pub struct FileId {
    pub device: u64,
    pub number: u64,
}

/// Where sockets have their files. Only its calls can show what a function over any paths promises by its facts.
pub trait SocketPaths {
    ghost use Rattle.std.specs.Prelude.{ℕ, Bool, List, Option, Some, IfOk, IsSomeAnd, OnOk, true};
    ghost use Rattle.std.specs.declared.fd.OwnedFd.{OwnedFd};
    ghost use Rattle.opc_http_connections.specs.declared.socket_paths.FileId.{FileId};

    /// A socket was made, and a file for it at this path.
    ghost makes: { Self → List ℕ → OwnedFd → Type 0 };

    /// The file of this socket was found at a path, or none of a socket was.
    ghost finds: { Self → List ℕ → Option FileId → Type 0 };

    /// Whether a connection to a path was refused since nobody listens there.
    ghost refuses: { Self → List ℕ → Bool → Type 0 };

    /// The file at a path was given these permissions.
    ghost permits: { Self → List ℕ → ℕ → Type 0 };

    /// A call removed the file at a path, and whether it succeeded.
    ghost removes: { Self → List ℕ → Bool → Type 0 };

    /// Nobody can connect to the socket before it listens, whatever the permissions of the file are.
    fn make_at(&self, path: &str) -> io::Result<OwnedFd>
        ensures { IfOk result (λ descriptor. makes self.now path.now descriptor) };

    fn find(&self, path: &str) -> Option<FileId>
        ensures { finds self.now path.now result };

    fn is_refused(&self, path: &str) -> bool
        ensures { refuses self.now path.now result };

    fn set_mode(&self, path: &str, mode: u32) -> io::Result<()>
        ensures { OnOk result (permits self.now path.now mode) };

    /// Removes the file of a socket at which nobody listens: a service that was killed leaves one.
    fn remove_left(&self, path: &str) -> bool
        requires found { (file : FileId) × finds self.now path.now (Some file) }
        requires left { refuses self.now path.now true }
        ensures { removes self.now path.now result };

    /// Removes the file that was made for this socket.
    fn remove_made(&self, path: &str, socket: &SocketListener) -> bool
        requires { IsSomeAnd socket.now.file (λ made. finds self.now path.now (Some made)) }
        ensures { removes self.now path.now result };
}

// No clause states what the system's calls do: `opc_http_connections_tests` tests each.
impl<N: Files + Net> SocketPaths for N {
    ghost use Rattle.std.specs.Prelude.{⊤};

    ghost makes = { λ _ _ _. ⊤ };

    ghost finds = { λ _ _ _. ⊤ };

    ghost refuses = { λ _ _ _. ⊤ };

    ghost permits = { λ _ _ _. ⊤ };

    ghost removes = { λ _ _ _. ⊤ };

    fn make_at(&self, path: &str) -> io::Result<OwnedFd> {
        let address = SocketAddr::from_pathname(path)?;
        let descriptor = self.unix_socket()?;
        self.bind_unix(descriptor.as_fd(), &address)?;
        Ok(descriptor)
    }

    fn find(&self, path: &str) -> Option<FileId> {
        match fs::symlink_metadata(self, path) {
            Ok(found) if found.file_type().is_socket() => Some(FileId {
                device: found.dev(),
                number: found.ino(),
            }),
            // What is no socket, or is not shown, is none of ours.
            _ => None,
        }
    }

    fn is_refused(&self, path: &str) -> bool {
        match UnixStream::connect(self, path) {
            Ok(_) => false,
            Err(error) => error.kind() == ErrorKind::ConnectionRefused,
        }
    }

    fn set_mode(&self, path: &str, mode: u32) -> io::Result<()> {
        fs::set_permissions(self, path, Permissions::from_mode(mode))
    }

    fn remove_left(&self, path: &str) -> bool {
        fs::remove_file(self, path).is_ok()
    }

    fn remove_made(&self, path: &str, _socket: &SocketListener) -> bool {
        fs::remove_file(self, path).is_ok()
    }
}
