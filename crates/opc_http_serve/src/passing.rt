//! Transient faults of an accept, which are not those of the listener.
ghost use Rattle.std.specs.Prelude.{◌≡◌};
ghost use Rattle.opc_http_serve.specs.Passing.{is_passing};

use std::io;

/// The numbers of the system's transient errors: memory (ENOMEM), descriptors of the system (ENFILE) or of the program
/// (EMFILE) run out, the protocol fails (EPROTO), the network is down (ENETDOWN), the peer is gone (ECONNABORTED), or
/// there is no buffer (ENOBUFS).
pub const PASSING: [i32; 7] = [12, 23, 24, 71, 100, 103, 105];

/// Whether another connection may be accepted after this fault.
pub fn is_passing(error: &io::Error) -> bool
    ensures { result ≡ is_passing error.now }
{
    match error.raw_os_error() {
        Some(number) => PASSING.contains(&number),
        None => false,
    }
}
