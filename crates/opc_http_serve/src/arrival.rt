//! A client that came, or why none did.

use opc_http_connections::timed::Timed;
use std::io;
use thiserror::Error;

/// Why no further client is served.
#[derive(Clone, Copy, Debug, Error)]
pub enum ServeFault {
    #[error("no connection is accepted: {0}")]
    Accept(io::Error),
    #[error("the clock is not read: {0}")]
    Clock(io::Error),
}

/// A client that came: its connection, by a handle to read and one to write, each with the deadline of the exchange,
/// and the time of its arrival.
#[derive(Drop)]
pub struct Arrival<'a, C, K> {
    pub reader: Timed<'a, C, K>,
    pub writer: Timed<'a, C, K>,
    pub moment: u64,
}
