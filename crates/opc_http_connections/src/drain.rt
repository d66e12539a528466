//! The end of a response.
ghost use Rattle.std.specs.Prelude.{◌≡◌, ◌+◌, ◌*◌, ◌≤◌, ◌<◌, ◌⊎◌, ◌↔◌, IsTrue, List, ℕ, length};
ghost use Rattle.opc_io.specs.Reads.{TakesAtMost};
ghost use Rattle.opc_http_connections.specs.Draining.{IsDrained, IsReadOut};

use crate::connection::Connection;
use crate::timed::Timed;
use crate::timer::Timer;
use opc_io::source::Source;
use std::time::Duration;

/// The most bytes of each read of what a peer sent beyond the request.
const CHUNK: usize = 32_768;

/// The most bytes of the first of them, and the most reads after it.
const LITTLE: usize = 64;

const MORE_READS: u32 = 31;

/// The most seconds that all of them wait.
const WAIT: u64 = 1;

/// Reads once and drops what it read; returns whether more may follow.
fn drain_some<S: Source>(source: &mut S, chunk: &mut [u8]) -> bool
    requires { length chunk.old ≤ CHUNK }
    ensures few { TakesAtMost CHUNK (S.left source.old) (S.left source.new) }
    ensures read { (given : List ℕ) × S.gives source.old given source.new × (IsTrue result ↔ 0 < length given) }
{
    match source.read(chunk) {
        Ok(n) => n > 0,
        Err(_) => false,
    }
}

/// Reads on and drops what it read, to the end or to the limit.
fn drain_more<S: Source>(source: &mut S)
    ensures few { TakesAtMost (MORE_READS * CHUNK) (S.left source.old) (S.left source.new) }
    ensures out { IsReadOut S.gives MORE_READS source.old source.new }
{
    let mut chunk = [0u8; CHUNK];
    for _read in 0..MORE_READS {
        if !drain_some(source, &mut chunk) {
            return;
        }
    }
}

/// The same from the first read on. Most peers send nothing more, so room for a large read is made only if a small one
/// was filled in part.
fn drain_rest<S: Source>(source: &mut S)
    ensures few { TakesAtMost (CHUNK + MORE_READS * CHUNK) (S.left source.old) (S.left source.new) }
    ensures out { IsReadOut S.gives (1 + MORE_READS) source.old source.new }
{
    let mut little = [0u8; LITTLE];
    if drain_some(source, &mut little) {
        drain_more(source);
    }
}

/// Ends a response: shuts down our half, and drains what the peer still sends, in few reads, for a short time and not
/// past the deadline. Otherwise the system would reset a connection that has bytes to read, and the peer might lose the
/// response.
pub fn drain<C: Connection, K: Timer>(reader: &mut Timed<'_, C, K>)
    ensures few { TakesAtMost (CHUNK + MORE_READS * CHUNK) (C.remaining reader.old.handle)
        (C.remaining reader.new.handle) }
    ensures drained { IsDrained C.limits K.shows C.reads C.remaining C.shuts reader.old reader.new }
{
    let shut = reader.handle.shut();
    let hurried = reader.hurry(Duration::from_secs(WAIT));
    if shut.is_ok() && hurried.is_ok() {
        drain_rest(reader);
    }
}
