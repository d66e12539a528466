//! What the program reads.
ghost use Rattle.std.specs.Prelude.{◌≡◌, ◌≤◌, ◌+◌, ◌-◌, IfOk, IfSome, take, vec_len};
ghost use Rattle.std.specs.Io.{ReadsAtMost};
ghost use Rattle.std.specs.Io.KnownBytes.{ReadConsumes};
ghost use Rattle.opc_io.specs.Reads.{ReadsMore, TakesAtMost};

use std::alloc::Global;
use std::io;
use std::io::{ErrorKind, Read};

/// The most bytes of one read.
const BLOCK: usize = 8192;

/// How often a read that a signal interrupts is tried again.
const TRIES: u32 = 1_000_000;

/// Reads once, and again if a signal came first.
fn read_once<R: Read>(input: &mut R, buf: &mut [u8]) -> io::Result<usize>
    ensures bound { ReadsAtMost result buf.new }
    ensures bytes { ReadConsumes (R.remaining input.old) (R.remaining input.new) result buf.new }
{
    for _ in 0..TRIES {
        match input.read(buf) {
            Err(error) if error.kind() == ErrorKind::Interrupted => {}
            read => return read,
        }
    }
    input.read(buf)
}

/// Reads at most a block, so that `bytes` grow to `most` at most; 0 means the end, or that there are this many.
fn read_block<R: Read>(input: &mut R, bytes: &mut Vec<u8>, most: usize) -> io::Result<usize>
    requires { vec_len bytes.old ≤ most }
    ensures more { IfOk result (λ n. ReadsMore (R.remaining input.old) (R.remaining input.new) bytes.old.items
        bytes.new.items most n) }
    ensures most { TakesAtMost (most - vec_len bytes.old) (R.remaining input.old) (R.remaining input.new) }
{
    let mut block = [0u8; BLOCK];
    let room = (most - bytes.len()).min(BLOCK);
    let count = read_once(input, &mut block[..room])?;
    bytes.extend_from_slice(&block[..count])?;
    Ok(count)
}

/// The bytes of a reader, up to one more than the limit; no more are read.
pub fn read_up_to<R: Read>(alloc: Global, input: &mut R, limit: u32) -> io::Result<Vec<u8>>
    ensures bytes { IfOk result (λ v. IfSome (R.remaining input.old) (λ all. v.items ≡ take (limit + 1) all)) }
    ensures most { TakesAtMost (limit + 1) (R.remaining input.old) (R.remaining input.new) }
{
    let most = limit as usize + 1;
    let mut bytes = Vec::new(alloc);
    while bytes.len() < most {
        if read_block(input, &mut bytes, most)? == 0 {
            return Ok(bytes);
        }
    }
    Ok(bytes)
}
