//! Where bytes come from.
ghost use Rattle.std.specs.Prelude.{
  ◌≡◌,
  ◌≤◌,
  ◌-◌,
  List,
  Bool,
  Option,
  IfOk,
  is_err,
  if◌then◌else◌,
  min,
  true,
  vec_len,
  ℕ,
};
ghost use Rattle.std.specs.Io.{ReadsAtMost};
ghost use Rattle.std.specs.Io.KnownBytes.{ReadConsumes};
ghost use Rattle.opc_io.specs.Reads.{ReadsMore, ReadsOnce, TakesAtMost, given_by, is_read};

use std::io;

/// The most bytes of one read.
const BLOCK: usize = 1024;

/// A reader that remembers whether a read of it failed.
pub trait Source {
    /// A read of the first source gave these bytes and left the second; none if it failed. Only the reads that a
    /// function over any source makes can show what it promises by this.
    ghost gives: { Self → List ℕ → Self → Type 0 };

    /// The bytes that later reads will give, if they are known.
    ghost left: { Self → Option (List ℕ) };

    /// Whether a read of it failed.
    ghost has_failed: { Self → Bool };

    fn read(&mut self, buf: &mut [u8]) -> io::Result<usize>
        ensures given { gives self.old (given_by result buf.new) self.new }
        ensures bound { ReadsAtMost result buf.new }
        ensures bytes { ReadConsumes (left self.old) (left self.new) result buf.new }
        ensures failed { has_failed self.new ≡ (if is_err result then true else has_failed self.old) };
}

/// Why a part of a message was not read.
#[derive(Clone, Copy, PartialEq, Eq)]
pub enum SourceFault {
    Read,
    NoMemory,
}

/// Reads once, at most a block, so that `buf` grows to `most` bytes at most; 0 means the end, or that `buf` was full.
pub fn read_more<S: Source>(
    source: &mut S,
    buf: &mut Vec<u8>,
    most: usize,
) -> Result<usize, SourceFault>
    requires { vec_len buf.old ≤ most }
    ensures more { IfOk result (λ n. ReadsMore (S.left source.old) (S.left source.new) buf.old.items buf.new.items most
        n) }
    ensures once { ReadsOnce S.left S.gives (min 1024 (most - vec_len buf.old)) source.old source.new buf.old.items
        buf.new.items result }
    ensures most { TakesAtMost (most - vec_len buf.old) (S.left source.old) (S.left source.new) }
    ensures failed { S.has_failed source.new ≡ (if is_read result then true else S.has_failed source.old) }
{
    let mut chunk = [0u8; BLOCK];
    let room = (most - buf.len()).min(BLOCK);
    let Ok(n) = source.read(&mut chunk[..room]) else {
        return Err(SourceFault::Read);
    };
    if buf.extend_from_slice(&chunk[..n]).is_err() {
        return Err(SourceFault::NoMemory);
    }
    Ok(n)
}
