//! Where bytes go.
ghost use Rattle.std.specs.Prelude.{
  ◌≡◌,
  ◌<◌,
  ℕ,
  List,
  Bool,
  Option,
  IfOk,
  OnErr,
  OnOk,
  is_err,
  if◌then◌else◌,
  length,
  true,
};
ghost use Rattle.std.specs.Io.{WritesAtMost};
ghost use Rattle.std.specs.Io.KnownBytes.{Appends, WriteAppends};
ghost use Rattle.opc_io.specs.Writes.{AppendsPrefix};

use std::io;

/// A writer that remembers whether a write to it failed. A write that takes none of the bytes is a failure.
pub trait Sink {
    /// The bytes that it holds, if they are known.
    ghost held: { Self → Option (List ℕ) };

    /// Whether a write to it failed.
    ghost has_failed: { Self → Bool };

    fn write(&mut self, bytes: &[u8]) -> io::Result<usize>
        ensures bound { WritesAtMost result bytes.now }
        ensures some { 0 < length bytes.now → IfOk result (λ n. 0 < n) }
        ensures bytes { WriteAppends (held self.old) (held self.new) result bytes.now }
        ensures failed { has_failed self.new ≡ (if is_err result then true else has_failed self.old) };
}

/// A write failed, or took no byte.
#[derive(Clone, Copy, PartialEq, Eq)]
pub struct WriteFault;

/// Writes the bytes, or, if a write fails, a prefix of them.
pub fn write_whole<S: Sink>(sink: &mut S, bytes: &[u8]) -> Result<(), WriteFault>
    ensures ok { OnOk result (Appends (S.held sink.old) (S.held sink.new) bytes.now) }
    ensures err { OnErr result (AppendsPrefix (S.held sink.old) (S.held sink.new) bytes.now) }
    ensures failed { S.has_failed sink.new ≡ (if is_err result then true else S.has_failed sink.old) }
{
    // Not `write_all`, whose clauses do not state what a failed write left. A failed write is not tried again, not even
    // if it was interrupted: that would need a bound.
    let mut done = 0;
    while done < bytes.len() {
        match sink.write(&bytes[done..]) {
            Ok(count) => done += count,
            Err(_) => return Err(WriteFault),
        }
    }
    Ok(())
}
