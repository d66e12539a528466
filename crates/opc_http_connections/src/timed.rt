//! Connections whose reads and writes end by a deadline.
ghost use Rattle.std.specs.Prelude.{◌≡◌, ◌<◌, Err, IfErr, IfOk, OnErr, OnOk, Some, false, if◌then◌else◌, is_err, length, true};
ghost use Rattle.std.specs.Io.{ReadsAtMost, WritesAtMost};
ghost use Rattle.std.specs.Io.KnownBytes.{Consumes, ReadConsumes, WriteAppends};
ghost use Rattle.opc_io.specs.Calls.{Writes};
ghost use Rattle.opc_io.specs.Reads.{given_by};
ghost use Rattle.opc_http_connections.specs.Timed.{
  IsHurried,
  IsLimited,
  IsReadInTime,
  IsTried,
  IsTry,
  is_interrupted,
};

use crate::connection::Connection;
use crate::timer::{Timer, left_until};
use opc_io::sink::Sink;
use opc_io::source::Source;
use std::io;
use std::io::ErrorKind;
use std::time::Duration;

/// How often a call that a signal interrupts is tried again. A deadline ends it sooner.
const AGAIN: u32 = 1_000_000_000;

/// A handle of a connection, by which no call waits past a deadline; and whether a call by it failed.
#[derive(Drop)]
pub struct Timed<'a, C, K> {
    pub handle: C,
    pub timer: &'a K,
    /// A time of the timer. Without a deadline, calls wait as long as they must.
    pub deadline: Option<Duration>,
    pub failed: bool,
}

fn is_interrupted(answer: &io::Result<usize>) -> bool
    ensures { result ≡ is_interrupted answer.now }
{
    match answer {
        Ok(_) => false,
        Err(error) => error.kind() == ErrorKind::Interrupted,
    }
}

impl<'a, C, K> Timed<'a, C, K> {
    /// Nothing has failed yet.
    pub fn new(handle: C, timer: &'a K, deadline: Option<Duration>) -> Self
        ensures handle { result.handle ≡ handle }
        ensures timer { result.timer.now ≡ timer.entry.now }
        ensures deadline { result.deadline ≡ deadline }
        ensures fine { result.failed ≡ false }
    {
        Timed {
            handle,
            timer,
            deadline,
            failed: false,
        }
    }
}

impl<C: Connection, K: Timer> Timed<'_, C, K> {
    /// Limits the next wait to what is left until the deadline, if there is one.
    fn limit(&self) -> io::Result<()>
        ensures { IsLimited K.shows C.limits self.now.timer.now self.now.handle self.now.deadline result }
    {
        match self.deadline {
            Some(deadline) => self.limit_until(deadline),
            None => Ok(()),
        }
    }

    fn limit_until(&self, deadline: Duration) -> io::Result<()>
        ensures { IsLimited K.shows C.limits self.now.timer.now self.now.handle (Some deadline) result }
    {
        let time = self.timer.time()?;
        let left = left_until(deadline, time)?;
        self.handle.limit_waits(left)
    }

    /// Reads once, within what is left.
    fn try_read(&mut self, buf: &mut [u8]) -> io::Result<usize>
        ensures tried { IsTry K.shows C.limits C.reads self.old.timer.now self.old.deadline self.old.handle result
            self.new.handle }
        ensures same { self.new ≡ record self.old { handle = self.new.handle } }
        ensures bound { ReadsAtMost result buf.new }
        ensures bytes { ReadConsumes (C.remaining self.old.handle) (C.remaining self.new.handle) result buf.new }
    {
        self.limit()?;
        self.handle.read_once(buf)
    }

    /// Writes once, within what is left.
    fn try_write(&mut self, bytes: &[u8]) -> io::Result<usize>
        ensures tried { IsTry K.shows C.limits (λ old answer new. C.writes old bytes.now answer new) self.old.timer.now
            self.old.deadline self.old.handle result self.new.handle }
        ensures same { self.new ≡ record self.old { handle = self.new.handle } }
        ensures bound { WritesAtMost result bytes.now }
        ensures bytes { WriteAppends (C.contents self.old.handle) (C.contents self.new.handle) result bytes.now }
    {
        self.limit()?;
        self.handle.write_once(bytes)
    }

    /// Reads, and again if a signal interrupts that.
    fn read_on(&mut self, buf: &mut [u8]) -> io::Result<usize>
        ensures tried { IsTried K.shows C.limits C.reads self.old.timer.now self.old.deadline self.old.handle result
            self.new.handle }
        ensures same { self.new ≡ record self.old { handle = self.new.handle } }
        ensures bound { ReadsAtMost result buf.new }
        ensures bytes { ReadConsumes (C.remaining self.old.handle) (C.remaining self.new.handle) result buf.new }
    {
        let mut answer = self.try_read(buf);
        for _again in 0..AGAIN {
            if !is_interrupted(&answer) {
                return answer;
            }
            answer = self.try_read(buf);
        }
        answer
    }

    /// Writes, and again if a signal interrupts that.
    fn write_on(&mut self, bytes: &[u8]) -> io::Result<usize>
        ensures tried { IsTried K.shows C.limits (λ old answer new. C.writes old bytes.now answer new)
            self.old.timer.now self.old.deadline self.old.handle result self.new.handle }
        ensures same { self.new ≡ record self.old { handle = self.new.handle } }
        ensures bound { WritesAtMost result bytes.now }
        ensures bytes { WriteAppends (C.contents self.old.handle) (C.contents self.new.handle) result bytes.now }
    {
        let mut answer = self.try_write(bytes);
        for _again in 0..AGAIN {
            if !is_interrupted(&answer) {
                return answer;
            }
            answer = self.try_write(bytes);
        }
        answer
    }

    /// Brings the deadline forward, so that it is at most this far away.
    pub(crate) fn hurry(&mut self, longest: Duration) -> io::Result<()>
        ensures hurried { OnOk result
            (IsHurried K.shows longest self.old.timer.now self.old.deadline self.new.deadline) }
        ensures same { self.new ≡ record self.old { deadline = self.new.deadline } }
        ensures failed { OnErr result (self.new ≡ self.old) }
        ensures unknown { IfErr result (λ error. K.shows self.old.timer.now (Err error)) }
    {
        let soon = self.timer.time()?.saturating_add(longest);
        let deadline = match self.deadline {
            Some(deadline) => deadline.min(soon),
            None => soon,
        };
        self.deadline = Some(deadline);
        Ok(())
    }
}

impl<C: Connection, K: Timer> Source for Timed<'_, C, K> {
    ghost gives = { λ old given new. IsReadInTime C.limits K.shows C.reads C.remaining old given new };

    ghost left = { λ t. C.remaining t.handle };

    ghost has_failed = { λ t. t.failed };

    /// Reads by the deadline, and remembers whether that failed.
    fn read(&mut self, buf: &mut [u8]) -> io::Result<usize>
        ensures given { IsReadInTime C.limits K.shows C.reads C.remaining self.old (given_by result buf.new) self.new }
        ensures bound { ReadsAtMost result buf.new }
        ensures bytes { ReadConsumes (C.remaining self.old.handle) (C.remaining self.new.handle) result buf.new }
        ensures failed { self.new.failed ≡ (if is_err result then true else self.old.failed) }
        ensures tried { IsTried K.shows C.limits C.reads self.old.timer.now self.old.deadline self.old.handle result
            self.new.handle }
        ensures deadline { self.new.deadline ≡ self.old.deadline }
    {
        let answer = self.read_on(buf);
        self.failed |= answer.is_err();
        answer
    }
}

impl<C: Connection, K: Timer> Sink for Timed<'_, C, K> {
    ghost held = { λ t. C.contents t.handle };

    ghost has_failed = { λ t. t.failed };

    /// Writes by the deadline, and remembers whether that failed or took no byte.
    fn write(&mut self, bytes: &[u8]) -> io::Result<usize>
        ensures bound { WritesAtMost result bytes.now }
        ensures some { 0 < length bytes.now → IfOk result (λ n. 0 < n) }
        ensures bytes { WriteAppends (C.contents self.old.handle) (C.contents self.new.handle) result bytes.now }
        ensures failed { self.new.failed ≡ (if is_err result then true else self.old.failed) }
        ensures tried { Writes (λ old put answer new. IsTried K.shows C.limits (λ before said after. C.writes before put
            said after) self.old.timer.now self.old.deadline old answer new) self.old.handle bytes.now result
            self.new.handle }
        ensures deadline { self.new.deadline ≡ self.old.deadline }
    {
        let answer = match self.write_on(bytes) {
            Ok(0) if !bytes.is_empty() => Err(io::Error::from(ErrorKind::WriteZero)),
            answer => answer,
        };
        self.failed |= answer.is_err();
        answer
    }
}
