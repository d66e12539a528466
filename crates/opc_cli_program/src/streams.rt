//! The standard streams and the clock, as lines are answered there.
ghost use Rattle.std.specs.Prelude.{◌≡◌, MatchResult, OnErr, OnOk, true, if◌then◌else◌, is_err};
ghost use Rattle.std.specs.Io.KnownBytes.{Appends};
ghost use Rattle.opc_cli_script.specs.Faults.{is_cut_by_output};
ghost use Rattle.opc_cli_script.specs.Handlers.{AreSteps};
ghost use Rattle.opc_cli_script.specs.Sessions.{IsCutSession, IsSession};
ghost use Rattle.opc_cli_program.specs.Lines.{IsDated, IsLineRead, IsSaid, output_of};
ghost use Rattle.opc_cli_script.specs.Running.{AppendsPrefix};

use crate::log_stream::LogStream;
use crate::wall_clock::WallClock;
use opc_cli_failures::failure::{Place, note};
use opc_cli_failures::reason::Reason;
use opc_cli_failures::status::Status;
use opc_cli_script::fault::NowFault;
use opc_cli_script::handler::RequestHandler;
use opc_cli_script::printer::write_text;
use opc_cli_script::reading_now::{Typed, read_line};
use opc_cli_script::session::answer_lines;
use opc_cli_script::terminal::Terminal;
use opc_io::watched::Watched;
use opc_names::name::ConsoleName;
use std::alloc::Global;
use std::io;
use std::io::{Read, Write};

/// An input, an output, and what has a clock and a stream for notes.
#[derive(Drop)]
pub struct Streams<'a, H, R, W> {
    rt: &'a H,
    input: &'a mut R,
    output: &'a mut Watched<W>,
}

impl<'a, H, R, W> Streams<'a, H, R, W> {
    pub fn new(rt: &'a H, input: &'a mut R, output: &'a mut Watched<W>) -> Self
        ensures input { result.input.now ≡ input.entry.now }
        ensures output { result.output.now ≡ output.entry.now }
        ensures same_input { result.input.ghost_name ≡ input.entry.ghost_name }
        ensures same_output { result.output.ghost_name ≡ output.entry.ghost_name }
    {
        Streams { rt, input, output }
    }
}

/// Writes a text to an output, and flushes that. An output that cannot be flushed failed.
fn write_flushed<W: Write>(output: &mut Watched<W>, text: &str) -> io::Result<()>
    ensures text { OnOk result (Appends (W.contents output.old.inner) (W.contents output.new.inner) text.now) }
    ensures cut { OnErr result (AppendsPrefix (W.contents output.old.inner) (W.contents output.new.inner) text.now) }
    ensures failed { output.new.failed ≡ (if is_err result then true else output.old.failed) }
{
    write_text(output, text)?;
    let flushed = output.inner.flush();
    output.failed |= flushed.is_err();
    flushed
}

impl<H: AllocGlobal + WallClock + LogStream, R: Read, W: Write> Terminal for Streams<'_, H, R, W> {
    ghost use Rattle.opc_cli_program.specs.Lines.{IsDated, IsLineRead, IsSaid};

    ghost reads = { λ s typed t. IsLineRead (R.remaining s.input.now, W.contents s.output.now.inner) typed
        (R.remaining t.input.now, W.contents t.output.now.inner) };

    ghost dates = { λ s moment t. IsDated H.shows_moment (R.remaining s.input.now, W.contents s.output.now.inner)
        moment (R.remaining t.input.now, W.contents t.output.now.inner) };

    ghost says = { λ s text t. IsSaid (R.remaining s.input.now, W.contents s.output.now.inner) text
        (R.remaining t.input.now, W.contents t.output.now.inner) };

    ghost held = { λ s. W.contents s.output.now.inner };

    ghost has_failed = { λ s. s.output.now.failed };

    ghost identity = { λ s. (s.input.ghost_name, s.output.ghost_name) };

    fn read_line(&mut self, alloc: Global) -> Result<Typed, NowFault> {
        match read_line(alloc, self.input) {
            Ok(typed) => Ok(typed),
            Err(error) => Err(NowFault::Input(error)),
        }
    }

    fn moment(&mut self) -> Result<u64, NowFault> {
        match self.rt.moment_now() {
            Ok(moment) => Ok(moment),
            Err(error) => Err(NowFault::Clock(error)),
        }
    }

    fn say(&mut self, text: &str) -> Result<(), NowFault> {
        match write_flushed(self.output, text) {
            Ok(()) => Ok(()),
            Err(error) => Err(NowFault::Output(error)),
        }
    }

    /// On standard error.
    fn note(&self, reason: &Reason) {
        note(
            Place::Input,
            reason,
            &mut Watched::new(self.rt.log_stream()),
        );
    }
}

impl<H: AllocGlobal + WallClock + LogStream, R: Read, W: Write> Streams<'_, H, R, W> {
    /// Answers the lines on the input, one after another.
    pub fn answer_with<X: RequestHandler>(
        &mut self,
        gate: &mut X,
        console: &Option<ConsoleName>,
    ) -> Result<Status, NowFault>
        ensures same_input { self.new.input.ghost_name ≡ self.old.input.ghost_name }
        ensures same_output { self.new.output.ghost_name ≡ self.old.output.ghost_name }
        ensures sure { X.meaning.is_sure gate.new → X.meaning.is_sure gate.old }
        ensures answered { MatchResult result
            (IsSession IsLineRead (IsDated H.shows_moment) IsSaid output_of X.meaning X.handled console.now
            (AreSteps X.handled) gate.old gate.new
            (R.remaining self.old.input.now, W.contents self.old.output.now.inner)
            (R.remaining self.new.input.now, W.contents self.new.output.now.inner))
            (IsCutSession IsLineRead (IsDated H.shows_moment) IsSaid output_of X.meaning X.handled console.now
            (AreSteps X.handled) gate.old gate.new
            (R.remaining self.old.input.now, W.contents self.old.output.now.inner)
            (R.remaining self.new.input.now, W.contents self.new.output.now.inner)) }
        ensures failed { self.new.output.now.failed
            ≡ (if is_cut_by_output result then true else self.old.output.now.failed) }
    {
        answer_lines(gate, self.rt.alloc(), console, self)
    }
}
