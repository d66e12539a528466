//! What a run prints.
ghost use Rattle.std.specs.Prelude.{◌≡◌, ◌∷◌, ◌++◌, [], IfErr, List, MatchResult, OnOk, if◌then◌else◌, is_err, true};
ghost use Rattle.std.specs.Io.KnownBytes.{Appends};
ghost use Rattle.opc_machine.specs.declared.request.Answer.{Answer as TheAnswer};
ghost use Rattle.opc_cli_script.specs.Handlers.{AreSteps};
ghost use Rattle.opc_cli_script.specs.Refusals.{is_cut_by_output, is_output};
ghost use Rattle.opc_cli_script.specs.Running.{AppendsPrefix, IsCut, IsCutOff, IsWhole};
ghost use Rattle.opc_cli_script.specs.Statuses.{status_of};
ghost use Rattle.opc_cli_script.specs.Transcripts.{answer_text};

use crate::handler::{RequestHandler, run_heard};
use crate::listener::Listener;
use crate::script::ScriptFault;
use crate::status::status_after;
use crate::transcript::answer_text;
use opc_cli_failures::status::Status;
use opc_gate::request::{Answer, Request};
use opc_io::sink::Sink;
use std::alloc::Global;
use std::io;

/// Writes a text, or, if the output fails, some prefix of it.
pub fn write_text<K: Sink>(output: &mut K, text: &str) -> io::Result<()>
    ensures text { MatchResult result (λ _. Appends (K.held output.old) (K.held output.new) text.now)
        (λ _. AppendsPrefix (K.held output.old) (K.held output.new) text.now) }
    ensures failed { K.has_failed output.new ≡ (if is_err result then true else K.has_failed output.old) }
{
    write_bytes(output, text.as_bytes())
}

/// Writes bytes, or, if the output fails, a prefix of them.
pub fn write_bytes<K: Sink>(output: &mut K, bytes: &[u8]) -> io::Result<()>
    ensures text { MatchResult result (λ _. Appends (K.held output.old) (K.held output.new) bytes.now)
        (λ _. AppendsPrefix (K.held output.old) (K.held output.new) bytes.now) }
    ensures failed { K.has_failed output.new ≡ (if is_err result then true else K.has_failed output.old) }
{
    // A loop of its own, for the same reasons as in `write_whole`.
    let mut done = 0;
    while done < bytes.len() {
        match output.write(&bytes[done..]) {
            Ok(count) => done += count,
            Err(error) => return Err(error),
        }
    }
    Ok(())
}

/// Prints each answer of a run, and remembers the status of the answers.
#[derive(Drop)]
pub(crate) struct Printer<'a, K: Sink> {
    pub alloc: Global,
    pub output: &'a mut K,
    pub status: Status,
}

impl<K: Sink> Printer<'_, K> {
    /// Runs requests over a gate, and prints each answer before the next request is handled.
    pub fn run<X: RequestHandler>(
        &mut self,
        gate: &mut X,
        requests: &[(u64, Request)],
    ) -> Result<(), ScriptFault>
        ensures sure { X.meaning.is_sure gate.new → X.meaning.is_sure gate.old }
        ensures same_reference { self.new.output.ghost_name ≡ self.old.output.ghost_name }
        ensures whole { self.old.status ≡ Status.Done
            → OnOk result (IsWhole X.meaning (AreSteps X.handled) gate.old gate.new requests.now
            (K.held self.old.output.now) (K.held self.new.output.now) self.new.status) }
        ensures cut { IfErr result (IsCut X.meaning (AreSteps X.handled) gate.old gate.new requests.now
            (K.held self.old.output.now) (K.held self.new.output.now)) }
        ensures failed { K.has_failed self.new.output.now
            ≡ (if is_cut_by_output result then true else K.has_failed self.old.output.now) }
    {
        run_heard(gate, self.alloc, requests, self)
    }
}

impl<K: Sink> Listener for Printer<'_, K> {
    type Fault = ScriptFault;

    ghost heard = { λ old moment answer new.
        (new.output.ghost_name ≡ old.output.ghost_name)
        × Appends (K.held old.output.now) (K.held new.output.now) (answer_text moment answer)
        × (K.has_failed new.output.now ≡ K.has_failed old.output.now)
        × ((answers : List TheAnswer) → old.status ≡ status_of answers
        → new.status ≡ status_of (answers ++ answer ∷ [])) };

    ghost missed = { λ old moment answer new fault.
        (new.output.ghost_name ≡ old.output.ghost_name)
        × IsCutOff fault (K.held old.output.now) (K.held new.output.now) (answer_text moment answer)
        × (K.has_failed new.output.now ≡ (if is_output fault then true else K.has_failed old.output.now)) };

    fn hear(&mut self, moment: u64, answer: &Answer) -> Result<(), ScriptFault> {
        let text = answer_text(self.alloc, moment, answer)?;
        write_text(self.output, text.as_str())?;
        self.status = status_after(self.status, answer);
        Ok(())
    }
}
