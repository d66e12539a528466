//! `opcmds run`: a script's requests, handled one after another.
ghost use Rattle.std.specs.Prelude.{◌≡◌, IfSome, MatchResult, None, if◌then◌else◌, true};
ghost use Rattle.std.specs.Io.KnownBytes.{Appends};
ghost use Rattle.opc_cli_script.specs.Handlers.{AreSteps};
ghost use Rattle.opc_cli_script.specs.Refusals.{is_cut_by_output, is_output};
ghost use Rattle.opc_cli_script.specs.Running.{IsBadLinePrinted, IsBadRun, IsCutOff, IsScriptRun};
ghost use Rattle.opc_cli_script.specs.Scripts.{bad_line, requests_in};
ghost use Rattle.opc_cli_script.specs.Transcripts.{bad_line_text};

use crate::handler::RequestHandler;
use crate::printer::{Printer, write_text};
use crate::script::{ScriptFault, requests_in};
use crate::transcript::bad_line_text;
use opc_cli_failures::status::Status;
use opc_io::sink::Sink;
use std::alloc::Global;

fn write_bad_line<K: Sink>(alloc: Global, number: usize, output: &mut K) -> Result<(), ScriptFault>
    ensures text { MatchResult result (λ _. Appends (K.held output.old) (K.held output.new) (bad_line_text number))
        (λ fault. IsCutOff fault (K.held output.old) (K.held output.new) (bad_line_text number)) }
    ensures failed { K.has_failed output.new ≡ (if is_cut_by_output result then true else K.has_failed output.old) }
{
    let text = bad_line_text(alloc, number)?;
    write_text(output, text.as_str())?;
    Ok(())
}

/// Writes which line is bad, and returns the fault that ends the run: that line, or why it could not be reported.
pub fn print_bad_line<K: Sink>(alloc: Global, number: usize, output: &mut K) -> ScriptFault
    ensures reported { IsBadLinePrinted number (K.held output.old) (K.held output.new) result }
    ensures failed { K.has_failed output.new ≡ (if is_output result then true else K.has_failed output.old) }
{
    match write_bad_line(alloc, number, output) {
        Ok(()) => ScriptFault::BadLine(number),
        Err(fault) => fault,
    }
}

/// Runs a script over what handles requests, and returns the status of the answers. What is written is the transcript of
/// the access machine's answers. If a line is bad or the script has more than 1,048,576 bytes, that is written, and
/// nothing is run. If the output fails or the allocation of an answer's text does, the run ends with that request: it is handled,
/// and so are those before it, whose answers are written. A failed output is reported if and only if a write to it
/// failed. A crash leaves what it might have left before, or a state that one of the handled requests makes, as a
/// whole.
pub fn run_script<X: RequestHandler, K: Sink>(
    gate: &mut X,
    alloc: Global,
    script: &str,
    output: &mut K,
) -> Result<Status, ScriptFault>
    ensures sure { X.meaning.is_sure gate.new → X.meaning.is_sure gate.old }
    ensures bad { IfSome (bad_line script.now)
        (λ number. (gate.new ≡ gate.old) × IsBadRun number (K.held output.old) (K.held output.new) result) }
    ensures runs { bad_line script.now ≡ None
        → IsScriptRun X.meaning (AreSteps X.handled) gate.old gate.new (requests_in script.now)
        (K.held output.old) (K.held output.new) result }
    ensures failed { K.has_failed output.new ≡ (if is_cut_by_output result then true else K.has_failed output.old) }
{
    let requests = match requests_in(alloc, script) {
        Ok(requests) => requests,
        Err(ScriptFault::BadLine(number)) => return Err(print_bad_line(alloc, number, output)),
        Err(fault) => return Err(fault),
    };
    let mut printer = Printer {
        alloc,
        output,
        status: Status::Done,
    };
    printer.run(gate, requests.as_slice())?;
    Ok(printer.status)
}
