//! What the program prints on its output, and how it reports an output that fails.
ghost use Rattle.std.specs.Prelude.{◌≡◌, IsErr, IsOk, MatchResult, if◌then◌else◌, is_err, true};
ghost use Rattle.std.specs.Io.KnownBytes.{Appends};
ghost use Rattle.opc_cli_script.specs.Running.{AppendsPrefix};
ghost use Rattle.opc_cli_script.specs.Transcripts.{ended};
ghost use Rattle.opc_cli_program.specs.Imports.{FailsAsWritten, IsEnded, IsReported, IsWritten, lines_text};

use opc_board::line::Line;
use opc_cli_failures::failure::{Failure, Place};
use opc_cli_failures::status::Status;
use opc_cli_script::printer::write_text;
use opc_gate::request::Answer;
use opc_io::sink::Sink;
use std::io;

/// Writes a text and a line feed.
fn write_line<K: Sink>(output: &mut K, text: &str) -> io::Result<()>
    ensures text { MatchResult result (λ _. Appends (K.held output.old) (K.held output.new) (ended text.now))
        (λ _. AppendsPrefix (K.held output.old) (K.held output.new) (ended text.now)) }
    ensures failed { K.has_failed output.new ≡ (if is_err result then true else K.has_failed output.old) }
{
    write_text(output, text)?;
    write_text(output, "\n")
}

/// Writes the lines of an answer, without an allocation: what was done is printed even if no memory is left.
fn write_lines<K: Sink>(output: &mut K, lines: &[Line]) -> io::Result<()>
    ensures text { MatchResult result (λ _. Appends (K.held output.old) (K.held output.new) (lines_text lines.now))
        (λ _. AppendsPrefix (K.held output.old) (K.held output.new) (lines_text lines.now)) }
    ensures failed { K.has_failed output.new ≡ (if is_err result then true else K.has_failed output.old) }
{
    for line in lines {
        write_line(output, line.text.as_str())?;
    }
    Ok(())
}

/// The result of what the program wrote.
fn printed(wrote: io::Result<()>) -> Result<Status, Failure>
    ensures ends { IsEnded result }
    ensures same { MatchResult wrote (λ _. IsOk result) (λ _. IsErr result) }
{
    match wrote {
        Ok(()) => Ok(Status::Done),
        Err(error) => Err(Failure::at(Place::Output, error)),
    }
}

/// Prints a text.
pub fn print_text<K: Sink>(output: &mut K, text: &str) -> Result<Status, Failure>
    ensures ends { IsEnded result }
    ensures text { IsWritten text.now (K.held output.old) (K.held output.new) result }
    ensures failed { FailsAsWritten K.has_failed output.old output.new result }
{
    printed(write_text(output, text))
}

/// Prints the lines of an answer, or returns its fault.
pub fn print_answer<K: Sink>(answer: &Answer, output: &mut K) -> Result<Status, Failure>
    ensures { IsReported K.held K.has_failed answer.now output.old output.new result }
{
    match answer {
        Answer::Done { lines, .. } => printed(write_lines(output, lines.as_slice())),
        Answer::Refused { fault, .. } => Err(Failure::of_gate(*fault)),
    }
}
