//! Answers about a policy, as they are printed.
ghost use Rattle.std.specs.Prelude.{◌≡◌, IfErr, IfOk, OnOk, string_bytes};
ghost use Rattle.std.specs.Io.KnownBytes.{Appends};
ghost use Rattle.opc_cli_failures.specs.Statuses.{IsFailure};
ghost use Rattle.opc_cli_questions.specs.Printed.{nothing_text};

use opc_check::form::Form;
use opc_cli_failures::failure::{Failure, Place};
use opc_cli_failures::status::Status;
use opc_terms::fault::Fault;
use std::io::Write;

/// The text of an answer, and the status.
#[derive(Drop)]
pub struct PrintedAnswer {
    pub text: String,
    pub status: Status,
}

/// What is printed about a command that needs nothing.
pub(crate) fn nothing_text(form: Form) -> &'static str
    ensures { result.now ≡ nothing_text form }
{
    match form {
        Form::Text => "NEEDS NOTHING\n",
        Form::Json => "{\"needs\":\"nothing\"}\n",
    }
}

/// The failure if an allocation fails.
pub(crate) fn no_memory() -> Failure
    ensures { IsFailure result.fault }
{
    Failure::from(Fault::NoMemory)
}

/// Prints a text.
pub fn print_text<W: Write>(text: &str, output: &mut W) -> Result<(), Failure>
    ensures text { OnOk result (Appends (W.contents output.old) (W.contents output.new) text.now) }
    ensures fails { IfErr result (λ failure. IsFailure failure.fault) }
{
    match output.write_all(text.as_bytes()) {
        Ok(()) => Ok(()),
        Err(error) => Err(Failure::at(Place::Output, error)),
    }
}

/// Prints an answer, and returns its status.
pub fn print<W: Write>(answer: &PrintedAnswer, output: &mut W) -> Result<Status, Failure>
    ensures text { IfOk result (λ _. Appends (W.contents output.old) (W.contents output.new)
        (string_bytes answer.now.text)) }
    ensures status { IfOk result (λ status. status ≡ answer.now.status) }
    ensures fault { IfErr result (λ failure. IsFailure failure.fault) }
{
    print_text(answer.text.as_str(), output)?;
    Ok(answer.status)
}
