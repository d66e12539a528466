//! The password on the input, answered by its digest.
ghost use Rattle.std.specs.Prelude.{◌≡◌, ◌≤◌, OnOk, false, length};
ghost use Rattle.std.specs.Io.KnownBytes.{Appends};
ghost use Rattle.opc_cli_digest.specs.Passwords.{digest_line, most};
ghost use Rattle.opc_cli_digest.specs.Answers.{
  IsAnswered,
  IsFailedBy,
  IsLineAnswered,
  IsPrompted,
  IsPromptedAnswer,
  IsSaid,
  mistake_line,
  prompt_line,
};

use crate::line::{line_of, read_line};
use crate::password::{digest_of, password_in};
use opc_cli_failures::failure::{Failure, NO_PATHS, Place};
use opc_cli_failures::status::Status;
use opc_io::sink::{Sink, write_whole};
use opc_reader_commands::command::Password;
use std::alloc::Global;
use std::io;
use std::io::{Read, Write};

/// Reads a password, prints its digest, and returns the status. On a terminal, it prompts for the password.
pub fn answer_password<R: Read, W: Write, K: Sink>(
    alloc: Global,
    input: &mut R,
    is_terminal: bool,
    output: &mut W,
    errors: &mut K,
) -> Status
    ensures { IsPromptedAnswer K.held K.has_failed W.contents output.old output.new errors.old errors.new is_terminal
        (R.remaining input.old) result }
{
    prompt(is_terminal, errors);
    answer(alloc, input, output, errors)
}

/// Prompts on a terminal for the password.
fn prompt<K: Sink>(is_terminal: bool, errors: &mut K)
    ensures { IsPrompted K.held K.has_failed is_terminal errors.old errors.new }
{
    if is_terminal {
        say(
            "opcmds: type the password and Enter; it is shown as it is typed\n",
            errors,
        );
    }
}

/// Prints a text.
fn say<K: Sink>(text: &str, errors: &mut K)
    ensures said { IsSaid K.held K.has_failed errors.old errors.new text.now }
    ensures kept { K.has_failed errors.new ≡ false → K.has_failed errors.old ≡ false }
{
    // The status reports the failure even if nothing can be printed.
    let _ = write_whole(errors, text.as_bytes());
}

fn answer<R: Read, W: Write, K: Sink>(
    alloc: Global,
    input: &mut R,
    output: &mut W,
    errors: &mut K,
) -> Status
    ensures answered { IsAnswered K.held K.has_failed W.contents output.old output.new errors.old errors.new result
        (R.remaining input.old) }
    ensures kept { K.has_failed errors.new ≡ false → K.has_failed errors.old ≡ false }
{
    match read_line(alloc, input) {
        Ok(typed) => answer_line(&typed, output, errors),
        Err(error) => report(Place::Input, error, errors),
    }
}

/// Answers the line that was typed.
fn answer_line<W: Write, K: Sink>(typed: &[u8], output: &mut W, errors: &mut K) -> Status
    requires { length typed.now ≤ most }
    ensures answered { IsLineAnswered K.held K.has_failed W.contents output.old output.new errors.old errors.new result
        typed.now }
    ensures kept { K.has_failed errors.new ≡ false → K.has_failed errors.old ≡ false }
{
    match password_in(line_of(typed)) {
        Some(password) => match print_digest(&password, output) {
            Ok(()) => Status::Done,
            Err(error) => report(Place::Output, error, errors),
        },
        None => {
            say(
                "error: the password is invalid: it is 1 to 8 of A to Z, 0 to 9, #, $ and @; see opcmds digest --help\n",
                errors,
            );
            Status::BadInput
        }
    }
}

fn print_digest<W: Write>(password: &Password, output: &mut W) -> io::Result<()>
    ensures { OnOk result (Appends (W.contents output.old) (W.contents output.new) (digest_line password.now)) }
{
    output.write_all(&digest_of(password))?;
    output.write_all(b"\n")
}

/// Reports that a read or a write failed there.
fn report<K: Sink>(place: Place, error: io::Error, errors: &mut K) -> Status
    ensures failed { IsFailedBy K.held K.has_failed errors.old errors.new result error }
    ensures kept { K.has_failed errors.new ≡ false → K.has_failed errors.old ≡ false }
{
    Failure::at(place, error).report(&NO_PATHS, errors)
}
