//! The line that is typed.
ghost use Rattle.std.specs.Prelude.{◌≡◌, ◌≤◌, IfOk, length};
ghost use Rattle.std.specs.Str.Lines.{strip_carriage_return};
ghost use Rattle.opc_cli_digest.specs.Passwords.{IsTyped, line_of, most};

use std::alloc::Global;
use std::io;
use std::io::{ErrorKind, Read};

/// The most bytes that are read: of a password, a carriage return and a line feed.
const MOST: usize = 10;

/// How many reads are tried, including those that a signal interrupts.
const TRIES: u32 = 1_000_000;

/// What is typed up to the first line feed, which is read too, and nothing after it.
pub(crate) fn read_line<R: Read>(alloc: Global, input: &mut R) -> io::Result<Vec<u8>>
    ensures typed { IfOk result (λ typed. IsTyped (R.remaining input.old) typed.items) }
    ensures short { IfOk result (λ typed. length typed.items ≤ most) }
{
    let mut typed = Vec::new(alloc);
    let mut byte = [0u8];
    for _ in 0..TRIES {
        match input.read(&mut byte) {
            Err(error) if error.kind() == ErrorKind::Interrupted => {}
            Err(error) => return Err(error),
            Ok(0) => return Ok(typed),
            Ok(_) => {
                typed.push(byte[0])?;
                if byte[0] == b'\n' {
                    return Ok(typed);
                }
                if typed.len() == MOST {
                    return Ok(typed);
                }
            }
        }
    }
    Err(io::Error::from(ErrorKind::Interrupted))
}

/// What stands before a line feed, without a carriage return at its end.
fn without_return(line: &[u8]) -> &[u8]
    ensures line { result.now ≡ strip_carriage_return line.now }
    ensures short { length result.now ≤ length line.now }
{
    match line.split_last() {
        Some((b'\r', start)) => start,
        // The line ends with its last character.
        _ => line,
    }
}

/// The line without its end. A carriage return with no line feed after it is a character of the line.
pub(crate) fn line_of(typed: &[u8]) -> &[u8]
    ensures line { result.now ≡ line_of typed.now }
    ensures short { length result.now ≤ length typed.now }
{
    match typed.split_last() {
        Some((b'\n', line)) => without_return(line),
        // The input ended, or more bytes were typed than a password can have.
        _ => typed,
    }
}
