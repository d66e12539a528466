//! Lines, read one at a time.
ghost use Rattle.std.specs.Prelude.{IfOk, OnOk};
ghost use Rattle.opc_cli_script.specs.ReadingNow.{IsAtEndTyped, IsBeforeFeed, IsKept, IsTextOf, IsTyped};

use crate::script::SCRIPT_LIMIT;
use opc_board::text::KeptText;
use std::alloc::Global;
use std::io;
use std::io::{ErrorKind, Read};

/// The most bytes of a line: as many as a script may have.
const LINE_LIMIT: usize = SCRIPT_LIMIT as usize;

/// What is read of an input.
#[derive(Drop)]
pub enum Typed {
    /// A line, without its end.
    Line(KeptText),
    NotUtf8,
    /// A line of more than 1,048,576 bytes.
    LongLine,
    /// No line: the input has ended.
    End,
}

/// The line of these bytes.
fn text_of(bytes: Vec<u8>) -> Typed
    ensures { IsTextOf bytes.items result }
{
    match String::from_utf8(bytes) {
        Ok(text) => Typed::Line(KeptText::from(text)),
        Err(_) => Typed::NotUtf8,
    }
}

/// The line of the bytes before a line feed.
fn before_feed(mut bytes: Vec<u8>) -> Typed
    ensures { IsBeforeFeed bytes.items result }
{
    if bytes.len() > LINE_LIMIT {
        return Typed::LongLine;
    }
    if bytes.last() == Some(&b'\r') {
        bytes.pop();
    }
    text_of(bytes)
}

/// What the bytes before the end of the input are.
fn at_end(bytes: Vec<u8>) -> Typed
    ensures { IsAtEndTyped bytes.items result }
{
    if bytes.is_empty() {
        Typed::End
    } else if bytes.len() > LINE_LIMIT {
        Typed::LongLine
    } else {
        text_of(bytes)
    }
}

/// Keeps one byte more of a line, unless those that are kept are too many for one.
fn keep(bytes: &mut Vec<u8>, byte: u8) -> io::Result<()>
    ensures { OnOk result (IsKept bytes.old.items byte bytes.new.items) }
{
    if bytes.len() <= LINE_LIMIT {
        bytes.push(byte)?;
    }
    Ok(())
}

/// Reads the next line, to its line feed or to the end of the input, and no byte after it. The whole of a line is read
/// even if it is too long, so that no part of it is taken for another line.
pub fn read_line<R: Read>(alloc: Global, input: &mut R) -> io::Result<Typed>
    ensures { IfOk result (λ typed. IsTyped (R.remaining input.old) (R.remaining input.new) typed) }
{
    let mut bytes = Vec::new(alloc);
    let mut byte = [0u8];
    for _ in 0..u64::MAX {
        match input.read(&mut byte) {
            Err(error) if error.kind() == ErrorKind::Interrupted => {}
            Err(error) => return Err(error),
            Ok(0) => return Ok(at_end(bytes)),
            Ok(_) => {
                if byte[0] == b'\n' {
                    return Ok(before_feed(bytes));
                }
                keep(&mut bytes, byte[0])?;
            }
        }
    }
    Err(io::Error::from(ErrorKind::Interrupted))
}
