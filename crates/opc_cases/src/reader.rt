//! Cases of command lines: how they are read, what their texts mean, and what commands need.
//!
//! Each case is a subject and a command line; it is printed with the answer after it. In a command line `«TEXT»` stands
//! for a text that is hard to see, `«TIMES*TEXT»` for one repeated this many times, and U+ with hexadecimal digits as
//! the text for one character. The subjects:
//!
//! - `read` LINE: the command with its operands and where they begin, or the first fault.
//! - `says` LINE: what the text of the command says, and where the text stands.
//! - `needs` LINE: the command group, the level and the resource that the command needs. If they depend on the kind of
//!   the unit that it names: for each kind; the member of a started task is MEMBER88.
//! - `characters`: which of the first 256 characters may stand in a quoted text, and how many others are bad there.
mod needed;
mod spelled;
mod texts;

use crate::words::first_word;
use anyhow::{Result, anyhow};
use opc_reader::line::read_command;
use std::alloc::Global;

/// The answer to a case. An unknown subject ends the program.
pub fn answer(alloc: Global, case: &str) -> Result<String> {
    let (subject, spelled) = first_word(case);
    let line = spelled::line(alloc, spelled)?;
    match subject {
        "read" => read(alloc, line.as_str()),
        "says" => texts::says(alloc, line.as_str()),
        "needs" => needed::needs(alloc, line.as_str()),
        "characters" => texts::characters(alloc),
        _ => Err(anyhow!("no subject: {subject}")),
    }
}

fn read(alloc: Global, line: &str) -> Result<String> {
    match read_command(line) {
        Ok(command) => Ok(format!(in alloc; "{command:?}")?),
        Err(fault) => Ok(format!(in alloc; "{fault}")?),
    }
}
