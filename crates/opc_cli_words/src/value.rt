//! Which values an option takes, for those who gave another.
ghost use Rattle.std.specs.Prelude.{◌≡◌, OnOk, false, if◌then◌else◌, is_err, true};
ghost use Rattle.opc_cli_failures.specs.Printing.{Grows};

use crate::mistake::{Mistake, Opt};
use arrayvec::ArrayString;
use clap::ArgMatches;
use opc_answers::needed::is_logon;
use opc_cli_failures::shown::TextStart;
use opc_io::sink::{Sink, WriteFault, write_whole};
use opc_names::name::{ConsoleName, Resource, UserId};
use opc_names::rule::NameFault;
use opc_times::reading::moment_in;
use std::fmt;
use std::fmt::{Display, Formatter, Write as _};

/// More bytes than the line has: it shows 39 characters of a value, each as at most ten bytes.
const LINE: usize = 640;

/// More bytes than a time in seconds has.
const TIME: usize = 40;

const NOBODY_OR_USER: &str = "- or 1 to 8 of A to Z, 0 to 9, #, $ and @";

/// The number of a row of the account, or a number of rows.
const ROWS: &str = "1 to 9223372036854775807";

/// An option with the invalid value that is given for it, and what it takes.
#[derive(Drop)]
struct BadValue<'a> {
    option: Opt,
    value: &'a str,
    taken: &'static str,
}

/// What an option of a command takes. `-`, for nobody, is valid in the account, and may be in a question about a
/// command.
fn taken_by(command: &str, option: Opt, may_be_nobody: bool) -> &'static str {
    match (command, option) {
        ("account", Opt::User) => NOBODY_OR_USER,
        ("account", Opt::Console) => "* or 2 to 8 of A to Z, 0 to 9, #, $ and @, no digit first",
        ("account", Opt::Count) => ROWS,
        ("explain", Opt::User) if may_be_nobody => NOBODY_OR_USER,
        // The command makes no difference to any other option.
        _ => taken_by_any(option),
    }
}

/// What an option takes, whatever the command is.
fn taken_by_any(option: Opt) -> &'static str {
    match option {
        Opt::User => "1 to 8 of A to Z, 0 to 9, #, $ and @",
        Opt::Console => "2 to 8 of A to Z, 0 to 9, #, $ and @, no digit first",
        Opt::Resource => "1 to 39 of A to Z, 0 to 9, #, $ and @, with single periods between them",
        Opt::Level => "NONE, READ, UPDATE, CONTROL or ALTER",
        Opt::Class => "CONSOLE or OPERCMDS",
        Opt::As => "JOB, TSU, or STC: and a name of 1 to 8 of A to Z, 0 to 9, #, $ and @",
        Opt::Base => "1 to 200 printable characters without spaces, double quotes and backslashes",
        Opt::Batch => "1 to 999999999",
        Opt::Port => "0 to 65535",
        Opt::Socket => "a path that is not empty",
        Opt::SocketMode => "600, 660 or 666",
        Opt::Count => "1 to 1000000",
        Opt::Timeout => "0 to 3600",
        Opt::From | Opt::Last => ROWS,
        Opt::Since | Opt::Until => {
            "a time as 2026-11-27T08:00:00Z, a day as 2026-11-27, @ and 0 to 9999999999999, or how long ago as -8h"
        }
        Opt::Code => "a code as E20, or E2* for all that begin so, with commas between several",
        Opt::Allow => "N01 to N06 or N08 to N20, with commas between several",
        // No value of these is a mistake.
        Opt::Command | Opt::Now | Opt::Strict => "another value",
    }
}

/// What is wrong with a value that must be a name.
fn name_fault(option: Opt, value: &str) -> Option<NameFault> {
    match option {
        Opt::User => UserId::read(value).err(),
        Opt::Console => ConsoleName::read(value).err(),
        Opt::Resource => Resource::read(value).err(),
        // The other options take more than a name.
        _ => None,
    }
}

/// Whether a value is a time but for its offset from UTC.
fn lacks_offset(option: Opt, value: &str) -> bool {
    let mut time = ArrayString::<TIME>::new();
    let _ = write!(time, "{value}Z");
    matches!(option, Opt::Since | Opt::Until) && moment_in(time.as_str()).is_some()
}

impl Display for BadValue<'_> {
    fn fmt<W: fmt::Write>(&self, f: &mut Formatter<W>) -> fmt::Result {
        let (option, value) = (self.option.name(), TextStart::of(self.value));
        write!(f, "opcmds: --{option} {value}: ")?;
        match name_fault(self.option, self.value) {
            Some(NameFault::BadCharacter(at)) => write!(f, "a bad character at {at}, ")?,
            Some(NameFault::BadQualifier(at)) => write!(f, "a bad qualifier at {at}, ")?,
            Some(NameFault::TooShort) => f.write_str("too short, ")?,
            Some(NameFault::TooLong) => f.write_str("too long, ")?,
            Some(NameFault::Empty) | None => {}
        }
        if lacks_offset(self.option, self.value) {
            f.write_str("without its offset from UTC, ")?;
        }
        writeln!(f, "expected {}", self.taken)
    }
}

/// Whether `-`, for nobody, is valid: for this command, if the question is about one. Nobody logs on.
fn may_be_nobody(command: Option<&str>) -> bool {
    match command {
        Some(text) => !is_logon(text),
        None => false,
    }
}

fn print_note<K: Sink>(bad: &BadValue<'_>, errors: &mut K) -> Result<(), WriteFault>
    ensures text { OnOk result (Grows (K.held errors.old) (K.held errors.new)) }
    ensures failed { K.has_failed errors.new ≡ (if is_err result then true else K.has_failed errors.old) }
{
    let mut line = ArrayString::<LINE>::new();
    let _ = write!(line, "{bad}");
    write_whole(errors, line.as_str().as_bytes())
}

/// Prints, if the mistake is in a value, that value and the values that are valid. That is a note beside the mistake,
/// which no clause states; the tables of `tools/program` have the words.
pub fn note_value<K: Sink>(command: &str, mistake: Mistake, chosen: &ArgMatches<'_>, errors: &mut K)
    ensures noted { K.has_failed errors.new ≡ false → Grows (K.held errors.old) (K.held errors.new) }
    ensures kept { K.has_failed errors.new ≡ false → K.has_failed errors.old ≡ false }
{
    let Mistake::Unread(option) = mistake else {
        return;
    };
    let Some(value) = chosen.get_str(option.name()) else {
        return;
    };
    let taken = taken_by(command, option, may_be_nobody(chosen.get_str("command")));
    let bad = BadValue {
        option,
        value,
        taken,
    };
    // (if the note fails, the mistake is printed nevertheless)
    let _ = print_note(&bad, errors);
}
