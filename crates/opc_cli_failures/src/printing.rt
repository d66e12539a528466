//! How a failure is printed, even if no memory can be allocated.
ghost use Rattle.std.specs.Prelude.{◌≡◌, OnOk, if◌then◌else◌, is_err, true};
ghost use Rattle.std.specs.Io.KnownBytes.{Appends};
ghost use Rattle.opc_cli_failures.specs.Printing.{Grows, IsReported, fault_line};

use crate::failure::{Failure, Paths, Place};
use crate::fault_line::fault_line;
use crate::reason::Reason;
use arrayvec::ArrayString;
use opc_io::sink::{Sink, WriteFault, write_whole};
use opc_terms::fault::Fault;
use std::fmt::Write as _;

/// More bytes than the words of any reason have: the longest show 39 characters of a field, each as at most ten bytes.
const REASON_WORDS: usize = 640;

/// More digits than a port has.
const PORT_DIGITS: usize = 8;

/// Prints a failure: its fault, and then, unless an allocation fails, what failed and why.
pub(crate) fn print_failure<K: Sink>(
    failure: &Failure,
    paths: &Paths<'_>,
    errors: &mut K,
) -> Result<(), WriteFault>
    ensures text { OnOk result (IsReported failure.now.fault (K.held errors.old) (K.held errors.new)) }
    ensures failed { K.has_failed errors.new ≡ (if is_err result then true else K.has_failed errors.old) }
{
    print_fault(&failure.fault, errors)?;
    print_cause(failure, paths, errors)
}

/// Prints a fault as its code, a space and its text.
fn print_fault<K: Sink>(fault: &Fault, errors: &mut K) -> Result<(), WriteFault>
    ensures text { OnOk result (Appends (K.held errors.old) (K.held errors.new) (fault_line fault.now)) }
    ensures failed { K.has_failed errors.new ≡ (if is_err result then true else K.has_failed errors.old) }
{
    write_whole(errors, fault_line(fault).as_str().as_bytes())
}

/// Prints, in a line of its own, what failed and why, if that is known and no allocation fails.
fn print_cause<K: Sink>(
    failure: &Failure,
    paths: &Paths<'_>,
    errors: &mut K,
) -> Result<(), WriteFault>
    ensures text { OnOk result (Grows (K.held errors.old) (K.held errors.new)) }
    ensures failed { K.has_failed errors.new ≡ (if is_err result then true else K.has_failed errors.old) }
{
    match &failure.cause {
        Some((place, reason)) if failure.fault != Fault::NoMemory => {
            print_note(place, reason, paths, errors)
        }
        // Nothing more is known, or the allocation to print it failed.
        _ => Ok(()),
    }
}

/// Prints a line that names a place and says why it failed.
pub(crate) fn print_note<K: Sink>(
    place: &Place,
    reason: &Reason,
    paths: &Paths<'_>,
    errors: &mut K,
) -> Result<(), WriteFault>
    ensures text { OnOk result (Grows (K.held errors.old) (K.held errors.new)) }
    ensures failed { K.has_failed errors.new ≡ (if is_err result then true else K.has_failed errors.old) }
{
    print_place(place, reason, paths, errors)?;
    print_reason(reason, errors)
}

fn print_place<K: Sink>(
    place: &Place,
    reason: &Reason,
    paths: &Paths<'_>,
    errors: &mut K,
) -> Result<(), WriteFault>
    ensures text { OnOk result (Grows (K.held errors.old) (K.held errors.new)) }
    ensures failed { K.has_failed errors.new ≡ (if is_err result then true else K.has_failed errors.old) }
{
    print_pair("opcmds: ", kind_of(*place, reason), errors)?;
    print_pair(path_of(place, paths), digits_of(*place).as_str(), errors)
}

fn print_reason<K: Sink>(reason: &Reason, errors: &mut K) -> Result<(), WriteFault>
    ensures text { OnOk result (Grows (K.held errors.old) (K.held errors.new)) }
    ensures failed { K.has_failed errors.new ≡ (if is_err result then true else K.has_failed errors.old) }
{
    let words = words_of(reason);
    print_pair(separator_of(reason), words.as_str(), errors)?;
    print_pair("\n", "", errors)
}

fn print_pair<K: Sink>(first: &str, second: &str, errors: &mut K) -> Result<(), WriteFault>
    ensures text { OnOk result (Grows (K.held errors.old) (K.held errors.new)) }
    ensures failed { K.has_failed errors.new ≡ (if is_err result then true else K.has_failed errors.old) }
{
    write_whole(errors, first.as_bytes())?;
    write_whole(errors, second.as_bytes())
}

/// The kind of a place; a hint is about none.
fn kind_of(place: Place, reason: &Reason) -> &'static str {
    if let Reason::Hint(_) = reason {
        return "";
    }
    match place {
        Place::Input => "standard input",
        Place::Output => "standard output",
        Place::PolicyFile => "policy file ",
        Place::Database => "database ",
        Place::Clock => "clock",
        Place::Port(_) => "port ",
        Place::Socket => "socket ",
        Place::Connection => "connection",
        Place::Console(_) => "console ",
        Place::Script => "script",
        Place::Log => "log ",
        Place::Policies => "policies ",
    }
}

/// The path or the name of a place that has one.
fn path_of<'a>(place: &'a Place, paths: &Paths<'a>) -> &'a str {
    match place {
        Place::PolicyFile => paths.policy.unwrap_or(""),
        Place::Database => paths.database.unwrap_or(""),
        Place::Socket => paths.socket.unwrap_or(""),
        Place::Log => paths.log.unwrap_or(""),
        Place::Policies => paths.policies.unwrap_or(""),
        Place::Console(name) => name.text(),
        // No other place has a path or a name.
        _ => "",
    }
}

/// The digits of a port.
fn digits_of(place: Place) -> ArrayString<PORT_DIGITS> {
    let mut digits = ArrayString::new();
    if let Place::Port(port) = place {
        // (a port has no more digits)
        let _ = write!(digits, "{port}");
    }
    digits
}

fn separator_of(reason: &Reason) -> &'static str {
    match reason {
        Reason::Row(..) | Reason::Line(_) => ", ",
        Reason::Hint(_) => "",
        // The number of a row or a line belongs to the place; every other reason begins a sentence.
        _ => ": ",
    }
}

/// The words of a reason, if there is room for them.
fn words_of(reason: &Reason) -> ArrayString<REASON_WORDS> {
    let mut words = ArrayString::new();
    let _ = write!(words, "{reason}");
    words
}
