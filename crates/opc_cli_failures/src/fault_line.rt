//! The line of a fault, put together without an allocation.
ghost use Rattle.std.specs.Prelude.{◌≡◌, ◌+◌, ◌++◌, ◌≤◌, length};
ghost use Rattle.arrayvec.specs.ArrayString.{array_string_len};
ghost use Rattle.opc_cli_failures.specs.Printing.{AreShort, details_text, fault_line, number_text, word_text};
ghost use Rattle.opc_terms.specs.Faults.{fault_text};

use arrayvec::ArrayString;
use itoa::Buffer;
use opc_terms::fault::{Fault, Why};

/// More bytes than the line of any fault has.
pub(crate) const FAULT_LINE: usize = 64;

/// What the text of a fault says after its name.
#[derive(Clone, Copy)]
enum Details<'a> {
    Nothing,
    Number(u64),
    Span(u64, u64),
    Name(&'a str),
    Row(u32, Why),
}

/// The words of the text of a fault. That text itself is allocated (`Fault::text`), and a `Display` may fail by its
/// contract.
fn words_of(fault: &Fault) -> (&str, Details<'_>)
    ensures text { result.0.now ++ details_text result.1 ≡ fault_text fault.now }
    ensures short { length result.0.now ≤ 14 }
    ensures details { AreShort result.1 }
{
    match fault {
        Fault::Empty => ("Empty", Details::Nothing),
        Fault::TooLong => ("TooLong", Details::Nothing),
        Fault::BadCharacter { at } => ("BadCharacter", Details::Number(*at as u64)),
        Fault::UnknownVerb { from, to } => ("UnknownVerb", Details::Span(*from as u64, *to as u64)),
        Fault::BadOperand { from, to } => ("BadOperand", Details::Span(*from as u64, *to as u64)),
        Fault::OpenQuote { at } => ("OpenQuote", Details::Number(*at as u64)),
        Fault::NoConsole => ("NoConsole", Details::Nothing),
        Fault::ConsoleOffline => ("ConsoleOffline", Details::Nothing),
        Fault::LogonRequired => ("LogonRequired", Details::Nothing),
        Fault::Revoked => ("Revoked", Details::Nothing),
        Fault::BadLogon => ("BadLogon", Details::Nothing),
        Fault::AlreadyOn(user) => ("AlreadyOn", Details::Name(user.text())),
        Fault::NotOn => ("NotOn", Details::Nothing),
        Fault::DeniedConsole => ("DeniedConsole", Details::Nothing),
        Fault::DeniedProfile => ("DeniedProfile", Details::Nothing),
        Fault::DeniedGroup => ("DeniedGroup", Details::Nothing),
        Fault::NoUnit => ("NoUnit", Details::Nothing),
        Fault::NonCancelable => ("NonCancelable", Details::Nothing),
        Fault::Cancelable => ("Cancelable", Details::Nothing),
        Fault::UnitExists => ("UnitExists", Details::Nothing),
        Fault::NoDevice => ("NoDevice", Details::Nothing),
        Fault::DeviceState => ("DeviceState", Details::Nothing),
        Fault::DeviceInUse => ("DeviceInUse", Details::Nothing),
        Fault::NoVolume => ("NoVolume", Details::Nothing),
        Fault::NoReply => ("NoReply", Details::Nothing),
        Fault::NoTarget => ("NoTarget", Details::Nothing),
        Fault::Halted => ("Halted", Details::Nothing),
        Fault::LastMaster => ("LastMaster", Details::Nothing),
        Fault::WrongKind => ("WrongKind", Details::Nothing),
        Fault::ReplyExists => ("ReplyExists", Details::Nothing),
        Fault::NotSpecial => ("NotSpecial", Details::Nothing),
        Fault::NotOwner => ("NotOwner", Details::Nothing),
        Fault::Exists(subject) => ("Exists", Details::Name(subject.text())),
        Fault::Missing(subject) => ("Missing", Details::Name(subject.text())),
        Fault::InUse(subject) => ("InUse", Details::Name(subject.text())),
        Fault::BatchChanged => ("BatchChanged", Details::Nothing),
        Fault::NotEmpty => ("NotEmpty", Details::Nothing),
        Fault::RowFault { row, why } => ("RowFault", Details::Row(*row, *why)),
        Fault::NoMemory => ("NoMemory", Details::Nothing),
        Fault::Store => ("Store", Details::Nothing),
        Fault::NotOurs { version } => ("NotOurs", Details::Number(*version)),
    }
}

fn push_word(line: &mut ArrayString<FAULT_LINE>, word: &str)
    requires { array_string_len line.old + length word.now + 1 ≤ 64 }
    ensures text { line.new.bytes ≡ line.old.bytes ++ word_text word.now }
    ensures length { array_string_len line.new ≡ array_string_len line.old + length word.now + 1 }
{
    line.push_str(" ");
    line.push_str(word);
}

fn push_number(line: &mut ArrayString<FAULT_LINE>, number: u64)
    requires { array_string_len line.old + 21 ≤ 64 }
    ensures text { line.new.bytes ≡ line.old.bytes ++ number_text number }
    ensures length { array_string_len line.new ≤ array_string_len line.old + 21 }
{
    let mut digits = Buffer::new();
    push_word(line, digits.format(number));
}

#[tactic(auto, using(crate::proofs::Words::why_is_short))]
fn push_details(line: &mut ArrayString<FAULT_LINE>, details: Details<'_>)
    requires room { array_string_len line.old ≤ 18 }
    requires short { AreShort details }
    ensures text { line.new.bytes ≡ line.old.bytes ++ details_text details.entry }
    ensures length { array_string_len line.new ≤ 60 }
{
    match details {
        Details::Nothing => {}
        Details::Number(number) => push_number(line, number),
        Details::Span(from, to) => {
            push_number(line, from);
            push_number(line, to);
        }
        Details::Name(name) => push_word(line, name),
        Details::Row(row, why) => {
            push_number(line, u64::from(row));
            push_word(line, why.text());
        }
    }
}

/// A fault as its code, a space and its text.
pub(crate) fn fault_line(fault: &Fault) -> ArrayString<FAULT_LINE>
    ensures { result.bytes ≡ fault_line fault.now }
{
    let (name, details) = words_of(fault);
    let mut line = ArrayString::<FAULT_LINE>::new();
    line.push_str(fault.code());
    push_word(&mut line, name);
    push_details(&mut line, details);
    line.push_str("\n");
    line
}
