//! Why a line of a script is bad.
ghost use Rattle.std.specs.Prelude.{◌≡◌, ◌≤◌, length};
ghost use Rattle.std.specs.List.{prefix_len};
ghost use Rattle.opc_cli_script.specs.Reading.{is_space};
ghost use Rattle.opc_cli_script.specs.Slips.{
  after_spaces,
  first_word,
  hidden_after,
  is_in_word,
  past_moment,
  past_word,
  shown_start,
  slip_after,
  slip_in,
  slip_of_request,
};

use crate::event::separated;
use crate::line::{MOMENT_DIGITS, is_number};
use crate::script::SCRIPT_LIMIT;
use opc_cli_failures::bad_line::{BadLine, LineForm, Slip};
use opc_cli_failures::reason::Reason;
use std::str;

fn first_word(line: &str) -> &str
    ensures { result.now ≡ first_word line.now }
{
    match separated(line) {
        Some((word, _)) => word,
        None => line,
    }
}

/// What is wrong with the parts that follow the timestamp of a line: the console, and the request.
fn slip_of_request(who: &str) -> Slip
    ensures { result ≡ slip_of_request who.now }
{
    if who == "*" {
        Slip::Event
    } else if who.is_empty() {
        Slip::NoConsole
    } else {
        Slip::Console
    }
}

/// What is wrong first with what follows the timestamp of a line, or with a line without one, if it is no request.
pub fn slip_after(rest: &str) -> Slip
    ensures { result ≡ slip_after rest.now }
{
    match separated(rest) {
        Some((who, _)) => slip_of_request(who),
        None if rest.is_empty() => Slip::NoConsole,
        None => Slip::NoText,
    }
}

/// What is wrong with a line first, if it is no request.
pub fn slip_in(line: &str) -> Slip
    ensures { result ≡ slip_in line.now }
{
    let moment = first_word(line);
    if !is_number(moment) {
        return Slip::NoMoment;
    }
    if moment.len() > MOMENT_DIGITS {
        return Slip::LongMoment;
    }
    match separated(line) {
        Some((_, rest)) => slip_after(rest),
        None => Slip::NoConsole,
    }
}

fn spaces_before(text: &[u8]) -> usize
    ensures value { result ≡ prefix_len is_space text.now }
    ensures within { result ≤ length text.now }
{
    text.iter().take_while(|c| **c == b' ').count()
}

fn word_len(text: &[u8]) -> usize
    ensures value { result ≡ prefix_len is_in_word text.now }
    ensures within { result ≤ length text.now }
{
    text.iter()
        .take_while(|c| !(**c == b' ' || **c == b','))
        .count()
}

fn after_spaces(text: &[u8]) -> &[u8]
    ensures value { result.now ≡ after_spaces text.now }
    ensures within { length result.now ≤ length text.now }
{
    text.split_at(spaces_before(text)).1
}

/// What follows the first word of a text.
fn past_word(text: &[u8]) -> &[u8]
    ensures value { result.now ≡ past_word text.now }
    ensures within { length result.now ≤ length text.now }
{
    let words = after_spaces(text);
    words.split_at(word_len(words)).1
}

/// What follows the timestamp, or the word in its place.
fn past_moment(form: LineForm, line: &[u8]) -> &[u8]
    ensures value { result.now ≡ past_moment form line.now }
    ensures within { length result.now ≤ length line.now }
{
    match form {
        LineForm::Script => past_word(line),
        LineForm::Now => line,
    }
}

/// What follows the word that is wrong.
fn hidden_after(slip: Slip, rest: &[u8]) -> &[u8]
    ensures value { result.now ≡ hidden_after slip rest.now }
    ensures within { length result.now ≤ length rest.now }
{
    match slip {
        Slip::NoMoment | Slip::LongMoment => rest,
        Slip::NoConsole | Slip::Console | Slip::NoText => past_word(rest),
        Slip::Event => past_word(past_word(rest)),
    }
}

/// What is shown of a bad line: up to the word that is wrong, since a password may follow.
fn shown_start(form: LineForm, slip: Slip, line: &[u8]) -> &[u8]
    ensures { result.now ≡ shown_start form slip line.now }
{
    let hidden = hidden_after(slip, past_moment(form, line));
    &line[..line.len() - hidden.len()]
}

/// A bad line with this number, and what is wrong with it first. What is reported of it is a note beside the line that
/// is printed, which no clause states; the tables of `tools/program` have the words.
pub fn bad_line(number: u64, line: &str, slip: Slip, form: LineForm) -> BadLine {
    let start = shown_start(form, slip, line.as_bytes());
    let is_whole = start.len() == line.len();
    // It ends before an ASCII character, and so is a text.
    let text = str::from_utf8(start).unwrap_or("");
    BadLine::of(number, text, is_whole, slip, form)
}

/// Why the line of this number is bad, from 1 on; 0 stands for a script that is too long or is not UTF-8.
pub fn reason_of(script: &[u8], number: usize) -> Option<Reason> {
    if script.len() > SCRIPT_LIMIT as usize {
        return Some(Reason::LongScript);
    }
    let Ok(text) = str::from_utf8(script) else {
        return Some(Reason::NotUtf8);
    };
    let line = text.lines().nth(number.checked_sub(1)?)?;
    let bad = bad_line(number as u64, line, slip_in(line), LineForm::Script);
    Some(Reason::Line(bad))
}
