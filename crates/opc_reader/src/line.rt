//! Command lines.
ghost use Rattle.std.specs.Prelude.{
  ◌≡◌,
  ◌≤◌,
  ◌<◌,
  ◌==◌,
  ◌↔◌,
  false,
  nat_lt,
  not,
  length,
  option_map,
  Some,
  IfSome,
  IfNone,
  IfOk,
};
ghost use Rattle.std.specs.List.{list_all, position, prefix_len, suffix_len};
ghost use Rattle.std.specs.Str.{chars, IsAscii};
ghost use Rattle.opc_reader_commands.specs.declared.command.Command.{Command as TheCommand};
ghost use Rattle.opc_reader.specs.declared.line.ReadFault.{ReadFault as TheFault};
ghost use Rattle.opc_reader.specs.declared.line.ReadFault.TheVariants.{OpenQuote};
ghost use Rattle.opc_reader.specs.Lines.{
  Reads,
  IsReadFault,
  OperandsAreSlices,
  is_space,
  is_typeable,
  trimmed,
  skip_spaces,
  open_at,
  open_place,
};
ghost use Rattle.opc_reader.specs.Reading.{outcome_of, reading};

use crate::form::command;
use crate::verb::Verb;
use opc_reader_commands::command::Command;
use opc_reader_commands::piece::{Piece, Span};
use opc_reader_commands::quote::is_open;
use std::error::Error;
use std::fmt;

/// Why a line is not a command: the first of these that holds, an open quote before a bad operand. Places are byte
/// places.
#[derive(Clone, Copy, Debug, PartialEq, Eq)]
pub enum ReadFault {
    /// Nothing, or spaces alone.
    Empty,
    /// More than 126 characters.
    TooLong,
    /// Where the first character stands that is not from the space to the tilde.
    BadCharacter(usize),
    /// A word that is no verb: all up to the next space.
    UnknownVerb(Span),
    /// Operands that are no form of the verb: from the first of their characters to the last except spaces. If there
    /// are none, both places are their end.
    BadOperand(Span),
    /// Where a quoted text begins that is not closed.
    OpenQuote(usize),
}

impl fmt::Display for ReadFault {
    ghost use Rattle.std.specs.Prelude.{Some};
    ghost use Rattle.opc_reader.specs.Lines.{fault_words};

    ghost output = { λ fault. Some (fault_words fault) };

    fn fmt<W: fmt::Write>(&self, f: &mut fmt::Formatter<W>) -> fmt::Result {
        match self {
            ReadFault::Empty => write!(f, "empty"),
            ReadFault::TooLong => write!(f, "too long"),
            ReadFault::BadCharacter(at) => write!(f, "bad character at {at}"),
            ReadFault::UnknownVerb(span) => write!(
                f,
                "unknown verb from {} to {}",
                span.from, span.to
            ),
            ReadFault::BadOperand(span) => write!(
                f,
                "bad operand from {} to {}",
                span.from, span.to
            ),
            ReadFault::OpenQuote(at) => write!(f, "open quote at {at}"),
        }
    }
}

impl Error for ReadFault {}

const SPACE: u8 = b' ';

fn is_blank(line: &[u8]) -> bool
    ensures { result ≡ list_all is_space line.now }
{
    line.iter().all(|c| *c == SPACE)
}

fn count_characters(line: &str) -> usize
    ensures { result ≡ length (chars line.now) }
{
    line.chars().count()
}

fn bad_place(line: &[u8]) -> Option<usize>
    ensures place { result ≡ position (λ c. not (is_typeable c)) line.now }
    ensures ascii { IfNone result (IsAscii line.now) }
{
    line.iter().position(|c| !(32 <= *c && *c <= 126))
}

fn spaces_before(text: &[u8]) -> usize
    ensures value { result ≡ prefix_len is_space text.now }
    ensures within { result ≤ length text.now }
{
    text.iter().take_while(|c| **c == SPACE).count()
}

fn spaces_after(text: &[u8]) -> usize
    ensures value { result ≡ suffix_len is_space text.now }
    ensures within { result ≤ length text.now }
{
    text.iter().rev().take_while(|c| **c == SPACE).count()
}

fn word_len(text: &[u8]) -> usize
    ensures value { result ≡ prefix_len (λ c. not (is_space c)) text.now }
    ensures within { result ≤ length text.now }
{
    text.iter().take_while(|c| **c != SPACE).count()
}

fn skip_spaces<'a>(s: &Piece<'a>) -> Piece<'a>
    ensures { result ≡ skip_spaces s.now }
{
    s.split(spaces_before(s.text().as_bytes())).1
}

/// A line without the spaces around it.
fn trimmed(line: &str) -> Piece<'_>
    requires ascii { IsAscii line.now }
    requires short { length line.now ≤ 126 }
    ensures { result ≡ trimmed line.now }
{
    let end = line.len() - spaces_after(line.as_bytes());
    let (prefix, _) = Piece::whole(line).split(end);
    skip_spaces(&prefix)
}

fn open_at(at: usize, text: &[u8]) -> Option<usize>
    ensures { result ≡ open_at at text.now }
{
    if is_open(text) { Some(at) } else { None }
}

fn comma(text: &[u8]) -> Option<usize>
    ensures value { result ≡ position (λ c. c == 44) text.now }
    ensures within { IfSome result (λ at. at < length text.now) }
{
    text.iter().position(|c| *c == b',')
}

/// The place of a quoted text that is not closed.
fn open_place(verb: Verb, s: &Piece<'_>) -> Option<usize>
    ensures { result ≡ open_place verb s.now }
{
    match verb {
        Verb::Modify | Verb::Reply => {
            let (_, rest) = s.split(comma(s.text().as_bytes())? + 1);
            open_at(rest.span().from, rest.text().as_bytes())
        }
        Verb::Send | Verb::Log => open_at(s.span().from, s.text().as_bytes()),
        // No other verb has a text that may be quoted.
        _ => None,
    }
}

fn is_too_long(line: &str) -> bool
    ensures value { result ≡ nat_lt 126 (length (chars line.now)) }
    ensures short { result ≡ false → length (chars line.now) ≤ 126 }
{
    count_characters(line) > 126
}

/// The command of a verb with these operands, or what is wrong with them first.
fn read_operands(verb: Verb, operands: Piece<'_>) -> Result<Command<'_>, ReadFault>
    ensures { result ≡ outcome_of (option_map OpenQuote (open_place verb operands.entry)) (Some verb) operands.entry }
{
    if let Some(at) = open_place(verb, &operands) {
        return Err(ReadFault::OpenQuote(at));
    }
    let span = operands.span();
    match command(verb, operands) {
        Some(command) => Ok(command),
        None => Err(ReadFault::BadOperand(span)),
    }
}

fn read(line: &str) -> Result<Command<'_>, ReadFault>
    ensures { result ≡ reading line.now }
{
    if is_blank(line.as_bytes()) {
        return Err(ReadFault::Empty);
    }
    if is_too_long(line) {
        return Err(ReadFault::TooLong);
    }
    if let Some(at) = bad_place(line.as_bytes()) {
        return Err(ReadFault::BadCharacter(at));
    }
    let body = trimmed(line);
    let (word, rest) = body.split(word_len(body.text().as_bytes()));
    let Some(verb) = Verb::spelled(word.folded().as_str()) else {
        return Err(ReadFault::UnknownVerb(word.span()));
    };
    read_operands(verb, skip_spaces(&rest))
}

/// The command that a line is, with each operand as the slice of the line at its span, or the first fault of the line.
/// It allocates nothing.
pub fn read_command(line: &str) -> Result<Command<'_>, ReadFault>
    // The line is a command if and only if the grammar has one.
    ensures command { (c : TheCommand) → (result ≡ Ok c) ↔ Reads line.now c }
    ensures fault { (f : TheFault) → (result ≡ Err f) ↔ IsReadFault line.now f }
    ensures slices { IfOk result (λ c. OperandsAreSlices line.now c) }
    ensures reading { result ≡ reading line.now }
{
    read(line)
}
