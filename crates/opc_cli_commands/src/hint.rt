//! What helps somebody who typed a line that is no command.
ghost use Rattle.std.specs.Prelude.{◌≡◌, IfOk, IfSome, Some, string_bytes};
ghost use Rattle.std.specs.Option.{option_map};
ghost use Rattle.opc_cli_commands.specs.Nearest.{nearest};
ghost use Rattle.opc_cli_commands.specs.Hints.{
  bad_line,
  bad_operands,
  bad_verb,
  hint_about,
  hint_by,
  mark_of,
  no_verb,
  question,
  row_in,
  shown,
  shown_operands,
  takes_text,
  verb_by,
};
ghost use Rattle.opc_cli_commands.specs.VerbRows.{full_verbs, row_of};

use crate::operands::operands_text;
use crate::shown_words::{split_operand, split_verb};
use crate::spelling::nearest;
use crate::verbs::{VerbRow, row_with, verb_rows, verbs_in};
use opc_reader::line::{ReadFault, read_command};
use opc_reader_commands::piece::Piece;
use std::alloc::{AllocError, Global};

/// A word that is asked back.
pub fn question(alloc: Global, word: Option<&str>) -> Result<String, AllocError>
    ensures { IfOk result (λ text. string_bytes text ≡ question (option_map (λ word. word.now) word.entry)) }
{
    match word {
        Some(word) => format!(in alloc; "; {word}?"),
        None => Ok(String::new(alloc)),
    }
}

fn nearest_verb(alloc: Global, word: &str) -> Result<Option<&'static str>, AllocError>
    ensures { IfOk result (λ verb. option_map (λ verb. verb.now) verb ≡ nearest word.now full_verbs) }
{
    let verbs = verbs_in(alloc, &verb_rows())?;
    Ok(nearest(word, &verbs))
}

fn row_in(word: &str) -> Option<VerbRow>
    ensures { option_map row_of result ≡ row_in word.now }
{
    row_with(word, &verb_rows())
}

/// A word that is no verb.
fn no_verb(alloc: Global, shown: &str, word: &str) -> Result<String, AllocError>
    ensures { IfOk result (λ text. string_bytes text ≡ no_verb shown.now word.now) }
{
    let asked = question(alloc, nearest_verb(alloc, word)?)?;
    format!(in alloc; "\"{shown}\": no such verb{asked}")
}

/// A word that is no verb, or a verb that no space follows.
fn verb_by(alloc: Global, verb: &Piece<'_>, row: Option<VerbRow>) -> Result<String, AllocError>
    ensures { IfOk result (λ text. string_bytes text ≡ verb_by verb.now (option_map row_of row)) }
{
    match row {
        Some(_) => format!(in alloc; "\"{}\": no space follows the verb", verb.text()),
        None => no_verb(alloc, verb.text(), verb.folded().as_str()),
    }
}

/// What is wrong with the verb of a line.
fn bad_verb(alloc: Global, line: &Piece<'_>) -> Result<String, AllocError>
    ensures { IfOk result (λ text. string_bytes text ≡ bad_verb line.now) }
{
    let (verb, _) = split_verb(line);
    let row = row_in(verb.folded().as_str());
    verb_by(alloc, &verb, row)
}

/// What stands for the rest of a line, if any follows.
fn mark_of(rest: &str) -> &'static str
    ensures { result.now ≡ mark_of rest.now }
{
    if rest.is_empty() { "" } else { ".." }
}

/// What is shown of the operands of a verb: the first, to a space or a comma, since a password may follow.
fn shown_operands(alloc: Global, verb: &str, operands: &Piece<'_>) -> Result<String, AllocError>
    ensures { IfOk result (λ text. string_bytes text ≡ shown_operands verb.now operands.now) }
{
    let (operand, rest) = split_operand(operands);
    let more = mark_of(rest.text());
    if operand.text().is_empty() {
        format!(in alloc; "\"{verb}\"{more}")
    } else {
        format!(in alloc; "\"{verb} {}\"{more}", operand.text())
    }
}

/// What is shown of a line whose verb has this row: of a LOGON the verb alone.
fn shown(
    alloc: Global,
    row: &VerbRow,
    verb: &str,
    operands: &Piece<'_>,
) -> Result<String, AllocError>
    ensures { IfOk result (λ text. string_bytes text ≡ shown (row_of row.now) verb.now operands.now) }
{
    if row.full == "LOGON" {
        format!(in alloc; "\"{verb}\"..")
    } else {
        shown_operands(alloc, verb, operands)
    }
}

/// What a verb takes, as a sentence.
fn takes_text(alloc: Global, row: &VerbRow) -> Result<String, AllocError>
    ensures { IfOk result (λ text. string_bytes text ≡ takes_text (row_of row.now)) }
{
    let operands = operands_text(alloc, row.shortest())?;
    if row.full == "LOGON" {
        format!(in alloc; "{operands}, with no space between")
    } else if operands.is_empty() {
        String::from_str(alloc, " no operands")
    } else {
        Ok(operands)
    }
}

/// What is wrong with the operands of a line whose verb has this row.
fn bad_operands(
    alloc: Global,
    row: &VerbRow,
    verb: &Piece<'_>,
    operands: &Piece<'_>,
) -> Result<String, AllocError>
    ensures { IfOk result (λ text. string_bytes text ≡ bad_operands (row_of row.now) verb.now operands.now) }
{
    let shown = shown(alloc, row, verb.text(), operands)?;
    let (word, takes) = (verb.folded(), takes_text(alloc, row)?);
    format!(in alloc; "{shown}: {} takes{takes}", word.as_str())
}

/// What is wrong with the operands of a line, if it has a verb.
fn bad_line(alloc: Global, line: &Piece<'_>) -> Result<Option<String>, AllocError>
    ensures { IfOk result (λ hint. option_map string_bytes hint ≡ bad_line line.now) }
{
    let (verb, operands) = split_verb(line);
    match row_in(verb.folded().as_str()) {
        Some(row) => Ok(Some(bad_operands(alloc, &row, &verb, &operands)?)),
        // A line without a verb has no bad operands.
        None => Ok(None),
    }
}

fn hint_by(alloc: Global, fault: ReadFault, line: &Piece<'_>) -> Result<Option<String>, AllocError>
    ensures { IfOk result (λ hint. option_map string_bytes hint ≡ hint_by fault line.now) }
{
    match fault {
        ReadFault::UnknownVerb(_) => Ok(Some(bad_verb(alloc, line)?)),
        ReadFault::BadOperand(_) => bad_line(alloc, line),
        // The other faults name all that is wrong.
        _ => Ok(None),
    }
}

/// What is wrong with a line that is no command, in words that help: the nearest verb, or the operands that its verb
/// takes. There is none if the line's fault says enough.
pub fn hint_about(alloc: Global, line: &str) -> Result<Option<String>, AllocError>
    ensures { IfOk result (λ hint. IfSome hint (λ text. hint_about line.now ≡ Some (string_bytes text))) }
{
    let Err(fault) = read_command(line) else {
        return Ok(None);
    };
    // A line is read up to its verb only if it is one of these.
    if line.len() > 126 || !line.is_ascii() {
        return Ok(None);
    }
    hint_by(alloc, fault, &Piece::whole(line))
}
