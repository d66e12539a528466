//! The page, as it is printed: each part is made and written before the next one, so that it takes no more memory than
//! a row does, however many rows there are.
ghost use Rattle.std.specs.Prelude.{◌≡◌, ◌≤◌, ◌+◌, IfErr, OnOk, length};
ghost use Rattle.std.specs.Io.KnownBytes.{Appends};
ghost use Rattle.opc_policy_deciders.specs.Decided.{ArePatternsOf, patterns_of};
ghost use Rattle.opc_answers.specs.Made.{members_of};
ghost use Rattle.opc_cli_failures.specs.Statuses.{IsFailure};
ghost use Rattle.opc_answers_sheet.specs.Callers.{callers_of};
ghost use Rattle.opc_answers_sheet.specs.Consoles.{console_row, console_rows};
ghost use Rattle.opc_answers_sheet.specs.Page.{
  beginning_text,
  commands_head,
  consoles_head,
  ending,
  head_text,
  notes_text,
  rest_text,
  table_end,
};
ghost use Rattle.opc_answers_sheet.specs.Printed.{PrintsRowsAt, PrintsRowsUpTo, PrintsSheet, PrintsTables};

use crate::callers::{Caller, callers_in};
use crate::commands::rows_at;
use crate::consoles::console_row;
use crate::page::{commands_head, consoles_head, ending, head_text, notes_text, table_end};
use opc_answers::room::Room;
use opc_board::rows::ConsoleRow;
use opc_cli_failures::failure::{Failure, Place};
use opc_names::name::Pattern;
use opc_policy_deciders::decided::patterns_of;
use opc_policy_members::row::Row;
use opc_terms::fault::Fault;
use std::alloc::Global;
use std::io::Write;

/// The failure if an allocation fails.
fn no_memory() -> Failure
    ensures { IsFailure result.fault }
{
    Failure::from(Fault::NoMemory)
}

fn print<W: Write>(text: &str, output: &mut W) -> Result<(), Failure>
    ensures text { OnOk result (Appends (W.contents output.old) (W.contents output.new) text.now) }
    ensures fails { IfErr result (λ failure. IsFailure failure.fault) }
{
    match output.write_all(text.as_bytes()) {
        Ok(()) => Ok(()),
        Err(error) => Err(Failure::at(Place::Output, error)),
    }
}

fn print_head<W: Write>(
    alloc: Global,
    name: &str,
    digest: &str,
    rows: &[Row],
    output: &mut W,
) -> Result<(), Failure>
    ensures text { OnOk result (Appends (W.contents output.old) (W.contents output.new)
        (head_text name.now digest.now rows.now)) }
    ensures fails { IfErr result (λ failure. IsFailure failure.fault) }
{
    let Ok(text) = head_text(alloc, name, digest, rows) else {
        return Err(no_memory());
    };
    print(text.as_str(), output)
}

fn print_notes<W: Write>(alloc: Global, rows: &[Row], output: &mut W) -> Result<(), Failure>
    ensures text { OnOk result (Appends (W.contents output.old) (W.contents output.new) (notes_text rows.now)) }
    ensures fails { IfErr result (λ failure. IsFailure failure.fault) }
{
    let Ok(text) = notes_text(alloc, rows) else {
        return Err(no_memory());
    };
    print(text.as_str(), output)
}

/// Prints the rows of the profile at a place, or at the end of what no profile decides.
fn print_rows_at<W: Write>(
    alloc: Global,
    room: &Room,
    callers: &[Caller<'_>],
    patterns: &[Pattern],
    place: usize,
    output: &mut W,
) -> Result<(), Failure>
    requires members { room.now.members ≡ members_of room.now.policy }
    requires callers { callers.now ≡ callers_of room.now.policy room.now.board }
    requires patterns { ArePatternsOf room.now.policy patterns.now }
    requires within { place ≤ length patterns.now }
    ensures text { OnOk result (PrintsRowsAt room.now.policy room.now.board place (W.contents output.old)
        (W.contents output.new)) }
    ensures fails { IfErr result (λ failure. IsFailure failure.fault) }
{
    let Ok(text) = rows_at(alloc, room, callers, patterns, place) else {
        return Err(no_memory());
    };
    print(text.as_str(), output)
}

/// Prints the rows of commands.
fn print_commands<W: Write>(
    alloc: Global,
    room: &Room,
    callers: &[Caller<'_>],
    patterns: &[Pattern],
    output: &mut W,
) -> Result<(), Failure>
    requires members { room.now.members ≡ members_of room.now.policy }
    requires callers { callers.now ≡ callers_of room.now.policy room.now.board }
    requires patterns { ArePatternsOf room.now.policy patterns.now }
    ensures text { OnOk result (PrintsRowsUpTo room.now.policy room.now.board (length patterns.now + 1)
        (W.contents output.old) (W.contents output.new)) }
    ensures fails { IfErr result (λ failure. IsFailure failure.fault) }
{
    for place in 0..patterns.len() {
        print_rows_at(alloc, room, callers, patterns, place, output)?;
    }
    print_rows_at(alloc, room, callers, patterns, patterns.len(), output)
}

fn print_console<W: Write>(
    alloc: Global,
    room: &Room,
    console: &ConsoleRow,
    output: &mut W,
) -> Result<(), Failure>
    requires { room.now.members ≡ members_of room.now.policy }
    ensures text { OnOk result (Appends (W.contents output.old) (W.contents output.new)
        (console_row room.now.policy room.now.board console.now)) }
    ensures fails { IfErr result (λ failure. IsFailure failure.fault) }
{
    let Ok(text) = console_row(alloc, room, console) else {
        return Err(no_memory());
    };
    print(text.as_str(), output)
}

/// Prints the rows of consoles.
fn print_consoles<W: Write>(alloc: Global, room: &Room, output: &mut W) -> Result<(), Failure>
    requires { room.now.members ≡ members_of room.now.policy }
    ensures text { OnOk result (Appends (W.contents output.old) (W.contents output.new)
        (console_rows room.now.policy room.now.board)) }
    ensures fails { IfErr result (λ failure. IsFailure failure.fault) }
{
    for console in room.board.rows().consoles.as_slice() {
        print_console(alloc, room, console, output)?;
    }
    Ok(())
}

fn print_ending<W: Write>(
    alloc: Global,
    room: &Room,
    callers: &[Caller<'_>],
    output: &mut W,
) -> Result<(), Failure>
    requires { callers.now ≡ callers_of room.now.policy room.now.board }
    ensures text { OnOk result (Appends (W.contents output.old) (W.contents output.new)
        (ending room.now.policy room.now.board)) }
    ensures fails { IfErr result (λ failure. IsFailure failure.fault) }
{
    let Ok(text) = ending(alloc, room, callers) else {
        return Err(no_memory());
    };
    print(text.as_str(), output)
}

/// Prints the head, the notes, and the head of the first table.
fn print_beginning<W: Write>(
    alloc: Global,
    name: &str,
    digest: &str,
    rows: &[Row],
    output: &mut W,
) -> Result<(), Failure>
    ensures text { OnOk result (Appends (W.contents output.old) (W.contents output.new)
        (beginning_text name.now digest.now rows.now)) }
    ensures fails { IfErr result (λ failure. IsFailure failure.fault) }
{
    print_head(alloc, name, digest, rows, output)?;
    print_notes(alloc, rows, output)?;
    print(commands_head(), output)
}

/// Prints what follows the rows of commands.
fn print_rest<W: Write>(
    alloc: Global,
    room: &Room,
    callers: &[Caller<'_>],
    output: &mut W,
) -> Result<(), Failure>
    requires members { room.now.members ≡ members_of room.now.policy }
    requires callers { callers.now ≡ callers_of room.now.policy room.now.board }
    ensures text { OnOk result (Appends (W.contents output.old) (W.contents output.new)
        (rest_text room.now.policy room.now.board)) }
    ensures fails { IfErr result (λ failure. IsFailure failure.fault) }
{
    print(table_end(), output)?;
    print(consoles_head(), output)?;
    print_consoles(alloc, room, output)?;
    print(table_end(), output)?;
    print_ending(alloc, room, callers, output)
}

/// Prints the rows of commands, and what follows them.
fn print_tables<W: Write>(alloc: Global, room: &Room, output: &mut W) -> Result<(), Failure>
    requires { room.now.members ≡ members_of room.now.policy }
    ensures text { OnOk result (PrintsTables room.now.policy room.now.board (W.contents output.old)
        (W.contents output.new)) }
    ensures fails { IfErr result (λ failure. IsFailure failure.fault) }
{
    let Ok(callers) = callers_in(alloc, room) else {
        return Err(no_memory());
    };
    let Ok(patterns) = patterns_of(alloc, &room.policy) else {
        return Err(no_memory());
    };
    print_commands(alloc, room, callers.as_slice(), patterns.as_slice(), output)?;
    print_rest(alloc, room, callers.as_slice(), output)
}

/// Prints the page of a policy: its name, the digest of its bytes, and what its rows make.
pub fn print_sheet<W: Write>(
    alloc: Global,
    name: &str,
    digest: &str,
    rows: &[Row],
    room: &Room,
    output: &mut W,
) -> Result<(), Failure>
    requires { room.now.members ≡ members_of room.now.policy }
    ensures text { OnOk result (PrintsSheet name.now digest.now rows.now room.now.policy room.now.board
        (W.contents output.old) (W.contents output.new)) }
    ensures fails { IfErr result (λ failure. IsFailure failure.fault) }
{
    print_beginning(alloc, name, digest, rows, output)?;
    print_tables(alloc, room, output)
}
