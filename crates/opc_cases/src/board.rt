//! Cases of boards of rows that no run of commands and events makes. Each case is printed, and below it the outcome.
ghost use Rattle.std.specs.Prelude.{IsSome, IsTrue};
ghost use Rattle.opc_board.specs.Invariants.{console_at};

mod gathered;

use self::gathered::gathered;
use crate::words::first_word;
use anyhow::{Context, Result, anyhow};
use opc_board::board::{Board, BoardRows};
use opc_board::fault::BoardFault;
use opc_board::line::Line;
use opc_names::auth::Auth;
use opc_names::name::{ConsoleName, UnitName};
use opc_reader::line::read_command;
use opc_reader_commands::command::Command;
use opc_terms::mode::Mode;
use opc_terms::unit_kind::UnitKindAt;
use std::alloc::{AllocError, Global};

// How many rows of each kind came back, if they are no valid board.
fn rows_text(alloc: Global, back: &BoardRows) -> Result<String, AllocError> {
    let units = back.units.as_slice().len();
    let devices = back.devices.as_slice().len();
    let consoles = back.consoles.as_slice().len();
    let replies = back.replies.as_slice().len();
    format!(in alloc;
        "  no board, of {units} units, {devices} devices, {consoles} consoles, {replies} replies\n"
    )
}

fn lines_text(alloc: Global, lines: &[Line]) -> Result<String, AllocError> {
    let mut texts = String::new(alloc);
    for line in lines {
        let text = line.text.as_str();
        writeln!(texts, "  {text}")?;
    }
    Ok(texts)
}

fn answer_text(alloc: Global, answer: Result<Vec<Line>, BoardFault>) -> Result<String, AllocError> {
    match answer {
        Ok(lines) => lines_text(alloc, lines.as_slice()),
        // A failed allocation ends the program: no case expects it as an answer.
        Err(BoardFault::NoMemory) => Err(AllocError),
        Err(fault) => format!(in alloc; "  {fault:?}\n"),
    }
}

fn has_console(board: &Board, name: &ConsoleName) -> bool
    ensures { IsTrue result → IsSome (console_at board.now name.now) }
{
    board.rows().consoles.find(name).is_some()
}

// A command typed at a console: the name, and the line.
fn typed(alloc: Global, board: &mut Board, text: &str) -> Result<String> {
    let (name, line) = text.split_once(' ').context("a console and a line")?;
    let name = ConsoleName::read(name)?;
    let there = has_console(board, &name);
    match read_command(line)? {
        Command::Logon(..) | Command::Logoff => Ok(String::from_str(alloc, "  a session's\n")?),
        command if there => Ok(answer_text(alloc, board.act(alloc, &command, &name))?),
        _ => Ok(String::from_str(alloc, "  no console\n")?),
    }
}

// A console's authority and mode, as administration gives it.
fn define(board: &mut Board, text: &str) -> Result<()> {
    let (name, auth) = text.split_once(' ').context("a console and an authority")?;
    let auth = Auth::read(auth).context("an authority")?;
    board.define_console(ConsoleName::read(name)?, auth, Mode::Required)?;
    Ok(())
}

// Whether these rows are a board, which then replaces the other.
fn make(alloc: Global, board: &mut Board, text: &str) -> Result<String> {
    match Board::of(gathered(alloc, text)?) {
        Ok(made) => {
            *board = made;
            Ok(String::from_str(alloc, "  a board\n")?)
        }
        Err(back) => Ok(rows_text(alloc, &back)?),
    }
}

// What a unit of this name is.
fn kind(alloc: Global, board: &Board, name: &str) -> Result<String> {
    match board.kind_at(&UnitName::read(name)?) {
        UnitKindAt::Absent => Ok(String::from_str(alloc, "  absent\n")?),
        UnitKindAt::Job => Ok(String::from_str(alloc, "  a job\n")?),
        UnitKindAt::Stc { member } => {
            let member = member.text();
            Ok(format!(in alloc; "  a started task of {member}\n")?)
        }
        UnitKindAt::Tsu => Ok(String::from_str(alloc, "  a session\n")?),
    }
}

/// A board without rows.
pub fn no_rows(alloc: Global) -> Result<Board> {
    match Board::of(gathered(alloc, "")?) {
        Ok(board) => Ok(board),
        Err(_) => Err(anyhow!("no rows are no board")),
    }
}

/// The answer to a case: `board` asks whether the rows after it are a board, and `define`, `kind`, `type` and `master`
/// are about the last rows that were one.
pub fn answer(alloc: Global, board: &mut Board, case: &str) -> Result<String> {
    let (subject, text) = first_word(case);
    match subject {
        "board" => make(alloc, board, text),
        "define" => {
            define(board, text)?;
            Ok(String::new(alloc))
        }
        "kind" => kind(alloc, board, text),
        "master" if board.has_master() => Ok(String::from_str(alloc, "  online\n")?),
        "master" => Ok(String::from_str(alloc, "  none\n")?),
        _ => typed(alloc, board, text),
    }
}
