//! The tables by their words, and how each line is printed.
use crate::policy_file::HEADER;
use anyhow::{Result, bail};
use opc_board::board::Board;
use opc_policy_members::policy::Policy;
use std::alloc::Global;

/// A table, with what the lines before it have made.
#[derive(Drop)]
pub enum Table {
    Names,
    Reader,
    Policy(Policy),
    Import,
    /// With a policy file.
    Answers(String),
    Check,
    Reach,
    Board(Board),
}

impl Table {
    /// The table of a word.
    pub fn of(alloc: Global, word: &str) -> Result<Self> {
        Ok(match word {
            "names" => Table::Names,
            "reader" => Table::Reader,
            "policy" => Table::Policy(Policy::new(alloc)),
            "import" => Table::Import,
            "answers" => Table::Answers(String::from_str(alloc, HEADER)?),
            "check" => Table::Check,
            "reach" => Table::Reach,
            "board" => Table::Board(crate::board::no_rows(alloc)?),
            _ => bail!("no table: {word}"),
        })
    }

    /// What is printed of a line.
    pub fn answer(&mut self, alloc: Global, line: &str) -> Result<String> {
        if line.is_empty() || line.starts_with('#') {
            return Ok(format!(in alloc; "{line}\n")?);
        }
        match self {
            Table::Names => beside(alloc, line, crate::names::answer(alloc, line)?.as_str()),
            Table::Reader => beside(alloc, line, crate::reader::answer(alloc, line)?.as_str()),
            Table::Reach => beside(alloc, line, crate::reach::answer(alloc, line)?),
            Table::Policy(policy) => alone(crate::policy::answer(alloc, policy, line)?),
            Table::Import => alone(crate::import::answer(alloc, line)?),
            Table::Answers(file) => crate::answers::answer(alloc, file, line),
            Table::Check => crate::check::answer(alloc, line),
            Table::Board(board) => under(
                alloc,
                line,
                crate::board::answer(alloc, board, line)?.as_str(),
            ),
        }
    }
}

/// An answer that stands after its case.
fn beside(alloc: Global, line: &str, answer: &str) -> Result<String> {
    Ok(format!(in alloc; "{line}: {answer}\n")?)
}

/// An answer that stands alone.
pub fn alone(mut answer: String) -> Result<String> {
    answer.push('\n')?;
    Ok(answer)
}

/// An answer of whole lines, under its case.
fn under(alloc: Global, line: &str, answer: &str) -> Result<String> {
    Ok(format!(in alloc; "{line}\n{answer}")?)
}
