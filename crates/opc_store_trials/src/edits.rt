//! Edits, as words, and changes of them.
use crate::board_edits::{put_on_board, removed_from_board};
use crate::loads::loaded;
use crate::policy_edits::{listed, put, removed};
use crate::records::{row_in, rows_in};
use crate::words::fault_line;
use anyhow::{Context, Result, bail};
use opc_board::text::KeptText;
use opc_state::account::AccountRow;
use opc_state::change::{Change, Edit};
use opc_state::tables::Tables;
use std::alloc::Global;

/// The edit of a verb, a kind of row, and the words of the row.
pub fn edit_in(alloc: Global, verb: &str, words: &str) -> Result<Edit> {
    let (kind, words) = words.split_once(' ').context("no edit")?;
    match (verb, kind) {
        ("put", "row") => Ok(put(alloc, row_in(alloc, words)?)),
        ("put", "listed") => listed(alloc, words),
        ("put", _) => put_on_board(alloc, kind, words),
        ("remove", "row") => removed(row_in(alloc, words)?),
        ("remove", _) => removed_from_board(kind, words),
        _ => bail!("no line: {verb}"),
    }
}

/// Adds an edit for each number of a range.
pub fn many(alloc: Global, edits: &mut Vec<Edit>, words: &str) -> Result<()> {
    let (from, rest) = words.split_once(' ').context("no range")?;
    let (to, rest) = rest.split_once(' ').context("no range")?;
    let (verb, words) = rest.split_once(' ').context("no edit")?;
    for number in from.parse::<u32>()?..to.parse::<u32>()? {
        let number = format!(in alloc; "{number}")?;
        let words = words.replace(alloc, "#", number.as_str())?;
        edits.push(edit_in(alloc, verb, words.as_str())?)?;
    }
    Ok(())
}

/// A row of the account.
pub fn refusal(alloc: Global, code: &str) -> Result<AccountRow> {
    Ok(AccountRow {
        moment: 1_700_000_000_000,
        console: KeptText::new(alloc, "C1")?,
        user: KeptText::new(alloc, "-")?,
        code: KeptText::new(alloc, code)?,
        rule: KeptText::new(alloc, "LOGONREQUIRED")?,
    })
}

/// Puts the rows of a policy file into the tables, with a row of the account.
pub fn fill<T: Tables>(alloc: Global, tables: &mut T, file: &str) -> Result<()> {
    let mut edits = Vec::new(alloc);
    for row in rows_in(alloc, file)?.as_slice() {
        edits.push(put(alloc, *row))?;
    }
    let account = Some(refusal(alloc, "E12")?);
    tables.commit(alloc, &Change { edits, account })?;
    Ok(())
}

/// The fault that a commit of edits returns, if it returns one.
pub fn committed<T: Tables>(
    alloc: Global,
    tables: &mut T,
    edits: Vec<Edit>,
    code: &str,
) -> Result<String> {
    let account = match code {
        "" => None,
        code => Some(refusal(alloc, code)?),
    };
    match tables.commit(alloc, &Change { edits, account }) {
        Ok(()) => Ok(String::new(alloc)),
        Err(fault) => fault_line(alloc, fault),
    }
}

fn commit_one<T: Tables>(alloc: Global, tables: &mut T, edit: Edit) -> Result<()> {
    let mut edits = Vec::new(alloc);
    edits.push(edit)?;
    let account = None;
    tables.commit(alloc, &Change { edits, account })?;
    Ok(())
}

/// What the tables load after each edit, which is a change of its own.
pub fn after_each<T: Tables>(
    alloc: Global,
    tables: &mut T,
    edits: Vec<Edit>,
    words: &str,
) -> Result<String> {
    let mut lines = String::new(alloc);
    for edit in edits {
        commit_one(alloc, tables, edit)?;
        lines.push_str(loaded(alloc, tables, words)?.as_str())?;
    }
    Ok(lines)
}
