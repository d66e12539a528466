//! Cases of what cannot be seen from outside, by tables. The first argument is the word of a table, and the lines of
//! input are asked of it.
//!
//! A line that begins with `#`, which states the rule, and an empty line are printed as they are. Each other line is a
//! case; the module of the table says how it is answered.
#![tactic(auto)]

mod answers;
mod board;
mod check;
mod escapes;
mod import;
mod names;
mod policy;
mod policy_file;
mod reach;
mod reader;
mod table;
mod words;

use anyhow::{Context, Result};
use std::env;

fn main(rt: HostRuntime) -> Result<()> {
    let words: Vec<String> = env::args(&rt)?.collect(rt.alloc())?;
    let word = words.get(1).context("no table")?;
    let mut table = table::Table::of(rt.alloc(), word.as_str())?;
    for line in rt.lines(rt.alloc()) {
        let line = line?;
        let answer = table.answer(rt.alloc(), line.as_str())?;
        print!(rt; "{answer}")?;
    }
    Ok(())
}
