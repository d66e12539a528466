//! Cases of policy files. Each case is a subject and a text, and what is printed is what the text is read as.
use crate::escapes::{escaped, unescaped};
use crate::policy_file::{HEADER, reported};
use crate::words::first_word;
use anyhow::{Context, Result, bail};
use opc_import::read::read_policy;
use opc_import::write::write_policy;
use opc_terms::fault::Fault;
use std::alloc::{AllocError, Global};

const ROW: &str = "group,,DAY,,,,,,,\n";

/// The answer to a case. An unknown subject ends the program.
pub fn answer(alloc: Global, case: &str) -> Result<String> {
    let (subject, rest) = first_word(case);
    let text = unescaped(alloc, rest)?;
    match subject {
        "file" => file(alloc, &text),
        "record" => record(alloc, &text),
        "after" => after(alloc, &text),
        "each" => each(alloc, &text),
        _ => bail!("no subject"),
    }
}

/// A file, as its rows are written, in one line.
fn file(alloc: Global, text: &str) -> Result<String> {
    match read_policy(alloc, text) {
        Ok(rows) => {
            let written = write_policy(alloc, rows.as_slice())?;
            Ok(escaped(alloc, written.as_str())?)
        }
        Err(fault) => reported(alloc, &Fault::from(fault)),
    }
}

/// A record after the header, as its row is written.
fn record(alloc: Global, text: &str) -> Result<String> {
    let file = file_of(alloc, 0, text)?;
    match read_policy(alloc, file.as_str()) {
        Ok(rows) => {
            let written = write_policy(alloc, rows.as_slice())?;
            let line = written.lines().nth(1).context("no row")?;
            Ok(String::from_str(alloc, line)?)
        }
        Err(fault) => reported(alloc, &Fault::from(fault)),
    }
}

/// How many rows a file has: a number of rows, and a text after them.
fn after(alloc: Global, text: &str) -> Result<String> {
    let (count, last) = text.split_once(' ').context("no number")?;
    let file = file_of(alloc, count.parse()?, last)?;
    match read_policy(alloc, file.as_str()) {
        Ok(rows) => Ok(format!(in alloc; "{}", rows.len())?),
        Err(fault) => reported(alloc, &Fault::from(fault)),
    }
}

/// The header, this many rows, and a text.
fn file_of(alloc: Global, count: u32, last: &str) -> Result<String, AllocError> {
    let mut file = String::from_str(alloc, HEADER)?;
    for _ in 0..count {
        file.push_str(ROW)?;
    }
    file.push_str(last)?;
    Ok(file)
}

/// A file with each of its records in turn made wrong, one line each: its kind is `x`, or its last field is missing.
fn each(alloc: Global, text: &str) -> Result<String> {
    let (part, good) = text.split_once(' ').context("no part")?;
    let mut answers = String::new(alloc);
    for number in 1..good.lines().count() {
        if number > 1 {
            answers.push('\n')?;
        }
        let wrong = with_wrong_record(alloc, good, number, part)?;
        answers.push_str(file(alloc, wrong.as_str())?.as_str())?;
    }
    Ok(answers)
}

/// The file with the record of this number made wrong.
fn with_wrong_record(alloc: Global, good: &str, number: usize, part: &str) -> Result<String> {
    let mut wrong = String::new(alloc);
    for (at, line) in good.lines().enumerate() {
        if at != number {
            wrong.push_str(line)?;
        } else if part == "kind" {
            let (_, fields) = line.split_once(',').context("no fields")?;
            wrong.push_str("x,")?;
            wrong.push_str(fields)?;
        } else {
            let (fields, _) = line.rsplit_once(',').context("no fields")?;
            wrong.push_str(fields)?;
        }
        wrong.push('\n')?;
    }
    Ok(wrong)
}
