//! Lines of words.
use anyhow::{Result, bail};
use opc_terms::store_fault::StoreFault;
use std::alloc::Global;

/// A fault of the tables, as a line; a failed allocation ends the program.
pub fn fault_line(alloc: Global, fault: StoreFault) -> Result<String> {
    match fault {
        StoreFault::NoMemory => bail!("out of memory"),
        fault => Ok(format!(in alloc; "{fault}\n")?),
    }
}

/// The line of an answer, which is yes or no.
pub fn answer_line(alloc: Global, answer: bool) -> Result<String> {
    Ok(String::from_str(alloc, if answer { "yes\n" } else { "no\n" })?)
}

/// The line of what is not there.
pub fn nothing(alloc: Global) -> Result<String> {
    Ok(String::from_str(alloc, "nothing\n")?)
}

/// Adds a word to a line, after a space if it is not the first.
pub fn add_word(line: &mut String, word: &str) -> Result<()> {
    if !line.is_empty() {
        line.push(' ')?;
    }
    line.push_str(word)?;
    Ok(())
}

/// The whole text; an empty one is reported as such.
pub fn ended(alloc: Global, mut text: String) -> Result<String> {
    if text.is_empty() {
        return nothing(alloc);
    }
    if !text.as_str().ends_with('\n') {
        text.push('\n')?;
    }
    Ok(text)
}
