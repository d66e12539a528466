//! Command lines as the cases spell them.
use anyhow::{Context, Result};
use std::alloc::Global;

/// The line, with each text between guillemets as it is meant.
pub fn line(alloc: Global, spelled: &str) -> Result<String> {
    let mut line = String::new(alloc);
    let mut pieces = spelled.split('«');
    line.push_str(pieces.next().unwrap_or(""))?;
    for piece in pieces {
        let (meant, after) = piece.split_once('»').context("no end")?;
        let (times, text) = meant.split_once('*').unwrap_or(("1", meant));
        push(&mut line, times.parse()?, text)?;
        line.push_str(after)?;
    }
    Ok(line)
}

fn push(line: &mut String, times: u32, text: &str) -> Result<()> {
    for _ in 0..times {
        match text.strip_prefix("U+") {
            Some(digits) => line.push(character(digits)?)?,
            None => line.push_str(text)?,
        }
    }
    Ok(())
}

fn character(digits: &str) -> Result<char> {
    let code = u32::from_str_radix(digits, 16)?;
    char::from_u32(code).context("no character")
}
