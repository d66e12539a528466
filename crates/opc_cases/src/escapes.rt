//! Texts of several lines, in one line.
use anyhow::{Result, bail};
use std::alloc::{AllocError, Global};

/// The text in which `\n` stands for a line feed, `\r` for a return, and `\m` for a byte order mark.
pub fn unescaped(alloc: Global, text: &str) -> Result<String> {
    let mut parts = text.split('\\');
    let mut whole = String::from_str(alloc, parts.next().unwrap_or(""))?;
    for part in parts {
        let (sign, rest) = sign_of(part)?;
        whole.push_str(sign)?;
        whole.push_str(rest)?;
    }
    Ok(whole)
}

/// The sign of an escape, and what stands after it.
fn sign_of(part: &str) -> Result<(&str, &str)> {
    if let Some(rest) = part.strip_prefix('n') {
        Ok(("\n", rest))
    } else if let Some(rest) = part.strip_prefix('r') {
        Ok(("\r", rest))
    } else if let Some(rest) = part.strip_prefix('m') {
        Ok(("\u{feff}", rest))
    } else {
        bail!("no escape")
    }
}

/// A text whose lines end in line feeds, with `\n` for each.
pub fn escaped(alloc: Global, text: &str) -> Result<String, AllocError> {
    let mut line = String::new(alloc);
    for part in text.lines() {
        line.push_str(part)?;
        line.push_str("\\n")?;
    }
    Ok(line)
}
