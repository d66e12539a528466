//! What patterns cover, their order and their sort keys.
use anyhow::{Context, Result};
use opc_names::name::{Pattern, Resource};
use std::alloc::Global;
use std::fmt::Write;

fn yes_or_no(alloc: Global, answer: bool) -> Result<String> {
    Ok(String::from_str(alloc, if answer { "yes" } else { "no" })?)
}

/// Whether a pattern covers a name.
pub fn covers(alloc: Global, texts: &str) -> Result<String> {
    let (pattern, name) = texts.split_once(' ').context("no name")?;
    yes_or_no(
        alloc,
        Pattern::read(pattern)?.covers(&Resource::read(name)?),
    )
}

/// How often of a thousand times a pattern covers a name.
pub fn covers_often(alloc: Global, texts: &str) -> Result<String> {
    let (pattern, name) = texts.split_once(' ').context("no name")?;
    let (pattern, name) = (Pattern::read(pattern)?, Resource::read(name)?);
    let mut covering = 0u32;
    for _ in 0..1000 {
        covering = covering.saturating_add(u32::from(pattern.covers(&name)));
    }
    Ok(format!(in alloc; "{covering} times")?)
}

/// Whether patterns are in their order.
pub fn ordered(alloc: Global, texts: &str) -> Result<String> {
    let mut patterns = Vec::new(alloc);
    for text in texts.split(' ') {
        patterns.push(Pattern::read(text)?)?;
    }
    let mut in_order = true;
    for (at, pattern) in patterns.iter().enumerate() {
        in_order &= is_at(at, pattern, &patterns);
    }
    yes_or_no(alloc, in_order)
}

/// Whether a pattern comes before those after this place, and before no other.
fn is_at(place: usize, pattern: &Pattern, patterns: &[Pattern]) -> bool {
    let mut in_order = true;
    for (at, other) in patterns.iter().enumerate() {
        in_order &= pattern.before(other) == (place < at);
    }
    in_order
}

/// The sort key in hexadecimal, two digits for each byte.
pub fn key(alloc: Global, pattern: &Pattern) -> Result<String> {
    let mut digits = String::new(alloc);
    for byte in pattern.sort_key().as_slice() {
        write!(digits, "{byte:02x}")?;
    }
    Ok(digits)
}

/// The head in quotes.
pub fn head(alloc: Global, pattern: &Pattern) -> Result<String> {
    let head = pattern.head();
    Ok(format!(in alloc; "{head:?}")?)
}
