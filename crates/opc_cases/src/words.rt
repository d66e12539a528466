//! The words of a case. An unexpected word ends the program.
use anyhow::{Context, Result};
use opc_names::class::Class;
use opc_names::level::Level;

/// The first word, and what stands after it.
pub fn first_word(text: &str) -> (&str, &str) {
    text.split_once(' ').unwrap_or((text, ""))
}

pub fn class_in(word: &str) -> Result<Class> {
    Class::read(word).context("no class")
}

pub fn level_in(word: &str) -> Result<Level> {
    Level::read(word).context("no level")
}
