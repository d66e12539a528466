//! All patterns and names over an alphabet, up to a length, compared with the plain programs. Each function counts what
//! it compared; its error is the first pair on which the plain program differs.
use super::plain;
use anyhow::{Context, Result, anyhow};
use opc_names::name::{Pattern, Resource};
use std::alloc::Global;

/// Which pattern covers which name: an alphabet and a length for patterns, `over`, and the same for names.
pub fn covers(alloc: Global, extent: &str) -> Result<String> {
    let (patterns, names) = extent.split_once(" over ").context("no names")?;
    let mut patterns = all_texts(alloc, patterns)?;
    let mut names = all_texts(alloc, names)?;
    patterns.retain(|text| Pattern::read(text).is_ok());
    names.retain(|text| Resource::read(text).is_ok());
    let mut covering = 0usize;
    for pattern in &patterns {
        covering = covering.saturating_add(covered(alloc, pattern, &names)?);
    }
    let (patterns, names) = (patterns.len(), names.len());
    Ok(format!(in alloc; "{patterns} patterns, {names} names, {covering} pairs cover")?)
}

/// How many of these names a pattern covers.
fn covered(alloc: Global, text: &str, names: &[String]) -> Result<usize> {
    let pattern = Pattern::read(text)?;
    let qualifiers: Vec<&str> = text.split('.').collect(alloc)?;
    let mut covering = 0usize;
    for name in names {
        let parts: Vec<&str> = name.split('.').collect(alloc)?;
        let wanted = plain::covers(&qualifiers, &parts);
        if pattern.covers(&Resource::read(name)?) != wanted {
            return Err(anyhow!("{pattern} over {name}"));
        }
        covering = covering.saturating_add(usize::from(wanted));
    }
    Ok(covering)
}

/// Which pattern, and which sort key, is before which: an alphabet and a length.
pub fn before(alloc: Global, extent: &str) -> Result<String> {
    let mut patterns = all_texts(alloc, extent)?;
    patterns.retain(|text| Pattern::read(text).is_ok());
    let mut pairs = 0usize;
    for pattern in &patterns {
        pairs = pairs.saturating_add(count_later(alloc, pattern, &patterns)?);
    }
    let patterns = patterns.len();
    Ok(format!(in alloc; "{patterns} patterns, {pairs} pairs in order")?)
}

/// How many patterns a pattern is before.
fn count_later(alloc: Global, text: &str, others: &[String]) -> Result<usize> {
    let pattern = Pattern::read(text)?;
    let key = pattern.sort_key();
    let ranks = plain::ranks(alloc, text)?;
    let mut pairs = 0usize;
    for text in others {
        let other = Pattern::read(text)?;
        let wanted = plain::before(&ranks, &plain::ranks(alloc, text)?);
        if pattern.before(&other) != wanted || (key < other.sort_key()) != wanted {
            return Err(anyhow!("{pattern} before {other}"));
        }
        pairs = pairs.saturating_add(usize::from(wanted));
    }
    Ok(pairs)
}

/// All texts over an alphabet with at most this many characters.
fn all_texts(alloc: Global, extent: &str) -> Result<Vec<String>> {
    let (alphabet, most) = extent.split_once(' ').context("no length")?;
    let mut texts = Vec::new(alloc);
    texts.push(String::new(alloc))?;
    let mut shorter = 0;
    for _ in 0..most.parse::<usize>()? {
        let longest = texts.len();
        for at in shorter..longest {
            push_longer(&mut texts, at, alphabet)?;
        }
        shorter = longest;
    }
    Ok(texts)
}

/// Adds a text with each character of the alphabet after it.
fn push_longer(texts: &mut Vec<String>, at: usize, alphabet: &str) -> Result<()> {
    for character in alphabet.chars() {
        let mut text = texts.get(at).context("no text")?.clone()?;
        text.push(character)?;
        texts.push(text)?;
    }
    Ok(())
}
