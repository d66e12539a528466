//! Quoted text, and what a text means.
ghost use Rattle.std.specs.Prelude.{◌≡◌, ◌≤◌, ◌++◌, length, IfSome, IfOk, OnOk, string_bytes};
ghost use Rattle.std.specs.Str.{IsAscii};
ghost use Rattle.opc_reader_commands.specs.Stretches.{folded};
ghost use Rattle.opc_reader_commands.specs.Quotes.{
  closing_len,
  quoted_len,
  is_quoted,
  is_open,
  opens_quote,
  unquoted,
  text_value,
  Says,
};

use crate::command::Text;
use std::alloc::{AllocError, Global};

const APOSTROPHE: u8 = b'\'';

/// After an apostrophe: how many bytes the quoted text still has, the apostrophe that closes it included.
fn closing_len(bytes: &[u8]) -> Option<usize>
    ensures value { result ≡ closing_len bytes.now }
    ensures within { IfSome result (λ n. n ≤ length bytes.now) }
{
    match bytes {
        [] => None,
        [APOSTROPHE, APOSTROPHE, rest @ ..] => Some(closing_len(rest)? + 2),
        [APOSTROPHE, ..] => Some(1),
        [_, rest @ ..] => Some(closing_len(rest)? + 1),
    }
}

/// How many bytes the quoted text has that a text begins with.
pub fn quoted_len(text: &[u8]) -> Option<usize>
    ensures value { result ≡ quoted_len text.now }
    ensures within { IfSome result (λ n. n ≤ length text.now) }
{
    match text {
        [APOSTROPHE, rest @ ..] => Some(closing_len(rest)? + 1),
        // Quoted text begins with an apostrophe.
        _ => None,
    }
}

/// Whether a whole text is quoted text.
pub fn is_quoted(text: &[u8]) -> bool
    ensures { result ≡ is_quoted text.now }
{
    match text {
        [APOSTROPHE, rest @ ..] => closing_len(rest) == Some(rest.len()),
        // Quoted text begins with an apostrophe.
        _ => false,
    }
}

/// Whether it begins as quoted text and is not closed.
pub fn is_open(text: &[u8]) -> bool
    ensures { result ≡ is_open text.now }
{
    match text {
        [APOSTROPHE, rest @ ..] => closing_len(rest).is_none(),
        // Quoted text begins with an apostrophe.
        _ => false,
    }
}

pub fn opens_quote(text: &[u8]) -> bool
    ensures { result ≡ opens_quote text.now }
{
    matches!(text, [APOSTROPHE, ..])
}

/// Adds what stands between apostrophes, with each pair as one.
fn push_unquoted(bytes: &[u8], value: &mut String) -> Result<(), AllocError>
    requires { IsAscii bytes.now }
    ensures { OnOk result (string_bytes value.new ≡ string_bytes value.old ++ unquoted bytes.now) }
{
    let [c, rest @ ..] = bytes else {
        return Ok(());
    };
    if *c != APOSTROPHE {
        value.push(char::from(*c))?;
        return push_unquoted(rest, value);
    }
    match rest {
        [APOSTROPHE, rest @ ..] => {
            value.push('\'')?;
            push_unquoted(rest, value)
        }
        // The apostrophe before this closes the text.
        _ => Ok(()),
    }
}

fn push_folded(bytes: &[u8], value: &mut String) -> Result<(), AllocError>
    requires { IsAscii bytes.now }
    ensures { OnOk result (string_bytes value.new ≡ string_bytes value.old ++ folded bytes.now) }
{
    match bytes {
        [] => Ok(()),
        [c, rest @ ..] => {
            value.push(char::from(c.to_ascii_uppercase()))?;
            push_folded(rest, value)
        }
    }
}

fn value_of(bytes: &[u8], alloc: Global) -> Result<String, AllocError>
    requires { IsAscii bytes.now }
    ensures { IfOk result (λ value. string_bytes value ≡ text_value bytes.now) }
{
    let mut value = String::new(alloc);
    match bytes {
        [APOSTROPHE, rest @ ..] => push_unquoted(rest, &mut value)?,
        // A plain text is folded, as all of the line but quoted text is.
        _ => push_folded(bytes, &mut value)?,
    }
    Ok(value)
}

impl Text<'_> {
    /// What the text means, which depends on the slice alone, since an operand keeps its slice as typed: for quoted
    /// text, what is between its apostrophes, with each pair as one and in the case in which it was typed; for plain
    /// text, all of it, in upper case.
    pub fn value(&self, alloc: Global) -> Result<String, AllocError>
        ensures says { IfOk result (λ value. Says self.now.typed.text (string_bytes value)) }
        ensures computed { IfOk result (λ value. string_bytes value ≡ text_value self.now.typed.text) }
    {
        value_of(self.typed.text().as_bytes(), alloc)
    }
}
