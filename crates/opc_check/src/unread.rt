//! Why the rows of a policy file are not read at all, in words.
ghost use Rattle.std.specs.Prelude.{◌≡◌, ◌==◌, IfOk, string_bytes};
ghost use Rattle.std.specs.List.{find, list_any};
ghost use Rattle.std.specs.Option.{option_map};
ghost use Rattle.std.specs.Str.Lines.{lines};
ghost use Rattle.csv.specs.Reading.{strip_bom};
ghost use Rattle.opc_check.specs.Unread.{
  first_line,
  header_text,
  is_separator,
  is_utf16,
  not_utf8,
  separated_text,
  separator_in,
  too_long,
  wrong_header,
};

use crate::quoted::quoted_start;
use std::alloc::{AllocError, Global};

/// The most bytes of a policy file.
pub const POLICY_LIMIT: u32 = 16_777_216;

/// What is wrong with more bytes than that.
pub fn too_long() -> &'static str
    ensures { result.now ≡ too_long }
{
    "more than 16,777,216 bytes"
}

/// Bytes of UTF-16 begin with a mark of their order.
fn is_utf16(bytes: &[u8]) -> bool
    ensures { result ≡ is_utf16 bytes.now }
{
    match bytes {
        [0xFE, 0xFF, ..] | [0xFF, 0xFE, ..] => true,
        // No other beginning is such a mark.
        _ => false,
    }
}

/// What is wrong with bytes that are not UTF-8.
pub fn not_utf8(bytes: &[u8]) -> &'static str
    ensures { result.now ≡ not_utf8 bytes.now }
{
    if is_utf16(bytes) {
        "UTF-16 and not UTF-8; save it as \"CSV UTF-8\""
    } else {
        "not UTF-8"
    }
}

fn first_line(text: &str) -> Option<&str>
    ensures { option_map (λ line. line.now) result ≡ first_line text.now }
{
    text.lines().find(|line| !line.is_empty())
}

/// A line, or a text, without a byte order mark.
pub(crate) fn without_mark(line: &str) -> &str
    ensures { result.now ≡ strip_bom line.now }
{
    match line.strip_prefix('\u{feff}') {
        Some(rest) => rest,
        None => line,
    }
}

fn has_comma(row: &[u8]) -> bool
    ensures { result ≡ list_any (λ c. c == 44) row.now }
{
    row.iter().any(|c| *c == b',')
}

fn is_separator(c: u8) -> bool
    ensures { result ≡ is_separator c }
{
    c == b';' || c == b'\t' || c == b'|'
}

fn first_separator(row: &[u8]) -> Option<u8>
    ensures { result ≡ find is_separator row.now }
{
    row.iter().copied().find(|c| is_separator(*c))
}

/// What the fields of a row seem to be separated by, if not by commas.
fn separator_in(row: &[u8]) -> Option<u8>
    ensures { result ≡ separator_in row.now }
{
    if has_comma(row) {
        return None;
    }
    first_separator(row)
}

/// What helps with a row in the place of the header.
fn separated_text(separator: Option<u8>) -> &'static str
    ensures { result.now ≡ separated_text separator }
{
    match separator {
        None => "; expected kind,class,name,id,value,owner,flags,digest",
        Some(b';') => "; fields are separated by ';', expected ','",
        Some(b'\t') => "; fields are separated by '\\t', expected ','",
        // The third of the separators.
        Some(_) => "; fields are separated by '|', expected ','",
    }
}

fn wrong_header(alloc: Global, row: &str) -> Result<String, AllocError>
    ensures { IfOk result (λ text. string_bytes text ≡ wrong_header row.now) }
{
    let shown = quoted_start(alloc, row)?;
    let separated = separated_text(separator_in(row.as_bytes()));
    format!(in alloc; "the first row is not the header: {shown}{separated}")
}

/// Why a text that does not begin with the header has no rows: its first row, which stands in the place of the header,
/// or that there is none.
pub fn header_text(alloc: Global, text: &str) -> Result<String, AllocError>
    ensures { IfOk result (λ made. string_bytes made ≡ header_text text.now) }
{
    match first_line(text) {
        Some(line) => wrong_header(alloc, without_mark(line)),
        None => String::from_str(alloc, "no rows; the first has to be the header"),
    }
}
