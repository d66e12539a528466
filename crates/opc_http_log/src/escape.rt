//! Bytes, shown as one line of printable ASCII.
ghost use Rattle.std.specs.Prelude.{◌≡◌, ◌++◌, IfOk, OnOk, flat_map};
ghost use Rattle.opc_http_log.specs.Escapes.{hex_digit, is_printable, marked, printable, quoted};

use std::alloc::{AllocError, Global};

fn is_printable(byte: u8) -> bool
    ensures { result ≡ is_printable byte }
{
    32 <= byte && byte <= 126
}

/// The last hexadecimal digit of a number.
fn hex_digit(n: u8) -> u8
    ensures { result ≡ hex_digit n }
{
    let last = n % 16;
    if last < 10 {
        b'0' + last
    } else {
        b'a' - 10 + last
    }
}

/// Adds a byte, escaped if it is not printable.
fn push_printable(line: &mut Vec<u8>, byte: u8) -> Result<(), AllocError>
    ensures { OnOk result (line.new.items ≡ line.old.items ++ printable byte) }
{
    if is_printable(byte) {
        line.extend_from_slice(&[byte])
    } else {
        line.extend_from_slice(&[b'\\', b'x', hex_digit(byte / 16), hex_digit(byte)])
    }
}

/// The bytes as printable ones.
pub fn printable(alloc: Global, bytes: &[u8]) -> Result<Vec<u8>, AllocError>
    ensures { IfOk result (λ line. line.items ≡ flat_map printable bytes.now) }
{
    let mut line = Vec::new(alloc);
    for byte in bytes {
        push_printable(&mut line, *byte)?;
    }
    Ok(line)
}

fn push_marked(line: &mut Vec<u8>, byte: u8) -> Result<(), AllocError>
    ensures { OnOk result (line.new.items ≡ line.old.items ++ marked byte) }
{
    if byte == b'"' || byte == b'\\' {
        line.extend_from_slice(&[b'\\', byte])
    } else {
        line.extend_from_slice(&[byte])
    }
}

fn push_all_marked(line: &mut Vec<u8>, text: &[u8]) -> Result<(), AllocError>
    ensures { OnOk result (line.new.items ≡ line.old.items ++ flat_map marked text.now) }
{
    for byte in text {
        push_marked(line, *byte)?;
    }
    Ok(())
}

/// A text in quotes.
pub(crate) fn quoted(alloc: Global, text: &[u8]) -> Result<Vec<u8>, AllocError>
    ensures { IfOk result (λ line. line.items ≡ quoted text.now) }
{
    let mut line = Vec::new(alloc);
    line.extend_from_slice(b"\"")?;
    push_all_marked(&mut line, text)?;
    line.extend_from_slice(b"\"")?;
    Ok(line)
}
