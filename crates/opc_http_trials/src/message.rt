//! Requests, as a case writes them.
use anyhow::{Context, Result, bail};
use std::alloc::Global;

/// The bytes of a request.
pub(crate) fn bytes_of(alloc: Global, request: &str) -> Result<Vec<u8>> {
    let (form, rest) = request.split_once(' ').context("no request")?;
    match form {
        "BYTES" => unescaped(alloc, rest),
        "GET" => Ok(format!(in alloc; "GET {rest} HTTP/1.1\r\n\r\n")?.into_bytes()),
        "POST" => {
            let (path, body) = rest.split_once(' ').unwrap_or((rest, ""));
            posted(alloc, path, unescaped(alloc, body)?.as_slice())
        }
        _ => bail!("no request: {form}"),
    }
}

fn posted(alloc: Global, path: &str, body: &[u8]) -> Result<Vec<u8>> {
    let length = body.len();
    let head = format!(in alloc; "POST {path} HTTP/1.1\r\nContent-Length: {length}\r\n\r\n")?;
    let mut bytes = head.into_bytes();
    bytes.extend_from_slice(body)?;
    Ok(bytes)
}

fn unescaped(alloc: Global, text: &str) -> Result<Vec<u8>> {
    let mut pieces = text.split('\\');
    let mut bytes = Vec::new(alloc);
    if let Some(plain) = pieces.next() {
        bytes.extend_from_slice(plain.as_bytes())?;
    }
    for piece in pieces {
        let (byte, rest) = escape(piece)?;
        bytes.push(byte)?;
        bytes.extend_from_slice(rest.as_bytes())?;
    }
    Ok(bytes)
}

/// The byte for which the text after a backslash stands, and the rest.
fn escape(piece: &str) -> Result<(u8, &str)> {
    for (letter, byte) in [('r', b'\r'), ('n', b'\n'), ('t', b'\t')] {
        if let Some(rest) = piece.strip_prefix(letter) {
            return Ok((byte, rest));
        }
    }
    let coded = piece.strip_prefix('x').context("no escape")?;
    let (digits, rest) = coded.split_at_checked(2).context("no two digits")?;
    Ok((u8::from_str_radix(digits, 16)?, rest))
}
