//! How long the body of a request is.
ghost use Rattle.std.specs.Prelude.{◌≡◌, All, IfErr, IfOk, IfSome, Err, Ok, length, map};
ghost use Rattle.std.specs.Option.{option_map};
ghost use Rattle.httparse.specs.Spans.{IsHeaderWithin, IsWithin, header_bytes, span_bytes};
ghost use Rattle.opc_http_requests.specs.Framing.{body_length, is_alike, length_by, number_in, only, values_of};

use crate::number::number_in;
use crate::refusal::{HttpRefusal, InvalidPart};
use httparse::spans::{HeaderSpan, Span};
use std::str;

/// The most bytes of a body.
pub const BODY_LIMIT: u64 = 65536;

/// The most digits of a length.
const LENGTH_DIGITS: usize = 9;

// Upper and lower case are alike.
pub(crate) fn is_named(found: &[u8], name: &[u8]) -> bool
    ensures { result ≡ is_alike found.now name.now }
{
    found.eq_ignore_ascii_case(name)
}

/// The value of the only field of a name, if there is one. Several are refused like several lengths.
pub fn only_value(
    buf: &[u8],
    headers: &[HeaderSpan],
    name: &[u8],
) -> Result<Option<Span>, HttpRefusal>
    requires { All (IsHeaderWithin (length buf.now)) headers.now }
    ensures ok { IfOk result (λ value. only (values_of name.now (map (header_bytes buf.now) headers.now)) ≡ Ok
        (option_map (span_bytes buf.now) value)) }
    ensures err { IfErr result (λ e. only (values_of name.now (map (header_bytes buf.now) headers.now)) ≡ Err e) }
    ensures within { IfOk result (λ value. IfSome value (IsWithin (length buf.now))) }
{
    let mut found = None;
    for header in headers {
        if is_named(header.name.of(buf), name) {
            if found.is_some() {
                return Err(HttpRefusal::BadRequest(InvalidPart::Length));
            }
            found = Some(header.value);
        }
    }
    Ok(found)
}

// The number that some bytes are.
fn number_of(value: &[u8]) -> Option<u64>
    ensures { result ≡ number_in 9 value.now }
{
    match str::from_utf8(value) {
        Ok(text) => number_in(text, LENGTH_DIGITS),
        Err(_) => None,
    }
}

fn length_by(value: &[u8]) -> Result<u64, HttpRefusal>
    ensures { result ≡ length_by (number_in 9 value.now) }
{
    match number_of(value) {
        None => Err(HttpRefusal::BadRequest(InvalidPart::Length)),
        Some(n) if n <= BODY_LIMIT => Ok(n),
        Some(_) => Err(HttpRefusal::TooLarge),
    }
}

/// How many bytes the body has.
pub fn body_length(buf: &[u8], headers: &[HeaderSpan]) -> Result<u64, HttpRefusal>
    requires { All (IsHeaderWithin (length buf.now)) headers.now }
    ensures { result ≡ body_length (map (header_bytes buf.now) headers.now) }
{
    match only_value(buf, headers, b"transfer-encoding") {
        Ok(None) => {}
        // One transfer coding, or two: chunked bodies are refused.
        _ => return Err(HttpRefusal::BadRequest(InvalidPart::Coding)),
    }
    match only_value(buf, headers, b"content-length") {
        Ok(None) => Ok(0),
        Ok(Some(value)) => length_by(value.of(buf)),
        Err(refusal) => Err(refusal),
    }
}
