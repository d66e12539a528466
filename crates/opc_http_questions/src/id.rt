//! The id of a request, which its response repeats.
ghost use Rattle.std.specs.Prelude.{◌≡◌, All, IfErr, IfOk, length, map};
ghost use Rattle.std.specs.List.{list_all};
ghost use Rattle.httparse.specs.Spans.{IsHeaderWithin, IsRequestWithin, header_bytes};
ghost use Rattle.opc_http_questions.specs.RequestIds.{id_by, id_in, is_request_id, is_visible, request_id};

use httparse::spans::{HeaderSpan, RequestSpans};
use opc_board::text::KeptText;
use opc_http_requests::framing::only_value;
use opc_io::source::SourceFault;
use std::alloc::{AllocError, Global};
use std::str;

/// The most characters of an id.
const LONGEST_ID: usize = 128;

fn are_visible(value: &[u8]) -> bool
    ensures { result ≡ list_all is_visible value.now }
{
    value.iter().all(|b| 0x21 <= *b && *b <= 0x7e)
}

/// Whether a value is an id that a response repeats.
fn is_request_id(value: &[u8]) -> bool
    ensures { result ≡ is_request_id value.now }
{
    !value.is_empty() && value.len() <= LONGEST_ID && are_visible(value)
}

/// The id that a value is, if it is one.
fn id_by(alloc: Global, value: &[u8]) -> Result<Option<KeptText>, AllocError>
    ensures { IfOk result (λ id. id ≡ id_by value.now) }
{
    if !is_request_id(value) {
        return Ok(None);
    }
    match str::from_utf8(value) {
        Ok(text) => Ok(Some(KeptText::new(alloc, text)?)),
        Err(_) => Ok(None),
    }
}

/// The id of a request with these fields, if it has one that its response repeats.
fn request_id(
    alloc: Global,
    buf: &[u8],
    headers: &[HeaderSpan],
) -> Result<Option<KeptText>, AllocError>
    requires { All (IsHeaderWithin (length buf.now)) headers.now }
    ensures { IfOk result (λ id. id ≡ request_id (map (header_bytes buf.now) headers.now)) }
{
    match only_value(buf, headers, b"x-request-id") {
        Ok(Some(value)) => id_by(alloc, value.of(buf)),
        // There is no such field, or more than one.
        _ => Ok(None),
    }
}

/// The same for the head that `buf` begins with, if the spans find its parts.
pub(crate) fn id_in(
    alloc: Global,
    buf: &[u8],
    headers: &[HeaderSpan],
    spans: &RequestSpans,
) -> Result<Option<KeptText>, SourceFault>
    requires { IsRequestWithin buf.now headers.now spans.now }
    ensures id { IfOk result (λ id. id ≡ id_in buf.now headers.now spans.now) }
    ensures fault { IfErr result (λ fault. fault ≡ SourceFault.NoMemory) }
{
    match request_id(alloc, buf, &headers[..spans.headers]) {
        Ok(id) => Ok(id),
        Err(_) => Err(SourceFault::NoMemory),
    }
}
