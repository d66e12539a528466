//! From where requests are accepted: from anywhere, or from nothing that a web page can send.
ghost use Rattle.std.specs.Prelude.{◌≡◌, ◌≤◌, All, length, map};
ghost use Rattle.httparse.specs.Spans.{IsHeaderWithin, header_bytes};
ghost use Rattle.opc_http_requests.specs.Origins.{admitted, has_field, host_at, is_from_page};
ghost use Rattle.opc_http_requests.specs.Origins.{is_host, is_served, names_host};

use crate::framing::{is_named, only_value};
use crate::refusal::HttpRefusal;
use arrayvec::ArrayString;
use httparse::spans::HeaderSpan;
use itoa::Buffer;

/// More bytes than the text of a host and its port has.
const HOST_TEXT: usize = 16;

/// From where requests are accepted.
#[derive(Clone, Copy, Debug, PartialEq, Eq)]
pub enum Origins {
    /// From anywhere.
    Any,
    /// Only what is sent to this port of 127.0.0.1 or localhost, by no web page.
    Only(u16),
}

/// A host of this computer at a port.
fn host_at(name: &str, port: u16) -> ArrayString<HOST_TEXT>
    requires { length name.now ≤ 9 }
    ensures { result.bytes ≡ host_at name.now port }
{
    let mut digits = Buffer::new();
    let mut text = ArrayString::<HOST_TEXT>::new();
    text.push_str(name);
    text.push_str(":");
    text.push_str(digits.format(port));
    text
}

/// Whether a field Host names this host at a port. HTTP leaves port 80 out.
fn is_host(value: &[u8], name: &str, port: u16) -> bool
    requires { length name.now ≤ 9 }
    ensures { result ≡ is_host port name.now value.now }
{
    let text = host_at(name, port);
    is_named(value, text.as_str().as_bytes()) || (port == 80 && is_named(value, name.as_bytes()))
}

/// Whether a field Host names what is served at a port.
fn is_served(value: &[u8], port: u16) -> bool
    ensures { result ≡ is_served port value.now }
{
    is_host(value, "127.0.0.1", port) || is_host(value, "localhost", port)
}

/// Whether there is a field of this name, one or more.
fn has_field(buf: &[u8], headers: &[HeaderSpan], name: &[u8]) -> bool
    requires { All (IsHeaderWithin (length buf.now)) headers.now }
    ensures { result ≡ has_field name.now (map (header_bytes buf.now) headers.now) }
{
    match only_value(buf, headers, name) {
        Ok(None) => false,
        // Two fields of this name count like one.
        _ => true,
    }
}

/// Whether a web page sent this, as its browser states.
fn is_from_page(buf: &[u8], headers: &[HeaderSpan]) -> bool
    requires { All (IsHeaderWithin (length buf.now)) headers.now }
    ensures { result ≡ is_from_page (map (header_bytes buf.now) headers.now) }
{
    has_field(buf, headers, b"origin") || has_field(buf, headers, b"sec-fetch-site")
}

/// Whether the only field Host names what is served at a port.
fn names_host(buf: &[u8], headers: &[HeaderSpan], port: u16) -> bool
    requires { All (IsHeaderWithin (length buf.now)) headers.now }
    ensures { result ≡ names_host port (map (header_bytes buf.now) headers.now) }
{
    match only_value(buf, headers, b"host") {
        Ok(Some(value)) => is_served(value.of(buf), port),
        // There is no field Host, or more than one.
        _ => false,
    }
}

/// Checks that a request with these fields is accepted.
pub fn admitted(origins: Origins, buf: &[u8], headers: &[HeaderSpan]) -> Result<(), HttpRefusal>
    requires { All (IsHeaderWithin (length buf.now)) headers.now }
    ensures { result ≡ admitted origins (map (header_bytes buf.now) headers.now) }
{
    match origins {
        Origins::Only(port) if is_from_page(buf, headers) || !names_host(buf, headers, port) => {
            Err(HttpRefusal::Forbidden)
        }
        // Either requests are accepted from anywhere, or this one is for this computer and no web page sent it.
        _ => Ok(()),
    }
}
