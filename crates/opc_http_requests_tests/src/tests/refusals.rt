//! What is refused, and by which refusal first.
use super::reading::{asked, get, post};
use opc_http_requests::body_key::BodyKey;
use opc_http_requests::fault::ReadingFault;
use opc_http_requests::refusal::{HttpRefusal, InvalidPart, Method};
use opc_io_failing::reader::FailingReader;
use opc_terms::fault::Why;
use std::process::Abort;
use std::test::Fail;

const COMMAND: &str = "{\"text\":\"D U\"}";

// Tests that a text is refused like this, at once and byte by byte.
fn expect(rt: &(impl AllocGlobal + Abort), text: &[u8], wanted: HttpRefusal) -> Result<(), Fail> {
    match asked(rt.alloc(), text)? {
        Ok(_) => assert!(rt; false),
        Err(fault) => assert_eq!(rt; fault, ReadingFault::Refused(wanted)),
    }
    match asked(rt.alloc(), FailingReader::by_bytes(text, usize::MAX))? {
        Ok(_) => assert!(rt; false),
        Err(fault) => assert_eq!(rt; fault, ReadingFault::Refused(wanted)),
    }
    Ok(())
}

// That this part of a text is invalid.
fn expect_invalid(
    rt: &(impl AllocGlobal + Abort),
    text: &[u8],
    part: InvalidPart,
) -> Result<(), Fail> {
    expect(rt, text, HttpRefusal::BadRequest(part))
}

#[test]
fn the_head_comes_first(rt: HostRuntime) -> Result<(), Fail> {
    for text in [
        b"".as_slice(),
        b"hello\r\n\r\n".as_slice(),
        b"GET /consoles/C1/profiles/\x7f HTTP/1.1\r\n\r\n".as_slice(),
        b"GET /consoles/C1/profiles/\xff HTTP/1.1\r\n\r\n".as_slice(),
    ] {
        expect_invalid(&rt, text, InvalidPart::Head)?;
    }
    Ok(())
}

#[test]
fn the_route_comes_before_method_and_length(rt: HostRuntime) -> Result<(), Fail> {
    for text in [
        "PUT /consoles/C1 HTTP/1.1\r\nContent-Length: x\r\n\r\n",
        "POST /consoles/C1/command?x HTTP/1.1\r\nContent-Length: 14\r\n\r\n{\"text\":\"D U\"}",
        "POST /consoles//command HTTP/1.1\r\n\r\n",
        "POST /consoles/C1/command/ HTTP/1.1\r\n\r\n",
        "POST /consoles/C1/import HTTP/1.1\r\n\r\n",
        "GET /consoles/C1/account/0 HTTP/1.1\r\n\r\n",
        "POST http://here/consoles/C1/command HTTP/1.1\r\n\r\n",
        "POST /consoles/\u{e9}/command HTTP/1.1\r\n\r\n",
    ] {
        expect(&rt, text.as_bytes(), HttpRefusal::NotFound)?;
    }
    Ok(())
}

#[test]
fn the_method_comes_before_the_length(rt: HostRuntime) -> Result<(), Fail> {
    for (text, method) in [
        (
            "GET /consoles/C1/command HTTP/1.1\r\nContent-Length: x\r\n\r\n",
            Method::Post,
        ),
        ("post /consoles/C1/admin HTTP/1.1\r\n\r\n", Method::Post),
        ("PUT /consoles/C1/import/0 HTTP/1.1\r\n\r\n", Method::Post),
        (
            "POST /consoles/9/profiles/NONE HTTP/1.1\r\nContent-Length: 65537\r\n\r\n",
            Method::Get,
        ),
        (
            "HEAD /consoles/C1/account/0/1 HTTP/1.1\r\n\r\n",
            Method::Get,
        ),
    ] {
        expect(&rt, text.as_bytes(), HttpRefusal::MethodNotAllowed(method))?;
    }
    Ok(())
}

#[test]
fn the_length_comes_before_the_body(rt: HostRuntime) -> Result<(), Fail> {
    let coded = "POST /consoles/C1/command HTTP/1.1\r\nTransfer-Encoding: chunked\r\n\r\n";
    expect_invalid(&rt, coded.as_bytes(), InvalidPart::Coding)?;
    for text in [
        "POST /consoles/C1/command HTTP/1.1\r\nContent-Length: 14\r\nContent-Length: 14\r\n\r\n{\"text\":\"D U\"}",
        "POST /consoles/C1/command HTTP/1.1\r\nContent-Length: +14\r\n\r\n{\"text\":\"D U\"}",
        "POST /consoles/C1/command HTTP/1.1\r\nContent-Length: 0000000014\r\n\r\n{\"text\":\"D U\"}",
        "GET /consoles/C1/profiles/CONSOLE HTTP/1.1\r\nContent-Length: 5,5\r\n\r\nhello",
    ] {
        expect_invalid(&rt, text.as_bytes(), InvalidPart::Length)?;
    }
    let text = "POST /consoles/C1/command HTTP/1.1\r\nContent-Length: 65537\r\n\r\n";
    expect(&rt, text.as_bytes(), HttpRefusal::TooLarge)
}

#[test]
fn values_of_the_path_are_read(rt: HostRuntime) -> Result<(), Fail> {
    for (path, part) in [
        ("/consoles/C/command", InvalidPart::Console),
        ("/consoles/9A/command", InvalidPart::Console),
        ("/consoles/%411/command", InvalidPart::Console),
        ("/consoles/A%2523/command", InvalidPart::Console),
        ("/consoles/a1/command", InvalidPart::Console),
        ("/consoles/C1/import/0", InvalidPart::Batch),
        ("/consoles/C1/import/1000000000", InvalidPart::Batch),
        ("/consoles/C1/import/+7", InvalidPart::Batch),
        ("/consoles/C1/import/%237", InvalidPart::Batch),
    ] {
        let text = post(rt.alloc(), path, COMMAND)?;
        expect_invalid(&rt, text.as_bytes(), part)?;
    }
    for (path, part) in [
        ("/consoles/C1/profiles/opercmds", InvalidPart::Class),
        (
            "/consoles/C1/account/1000000000000000000/1",
            InvalidPart::First,
        ),
        ("/consoles/C1/account/-1/1", InvalidPart::First),
        ("/consoles/C1/account/0/0", InvalidPart::Count),
        ("/consoles/C1/account/0/1001", InvalidPart::Count),
        ("/consoles/C1/account/0/00001", InvalidPart::Count),
    ] {
        let text = get(rt.alloc(), path)?;
        expect_invalid(&rt, text.as_bytes(), part)?;
    }
    Ok(())
}

#[test]
fn the_body_comes_last(rt: HostRuntime) -> Result<(), Fail> {
    let no_text = post(rt.alloc(), "/consoles/C1/command", "{\"line\":\"D U\"}")?;
    expect_invalid(
        &rt,
        no_text.as_bytes(),
        InvalidPart::MissingKey(BodyKey::Text),
    )?;
    let no_header = post(rt.alloc(), "/consoles/C1/import/7", "group,,DAY,,,,,,,\n")?;
    let header = HttpRefusal::BadRow {
        row: 0,
        why: Why::Header,
    };
    expect(&rt, no_header.as_bytes(), header)?;
    let no_batch = post(rt.alloc(), "/consoles/C1/import/0", "group,,DAY,,,,,,,\n")?;
    expect_invalid(&rt, no_batch.as_bytes(), InvalidPart::Batch)
}
