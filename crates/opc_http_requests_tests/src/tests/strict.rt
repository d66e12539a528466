//! What a strict service accepts, and that what a web page can send is refused.
use super::reading::{asked, asked_strictly};
use opc_http_requests::fault::ReadingFault;
use opc_http_requests::refusal::{HttpRefusal, InvalidPart};
use std::alloc::{AllocError, Global};
use std::process::Abort;
use std::test::Fail;

const FORBIDDEN: ReadingFault = ReadingFault::Refused(HttpRefusal::Forbidden);

// A listing, requested with these fields.
fn listing(alloc: Global, fields: &str) -> Result<String, AllocError> {
    format!(in alloc; "GET /consoles/C1/profiles/OPERCMDS HTTP/1.1\r\n{fields}\r\n")
}

// Tests that a service accepts a listing with these fields, strict at this port or not.
fn expect_taken(
    rt: &(impl AllocGlobal + Abort),
    port: Option<u16>,
    fields: &str,
) -> Result<(), Fail> {
    let text = listing(rt.alloc(), fields)?;
    let found = match port {
        Some(port) => asked_strictly(rt.alloc(), port, text.as_bytes())?,
        None => asked(rt.alloc(), text.as_bytes())?,
    };
    match found {
        Ok(line) => assert_eq!(rt; line.as_str(), "profiles C1 OPERCMDS"),
        Err(_) => assert!(rt; false),
    }
    Ok(())
}

// Tests that a strict service at this port refuses a request like this.
fn expect_refused(
    rt: &(impl AllocGlobal + Abort),
    port: u16,
    text: &str,
    wanted: ReadingFault,
) -> Result<(), Fail> {
    match asked_strictly(rt.alloc(), port, text.as_bytes())? {
        Ok(_) => assert!(rt; false),
        Err(fault) => assert_eq!(rt; fault, wanted),
    }
    Ok(())
}

// Tests that a listing with these fields is accepted, but not by a strict service at this port.
fn expect_forbidden(rt: &(impl AllocGlobal + Abort), port: u16, fields: &str) -> Result<(), Fail> {
    let text = listing(rt.alloc(), fields)?;
    expect_refused(rt, port, text.as_str(), FORBIDDEN)?;
    expect_taken(rt, None, fields)
}

#[test]
fn what_names_this_port_is_taken(rt: HostRuntime) -> Result<(), Fail> {
    for (port, fields) in [
        (8011, "Host: 127.0.0.1:8011\r\n"),
        (8011, "Host: localhost:8011\r\n"),
        (8011, "HOST: \t LocalHost:8011 \r\nX-Origin: null\r\n"),
        (65535, "Origins: x\r\nhost: 127.0.0.1:65535\r\n"),
        (1, "Host: localhost:1\r\nReferer: http://evil.example/\r\n"),
        (80, "Host: 127.0.0.1:80\r\n"),
        (80, "Host: 127.0.0.1\r\n"),
        (80, "Host: localhost\r\n"),
    ] {
        expect_taken(&rt, Some(port), fields)?;
    }
    Ok(())
}

#[test]
fn what_a_web_page_sends_is_forbidden(rt: HostRuntime) -> Result<(), Fail> {
    for fields in [
        "Host: 127.0.0.1:8011\r\nOrigin: https://evil.example\r\n",
        "Host: 127.0.0.1:8011\r\nOrigin: http://127.0.0.1:8011\r\n",
        "origin: null\r\nHost: 127.0.0.1:8011\r\n",
        "ORIGIN:\r\nOrigin: null\r\nHost: 127.0.0.1:8011\r\n",
        "Host: localhost:8011\r\nSec-Fetch-Site: same-origin\r\n",
        "Host: localhost:8011\r\nsec-FETCH-site: none\r\n",
    ] {
        expect_forbidden(&rt, 8011, fields)?;
    }
    Ok(())
}

#[test]
fn another_host_is_forbidden(rt: HostRuntime) -> Result<(), Fail> {
    for (port, fields) in [
        (8011, ""),
        (8011, "Host:\r\n"),
        (8011, "Host: evil.example:8011\r\n"),
        (8011, "Host: 127.0.0.1\r\n"),
        (8011, "Host: 127.0.0.1:80110\r\n"),
        (8011, "Host: 127.0.0.1:08011\r\n"),
        (8011, "Host: 127.0.0.11:8011\r\n"),
        (8011, "Host: [::1]:8011\r\n"),
        (8011, "Host: localhost:8011, localhost:8011\r\n"),
        (8011, "Host: localhost:8011\r\nHost: localhost:8011\r\n"),
        (8011, "Host: localhost:8011\r\nhost: evil.example\r\n"),
        (80, "Host: 127.0.0.1:8011\r\n"),
        (80, "Host: localhost.\r\n"),
        (80, "Host: localhost:\r\n"),
    ] {
        expect_forbidden(&rt, port, fields)?;
    }
    Ok(())
}

#[test]
fn only_the_head_comes_first(rt: HostRuntime) -> Result<(), Fail> {
    for text in [
        "POST /nowhere?x HTTP/1.1\r\nOrigin: null\r\n\r\n",
        "PUT /consoles/C1/command HTTP/1.1\r\nHost: evil.example\r\n\r\n",
        "POST /consoles/C1/command HTTP/1.0\r\nContent-Length: 65537\r\n\r\n",
        "POST /consoles/C1/command HTTP/1.1\r\nTransfer-Encoding: chunked\r\nOrigin: null\r\n\r\n",
    ] {
        expect_refused(&rt, 8011, text, FORBIDDEN)?;
    }
    let headless = "GET /consoles/C1/profiles/OPERCMDS HTTP/1.1\r\nOrigin: null\r\n";
    let none = ReadingFault::Refused(HttpRefusal::BadRequest(InvalidPart::Head));
    expect_refused(&rt, 8011, headless, none)
}
