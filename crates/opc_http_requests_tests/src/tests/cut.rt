//! Requests that are cut off, readers that fail, and lengths at their limits.
use super::reading::asked;
use opc_http_requests::ask::read_request;
use opc_http_requests::fault::ReadingFault;
use opc_http_requests::refusal::{HttpRefusal, InvalidPart};
use opc_http_requests::routes::Routes;
use opc_io::watched::Watched;
use opc_io_failing::reader::FailingReader;
use std::alloc::{AllocError, Global};
use std::process::Abort;
use std::test::Fail;

const COMMAND: &[u8] =
    b"POST /consoles/C1/command HTTP/1.1\r\nContent-Length: 14\r\n\r\n{\"text\":\"D U\"}";

/// The bytes of its body.
const BODY: usize = 14;

#[test]
fn a_cut_request_is_refused_wherever_it_is_cut(rt: HostRuntime) -> Result<(), Fail> {
    for count in 0..COMMAND.len() {
        match asked(rt.alloc(), &COMMAND[..count])? {
            Ok(_) => assert!(rt; false),
            Err(fault) => {
                let is_head = count.saturating_add(BODY) < COMMAND.len();
                let part = if is_head {
                    InvalidPart::Head
                } else {
                    InvalidPart::CutShort
                };
                assert_eq!(rt; fault, ReadingFault::Refused(HttpRefusal::BadRequest(part)));
            }
        }
    }
    Ok(())
}

#[test]
fn a_read_that_fails_ends_it(rt: HostRuntime) -> Result<(), Fail> {
    for at in 0..COMMAND.len() {
        match asked(rt.alloc(), FailingReader::by_bytes(COMMAND, at))? {
            Ok(_) => assert!(rt; false),
            Err(fault) => assert_eq!(rt; fault, ReadingFault::Read),
        }
    }
    // Nothing is read after the end of the body.
    let whole = FailingReader::by_bytes(COMMAND, COMMAND.len());
    match asked(rt.alloc(), whole)? {
        Ok(line) => assert_eq!(rt; line.as_str(), "command C1 D U"),
        Err(_) => assert!(rt; false),
    }
    Ok(())
}

// How many bytes are read of a request with a body of this many spaces, and more after it, and the fault.
fn taken(alloc: Global, length: usize) -> Result<(usize, Option<ReadingFault>), AllocError> {
    let mut text = format!(in alloc;
        "POST /consoles/C1/command HTTP/1.1\r\nContent-Length: {length}\r\n\r\n"
    )?;
    for _ in 0..length {
        text.push(' ')?;
    }
    text.push_str("          ")?;
    let Ok(routes) = Routes::new(alloc) else {
        return Err(AllocError);
    };
    let mut source = Watched::new(FailingReader::by_bytes(text.as_bytes(), usize::MAX));
    let read = read_request(alloc, &routes, &mut source);
    let count = text.len().saturating_sub(source.inner.left.len());
    match read {
        Ok(_) => Ok((count, None)),
        Err(ReadingFault::NoMemory) => Err(AllocError),
        Err(fault) => Ok((count, Some(fault))),
    }
}

#[test]
fn a_body_is_read_to_its_length_if_at_all(rt: HostRuntime) -> Result<(), Fail> {
    let (count, fault) = taken(rt.alloc(), 65536)?;
    assert_eq!(rt; count, 61 + 65536);
    let json = HttpRefusal::BadRequest(InvalidPart::Json);
    assert_eq!(rt; fault, Some(ReadingFault::Refused(json)));
    let (count, fault) = taken(rt.alloc(), 65537)?;
    assert_eq!(rt; count, 61);
    assert_eq!(rt; fault, Some(ReadingFault::Refused(HttpRefusal::TooLarge)));
    Ok(())
}
