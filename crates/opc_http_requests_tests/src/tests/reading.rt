//! What some bytes ask for, as a line.
use opc_http_requests::ask::read_request;
use opc_http_requests::fault::ReadingFault;
use opc_http_requests::routes::Routes;
use opc_io::watched::Watched;
use opc_machine::request::Request;
use std::alloc::{AllocError, Global};
use std::io::Read;

/// A request by POST, with the length of its body.
pub(super) fn post(alloc: Global, path: &str, body: &str) -> Result<String, AllocError> {
    let length = body.len();
    format!(in alloc; "POST {path} HTTP/1.1\r\nContent-Length: {length}\r\n\r\n{body}")
}

/// A request by GET, without a body.
pub(super) fn get(alloc: Global, path: &str) -> Result<String, AllocError> {
    format!(in alloc; "GET {path} HTTP/1.1\r\n\r\n")
}

// What a request contains, as a line.
fn reported(alloc: Global, request: &Request) -> Result<String, AllocError> {
    match request {
        Request::Command { console, text } => {
            let name = console.text();
            let text = text.as_str();
            format!(in alloc; "command {name} {text}")
        }
        Request::Admin { console, .. } => {
            let name = console.text();
            format!(in alloc; "admin {name}")
        }
        Request::Import {
            console,
            batch,
            rows,
        } => {
            let name = console.text();
            let count = rows.as_slice().len();
            format!(in alloc; "import {name} {batch} {count}")
        }
        Request::ListProfiles { console, class } => {
            let name = console.text();
            let class = class.text();
            format!(in alloc; "profiles {name} {class}")
        }
        Request::ListAccount {
            console,
            from,
            count,
        } => {
            let name = console.text();
            format!(in alloc; "account {name} {from} {count}")
        }
        Request::Event(_) => String::from_str(alloc, "event"),
    }
}

/// What the bytes ask for, as a line, or why they are no request.
pub(super) fn asked<R: Read + Drop>(
    alloc: Global,
    reader: R,
) -> Result<Result<String, ReadingFault>, AllocError> {
    match Routes::new(alloc) {
        Ok(routes) => asked_by(alloc, &routes, reader),
        Err(_) => Err(AllocError),
    }
}

/// The same of a strict service at a port.
pub(super) fn asked_strictly<R: Read + Drop>(
    alloc: Global,
    port: u16,
    reader: R,
) -> Result<Result<String, ReadingFault>, AllocError> {
    match Routes::strict(alloc, port) {
        Ok(routes) => asked_by(alloc, &routes, reader),
        Err(_) => Err(AllocError),
    }
}

fn asked_by<R: Read + Drop>(
    alloc: Global,
    routes: &Routes,
    reader: R,
) -> Result<Result<String, ReadingFault>, AllocError> {
    let mut source = Watched::new(reader);
    match read_request(alloc, routes, &mut source) {
        Ok(request) => Ok(Ok(reported(alloc, &request)?)),
        Err(ReadingFault::NoMemory) => Err(AllocError),
        Err(fault) => Ok(Err(fault)),
    }
}
