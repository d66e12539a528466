//! Heads at their limits.
use super::reading::asked;
use opc_http_requests::fault::ReadingFault;
use opc_http_requests::refusal::{HttpRefusal, InvalidPart};
use std::alloc::{AllocError, Global};
use std::process::Abort;
use std::test::Fail;

const END: &str = "\r\n\r\n";

// A head of this many fields and this many bytes.
fn head(alloc: Global, fields: usize, length: usize) -> Result<String, AllocError> {
    let mut text = String::from_str(alloc, "GET /consoles/C1/profiles/CONSOLE HTTP/1.1\r\n")?;
    for _ in 1..fields {
        text.push_str("a: b\r\n")?;
    }
    text.push_str("c: ")?;
    for _ in text.len()..length.saturating_sub(END.len()) {
        text.push('d')?;
    }
    text.push_str(END)?;
    Ok(text)
}

#[test]
fn a_head_has_few_bytes_and_fields(rt: HostRuntime) -> Result<(), Fail> {
    for (fields, length, is_read) in [
        (1, 8192, true),
        (1, 8193, false),
        (32, 400, true),
        (33, 400, false),
    ] {
        let text = head(rt.alloc(), fields, length)?;
        assert_eq!(rt; text.len(), length);
        match asked(rt.alloc(), text.as_bytes())? {
            Ok(line) => {
                assert!(rt; is_read);
                assert_eq!(rt; line.as_str(), "profiles C1 CONSOLE");
            }
            Err(fault) => {
                assert!(rt; !is_read);
                assert_eq!(rt;
                    fault,
                    ReadingFault::Refused(HttpRefusal::BadRequest(InvalidPart::Head))
                );
            }
        }
    }
    Ok(())
}
