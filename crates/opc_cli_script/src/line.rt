//! Lines of scripts.
ghost use Rattle.std.specs.Prelude.{◌≡◌, IfOk, MatchOption, None, Some};
ghost use Rattle.std.specs.Char.{is_ascii_digit};
ghost use Rattle.std.specs.List.{list_all};
ghost use Rattle.opc_cli_script.specs.Scripts.{
  is_blank,
  is_number,
  moment_in,
  parts_in,
  request_in,
  request_of,
  untimed_request_in,
};

use crate::event::{event_in, name_in, separated};
use opc_board::text::KeptText;
use opc_gate::request::Request;
use std::alloc::{AllocError, Global};

/// The most digits of a timestamp.
pub(crate) const MOMENT_DIGITS: usize = 13;

fn are_digits(bytes: &[u8]) -> bool
    ensures { result ≡ list_all is_ascii_digit bytes.now }
{
    bytes.iter().all(|c| c.is_ascii_digit())
}

pub(crate) fn is_number(text: &str) -> bool
    ensures { result ≡ is_number text.now }
{
    !text.is_empty() && are_digits(text.as_bytes())
}

fn moment_in(text: &str) -> Option<u64>
    ensures { result ≡ moment_in text.now }
{
    if !is_number(text) || text.len() > MOMENT_DIGITS {
        return None;
    }
    text.parse::<u64>().ok()
}

fn request_of(alloc: Global, who: &str, text: &str) -> Result<Option<Request>, AllocError>
    ensures { IfOk result (λ request. request ≡ request_of (who.now, text.now)) }
{
    if who == "*" {
        return Ok(match event_in(alloc, text)? {
            Some(event) => Some(Request::Event(event)),
            None => None,
        });
    }
    match name_in(who) {
        Some(console) => Ok(Some(Request::Command {
            console,
            text: KeptText::new(alloc, text)?,
        })),
        None => Ok(None),
    }
}

// The parts of a line: its timestamp, the console, and the request.
#[tactic(auto, unfolding(crate::specs::Scripts::parts_in))]
fn parts_in(line: &str) -> Option<(u64, &str, &str)>
    ensures { MatchOption result (parts_in line.now ≡ None)
        (λ parts. parts_in line.now ≡ Some (parts.0, (parts.1.now, parts.2.now))) }
{
    let (moment, rest) = separated(line)?;
    let moment = moment_in(moment)?;
    let (who, text) = separated(rest)?;
    Some((moment, who, text))
}

/// Whether a line is empty or only spaces.
pub fn is_blank(line: &str) -> bool
    ensures { result ≡ is_blank line.now }
{
    line.as_bytes().iter().all(|c| *c == b' ')
}

/// The request of a line, with its timestamp.
pub fn request_in(alloc: Global, line: &str) -> Result<Option<(u64, Request)>, AllocError>
    ensures { IfOk result (λ request. request ≡ request_in line.now) }
{
    let Some((moment, who, text)) = parts_in(line) else {
        return Ok(None);
    };
    match request_of(alloc, who, text)? {
        Some(request) => Ok(Some((moment, request))),
        None => Ok(None),
    }
}

/// The request of a line without a timestamp: the console, one space, and the request.
pub fn untimed_request_in(alloc: Global, line: &str) -> Result<Option<Request>, AllocError>
    ensures { IfOk result (λ request. request ≡ untimed_request_in line.now) }
{
    match separated(line) {
        Some((who, text)) => request_of(alloc, who, text),
        None => Ok(None),
    }
}
