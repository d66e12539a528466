//! What the path of a request states: its route, and its values.
ghost use Rattle.std.specs.Prelude.{
  ◌≡◌,
  ◌≤◌,
  ◌<◌,
  ◌∷◌,
  [],
  Err,
  IfOk,
  MatchOption,
  MatchResult,
  Ok,
  length,
  option_and_then,
};
ghost use Rattle.std.specs.List.{list_all};
ghost use Rattle.opc_names.specs.Names.{console_rule};
ghost use Rattle.opc_import.specs.Fields.{name_of};
ghost use Rattle.opc_http_requests.specs.Refusals.{Refuses, required};
ghost use Rattle.opc_http_requests.specs.Routes.{part_at};
ghost use Rattle.opc_http_requests.specs.Paths.{
  batch_in,
  class_in,
  console_in,
  count_in,
  from_in,
  is_path_byte,
  path_in,
  route_in,
  unescaped,
  within,
};

use crate::number::number_in;
use crate::refusal::{AskFault, HttpRefusal, InvalidPart};
use crate::routes::{Route, Routes};
use opc_import::field::read_name;
use opc_names::class::Class;
use opc_names::name::ConsoleName;
use std::alloc::{AllocError, Global};
use std::str;

/// The greatest number of a batch.
const LAST_BATCH: u64 = 999_999_999;

/// The most rows of the account in one answer.
const MOST_LISTED: u64 = 1000;

fn is_path(target: &[u8]) -> bool
    ensures { result ≡ list_all is_path_byte target.now }
{
    target.iter().all(|b| *b != b'?' && *b <= 0x7e)
}

/// The path that a target is.
pub(crate) fn path_in(target: &[u8]) -> Result<&str, HttpRefusal>
    ensures { MatchResult result (λ path. path_in target.now ≡ Ok path.now) (λ why. path_in target.now ≡ Err why) }
{
    if !is_path(target) {
        return Err(HttpRefusal::NotFound);
    }
    match str::from_utf8(target) {
        Ok(path) => Ok(path),
        Err(_) => Err(HttpRefusal::NotFound),
    }
}

/// The route of a path.
pub(crate) fn route_in(routes: &Routes, path: &str) -> Result<Route, HttpRefusal>
    ensures { result ≡ route_in path.now }
{
    match routes.route_of(path) {
        Some(route) => Ok(route),
        None => Err(HttpRefusal::NotFound),
    }
}

// The part of a path at a place, counted from 0 for the text before the first slash.
fn part_at(path: &str, place: usize) -> &str
    ensures { result.now ≡ part_at place path.now }
{
    path.split('/').nth(place).unwrap_or("")
}

// The first of some bytes, an escape or a byte, as the byte that it stands for, and what follows it.
fn first_of(bytes: &[u8]) -> Option<(u8, &[u8])>
    ensures { MatchOption result (bytes.now ≡ []) (λ first.
        (unescaped bytes.now ≡ first.0 ∷ unescaped first.1.now) × (length first.1.now < length bytes.now)) }
{
    match bytes {
        [b'%', b'2', b'3', rest @ ..] => Some((b'#', rest)),
        [b'%', b'2', b'4', rest @ ..] => Some((b'$', rest)),
        [b'%', b'4', b'0', rest @ ..] => Some((b'@', rest)),
        [byte, rest @ ..] => Some((*byte, rest)),
        [] => None,
    }
}

// The bytes with each escape read once.
fn unescaped(alloc: Global, bytes: &[u8]) -> Result<Vec<u8>, AllocError>
    ensures { IfOk result (λ read. read.items ≡ unescaped bytes.now) }
{
    let mut read = Vec::new(alloc);
    let mut rest = bytes;
    while let Some((byte, others)) = first_of(rest) {
        read.push(byte)?;
        rest = others;
    }
    Ok(read)
}

fn name_in(bytes: &[u8]) -> Option<ConsoleName>
    ensures { result ≡ name_of console_rule bytes.now }
{
    match str::from_utf8(bytes) {
        Ok(text) => read_name(text),
        Err(_) => None,
    }
}

/// The console that a path names.
pub(crate) fn console_in(alloc: Global, path: &str) -> Result<ConsoleName, AskFault>
    ensures { MatchResult result (λ console. console_in path.now ≡ Ok console)
        (λ fault. Refuses fault (console_in path.now)) }
{
    let bytes = unescaped(alloc, part_at(path, 2).as_bytes())?;
    match name_in(bytes.as_slice()) {
        Some(console) => Ok(console),
        None => Err(AskFault::Refused(HttpRefusal::BadRequest(InvalidPart::Console))),
    }
}

// A number from 1 to a limit, as this part of the request.
fn limited(number: Option<u64>, most: u64, part: InvalidPart) -> Result<u32, HttpRefusal>
    requires { most ≤ 999999999 }
    ensures { result ≡ required part (option_and_then (within 1 most) number) }
{
    match number {
        Some(n) if 1 <= n && n <= most => Ok(n as u32),
        // There is no number, or it is outside the limits.
        _ => Err(HttpRefusal::BadRequest(part)),
    }
}

/// The number of a batch.
pub(crate) fn batch_in(path: &str) -> Result<u32, HttpRefusal>
    ensures { result ≡ batch_in path.now }
{
    limited(
        number_in(part_at(path, 4), 9),
        LAST_BATCH,
        InvalidPart::Batch,
    )
}

/// The class whose profiles are requested.
pub(crate) fn class_in(path: &str) -> Result<Class, HttpRefusal>
    ensures { result ≡ class_in path.now }
{
    Class::read(part_at(path, 4)).ok_or(HttpRefusal::BadRequest(InvalidPart::Class))
}

/// The number from which on the account is requested.
pub(crate) fn from_in(path: &str) -> Result<u64, HttpRefusal>
    ensures { result ≡ from_in path.now }
{
    number_in(part_at(path, 4), 18).ok_or(HttpRefusal::BadRequest(InvalidPart::First))
}

/// How many rows of the account are requested.
pub(crate) fn count_in(path: &str) -> Result<u32, HttpRefusal>
    ensures { result ≡ count_in path.now }
{
    limited(
        number_in(part_at(path, 5), 4),
        MOST_LISTED,
        InvalidPart::Count,
    )
}
