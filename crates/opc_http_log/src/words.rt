//! What a log shows of a request.
ghost use Rattle.std.specs.Prelude.{◌≡◌, [], ◌∷◌, IfOk, codes, decimal, string_bytes};
ghost use Rattle.opc_board.specs.Texts.{columns};
ghost use Rattle.opc_http_log.specs.Words.{request_words, shown};

use crate::escape::quoted;
use crate::operation::operation_words;
use crate::typed::typed;
use opc_machine::request::Request;
use std::alloc::{AllocError, Global};

/// The most bytes that are shown: as many as a command may have.
const MOST: usize = 126;

fn account_words(alloc: Global, from: u64, count: u32) -> Result<String, AllocError>
    ensures { IfOk result (λ words. string_bytes words
        ≡ columns (codes "account" ∷ decimal from ∷ decimal count ∷ [])) }
{
    format!(in alloc; "account {from} {count}")
}

/// A command as it was typed, without a password; an operation; a listing or a batch by what its path names. An event
/// does not come over HTTP.
fn request_words(alloc: Global, request: &Request) -> Result<Vec<u8>, AllocError>
    ensures { IfOk result (λ words. words.items ≡ request_words request.now) }
{
    match request {
        Request::Command { text, .. } => typed(alloc, text.as_str()),
        Request::Admin { op, .. } => Ok(operation_words(alloc, op)?.into_bytes()),
        Request::ListProfiles { class, .. } => {
            Ok(format!(in alloc; "profiles {class}")?.into_bytes())
        }
        Request::ListAccount { from, count, .. } => {
            Ok(account_words(alloc, *from, *count)?.into_bytes())
        }
        Request::Import { batch, .. } => Ok(format!(in alloc; "import {batch}")?.into_bytes()),
        Request::Event(_) => Ok(String::from_str(alloc, "event")?.into_bytes()),
    }
}

/// A text in quotes, not all of it if it is long.
pub fn shown(alloc: Global, words: &[u8]) -> Result<Vec<u8>, AllocError>
    ensures { IfOk result (λ text. text.items ≡ shown words.now) }
{
    if words.len() <= MOST {
        return quoted(alloc, words);
    }
    let mut text = quoted(alloc, words.split_at(MOST).0)?;
    text.extend_from_slice(b"..")?;
    Ok(text)
}

/// What is shown of a request.
pub fn shown_request(alloc: Global, request: &Request) -> Result<Vec<u8>, AllocError>
    ensures { IfOk result (λ text. text.items ≡ shown (request_words request.now)) }
{
    let words = request_words(alloc, request)?;
    shown(alloc, words.as_slice())
}
