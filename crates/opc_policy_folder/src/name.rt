//! The names of states.
ghost use Rattle.std.specs.Prelude.{◌≡◌, ◌++◌, IfOk, OnOk, codes, flat_map, string_bytes};
ghost use Rattle.opc_policy_folder.specs.StateNames.{IsStateName, digits_of, stamped};

use opc_times::time::time_text;
use sha2::{Digest, Sha256};
use std::alloc::{AllocError, Global};

/// How many bytes of a digest are in a name.
const DIGEST_BYTES: usize = 8;

/// Adds a character of a time, unless it is a colon.
fn push_stamped(stamp: &mut String, character: u8) -> Result<(), AllocError>
    ensures { OnOk result (string_bytes stamp.new ≡ string_bytes stamp.old ++ stamped character) }
{
    if character == b':' {
        Ok(())
    } else {
        stamp.push(char::from(character))
    }
}

/// A time without its colons, which some systems do not take in the name of a file.
fn stamp_of(alloc: Global, time: &[u8]) -> Result<String, AllocError>
    ensures { IfOk result (λ stamp. string_bytes stamp ≡ flat_map stamped time.now) }
{
    let mut stamp = String::new(alloc);
    for character in time {
        push_stamped(&mut stamp, *character)?;
    }
    Ok(stamp)
}

/// How the SHA-256 of a text begins.
pub fn digits_of(alloc: Global, text: &[u8]) -> Result<String, AllocError>
    ensures { IfOk result (λ digits. string_bytes digits ≡ digits_of text.now) }
{
    let digest = Sha256::digest(text);
    hex::encode(alloc, &digest[..DIGEST_BYTES])
}

fn joined(alloc: Global, stamp: &str, digits: &str) -> Result<String, AllocError>
    ensures { IfOk result (λ name. string_bytes name ≡ stamp.now ++ codes "-" ++ digits.now) }
{
    format!(in alloc; "{stamp}-{digits}")
}

/// The name of the state that has this text, from this timestamp on: the time, and how the SHA-256 of the text begins.
pub fn state_name(alloc: Global, moment: u64, text: &[u8]) -> Result<String, AllocError>
    ensures { IfOk result (λ name. IsStateName moment text.now (string_bytes name)) }
{
    let time = time_text(alloc, moment)?;
    let stamp = stamp_of(alloc, time.as_str().as_bytes())?;
    let digits = digits_of(alloc, text)?;
    joined(alloc, stamp.as_str(), digits.as_str())
}
