//! Texts in a line of an output, whatever the output is.
ghost use Rattle.std.specs.Prelude.{◌≡◌, ◌++◌, IfOk, OnOk, encode_utf8_all, string_bytes};
ghost use Rattle.std.specs.List.{list_all};
ghost use Rattle.opc_cli_failures.specs.Escaped.{escaped, escaped_character, has_unprintable, is_plain};

use opc_check::escape::{is_unprintable, push_escape};
use std::alloc::{AllocError, Global};

/// Whether all bytes are printable ASCII.
fn is_plain(text: &[u8]) -> bool
    ensures { result ≡ list_all is_plain text.now }
{
    text.iter().all(|c| b' ' <= *c && *c <= b'~')
}

/// Whether a character of the text would end its line, or a terminal would act on it or hide it.
#[tactic(auto, using(crate::proofs::Plain::plain_printable))]
pub fn has_unprintable(text: &str) -> bool
    ensures { result ≡ has_unprintable text.now }
{
    // Most texts are plain, and testing bytes is faster than testing characters.
    !is_plain(text.as_bytes()) && some_unprintable(text)
}

fn some_unprintable(text: &str) -> bool
    ensures { result ≡ has_unprintable text.now }
{
    for character in text.chars() {
        if is_unprintable(character) {
            return true;
        }
    }
    false
}

fn push_escaped(text: &mut String, character: char) -> Result<(), AllocError>
    ensures { OnOk result (string_bytes text.new
        ≡ string_bytes text.old ++ encode_utf8_all (escaped_character character)) }
{
    if is_unprintable(character) {
        push_escape(text, character)
    } else {
        text.push(character)
    }
}

/// The text with each such character escaped, as `\u{a}`.
pub fn escaped_text(alloc: Global, text: &str) -> Result<String, AllocError>
    ensures { IfOk result (λ made. string_bytes made ≡ escaped text.now) }
{
    let mut made = String::new(alloc);
    for character in text.chars() {
        push_escaped(&mut made, character)?;
    }
    Ok(made)
}
