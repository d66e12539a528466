//! Texts as a terminal shows them.
ghost use Rattle.std.specs.Prelude.{◌≡◌, ◌++◌, IfOk, OnOk, chars, encode_utf8_all, string_bytes};
ghost use Rattle.opc_cli_failures.specs.Shown.{has_hidden, is_hidden, shown, shown_character};

use opc_check::escape::{is_unprintable, push_escape};
use std::alloc::{AllocError, Global};

fn is_hidden(character: char) -> bool
    ensures { result ≡ is_hidden character }
{
    character != '\n' && is_unprintable(character)
}

/// Whether a terminal would act on a character of the text, or hide it.
pub fn has_hidden(text: &str) -> bool
    ensures { result ≡ has_hidden text.now }
{
    for character in text.chars() {
        if is_hidden(character) {
            return true;
        }
    }
    false
}

fn push_shown(text: &mut String, character: char) -> Result<(), AllocError>
    ensures { OnOk result (string_bytes text.new
        ≡ string_bytes text.old ++ encode_utf8_all (shown_character character)) }
{
    if is_hidden(character) {
        push_escape(text, character)
    } else {
        text.push(character)
    }
}

/// The text as a terminal shows it: each character that it would act on, or hide, is escaped.
pub fn shown_text(alloc: Global, text: &str) -> Result<String, AllocError>
    ensures { IfOk result (λ made. string_bytes made ≡ shown text.now) }
{
    let mut made = String::new(alloc);
    for character in text.chars() {
        push_shown(&mut made, character)?;
    }
    Ok(made)
}
