//! The field of a column as it is shown.
ghost use Rattle.std.specs.Prelude.{◌≡◌, ◌++◌, IfOk, OnOk, chars, encode_utf8_all, length, string_bytes};
ghost use Rattle.opc_check.specs.Words.{length_text, quoted_character, quoted_start, shown_field};

use crate::escape::{is_unprintable, push_escape};
use opc_import::column::Column;
use std::alloc::{AllocError, Global};

/// The most characters of a field that are shown: as many as the longest name has.
const MOST_SHOWN: u32 = 39;

fn push_quoted(text: &mut String, character: char) -> Result<(), AllocError>
    ensures { OnOk result (string_bytes text.new
        ≡ string_bytes text.old ++ encode_utf8_all (quoted_character character)) }
{
    if character == '"' {
        text.push_str("\\\"")
    } else if character == '\\' {
        text.push_str("\\\\")
    } else if is_unprintable(character) {
        push_escape(text, character)
    } else {
        text.push(character)
    }
}

/// The start of a field in quotes, with `..` if there is more of it.
#[tactic(auto, unfolding(crate::specs::Words::quoted_start))]
pub(crate) fn quoted_start(alloc: Global, field: &str) -> Result<String, AllocError>
    ensures { IfOk result (λ text. string_bytes text ≡ quoted_start field.now) }
{
    let mut text = String::from_str(alloc, "\"")?;
    let mut room = MOST_SHOWN;
    for character in field.chars() {
        if room == 0 {
            text.push_str("\"..")?;
            return Ok(text);
        }
        push_quoted(&mut text, character)?;
        room -= 1;
    }
    text.push_str("\"")?;
    Ok(text)
}

fn character_count(field: &str) -> usize
    ensures { result ≡ length (chars field.now) }
{
    field.chars().count()
}

fn length_text(alloc: Global, count: usize) -> Result<String, AllocError>
    ensures { IfOk result (λ text. string_bytes text ≡ length_text count) }
{
    if count == 1 {
        String::from_str(alloc, "it has 1 character")
    } else {
        format!(in alloc; "it has {count} characters")
    }
}

/// What is shown of the field in a column. An invalid digest may be a password, which is never shown.
pub(crate) fn shown_field(alloc: Global, column: Column, field: &str) -> Result<String, AllocError>
    ensures { IfOk result (λ text. string_bytes text ≡ shown_field column field.now) }
{
    match column {
        Column::Digest => length_text(alloc, character_count(field)),
        // No other field may be a password.
        _ => quoted_start(alloc, field),
    }
}
