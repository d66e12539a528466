//! Texts in a page.
ghost use Rattle.std.specs.Prelude.{◌≡◌, ◌++◌, IfOk, OnOk, encode_utf8_all, string_bytes};
ghost use Rattle.opc_answers_sheet.specs.Escaped.{escaped, escaped_character};

use std::alloc::{AllocError, Global};

fn push_escaped(text: &mut String, character: char) -> Result<(), AllocError>
    ensures { OnOk result (string_bytes text.new
        ≡ string_bytes text.old ++ encode_utf8_all (escaped_character character)) }
{
    match character {
        '&' => text.push_str("&amp;"),
        '<' => text.push_str("&lt;"),
        '>' => text.push_str("&gt;"),
        '"' => text.push_str("&quot;"),
        '\'' => text.push_str("&#39;"),
        // It has no meaning in HTML.
        _ => text.push(character),
    }
}

/// A text in which each character with a meaning in HTML is written as a reference.
pub fn escaped(alloc: Global, text: &str) -> Result<String, AllocError>
    ensures { IfOk result (λ made. string_bytes made ≡ escaped text.now) }
{
    let mut made = String::new(alloc);
    for character in text.chars() {
        push_escaped(&mut made, character)?;
    }
    Ok(made)
}
