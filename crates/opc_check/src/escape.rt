//! Characters that end a line, that a terminal acts on, or that it hides, and their escapes.
ghost use Rattle.std.specs.Prelude.{◌≡◌, ◌++◌, OnOk, encode_utf8_all, string_bytes};
ghost use Rattle.std.specs.Char.Escape.{escape_unicode};
ghost use Rattle.opc_check.specs.Escape.{is_format, is_unprintable, is_within};

use std::alloc::AllocError;

fn is_within(low: u32, high: u32, code: u32) -> bool
    ensures { result ≡ is_within low high code }
{
    low <= code && code <= high
}

fn is_format(code: u32) -> bool
    ensures { result ≡ is_format code }
{
    code == 0xAD
        || code == 0x61C
        || code == 0x180E
        || is_within(0x200B, 0x200F, code)
        || is_within(0x2028, 0x202E, code)
        || is_within(0x2060, 0x206F, code)
        || code == 0xFEFF
        || is_within(0xFFF9, 0xFFFB, code)
        || is_within(0xE0000, 0xE007F, code)
}

/// Whether a line shows the character as an escape.
pub fn is_unprintable(character: char) -> bool
    ensures { result ≡ is_unprintable character }
{
    character.is_control() || is_format(character as u32)
}

/// Adds the escape of a character, as `\u{1b}`.
pub fn push_escape(text: &mut String, character: char) -> Result<(), AllocError>
    ensures { OnOk result (string_bytes text.new
        ≡ string_bytes text.old ++ encode_utf8_all (escape_unicode character)) }
{
    for part in character.escape_unicode() {
        text.push(part)?;
    }
    Ok(())
}
