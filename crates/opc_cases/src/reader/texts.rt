//! What texts mean, and which characters may stand in them.
use anyhow::{Result, anyhow};
use opc_reader::line::{ReadFault, read_command};
use opc_reader_commands::command::{Command, Text};
use std::alloc::Global;

/// What the text of a line means, and its place.
pub fn says(alloc: Global, line: &str) -> Result<String> {
    let text = text_of(read_command(line)?)?;
    let (value, span) = (text.value(alloc)?, text.typed.span());
    let (from, to) = (span.from, span.to);
    Ok(format!(in alloc; "{value:?}, from {from} to {to}")?)
}

fn text_of(command: Command<'_>) -> Result<Text<'_>> {
    match command {
        Command::Modify(_, text)
        | Command::Reply(_, text)
        | Command::Send(text, _)
        | Command::Log(text) => Ok(text),
        _ => Err(anyhow!("no text")),
    }
}

/// The characters that may stand alone in a quoted text, and how many are bad there.
pub fn characters(alloc: Global) -> Result<String> {
    let mut good = String::new(alloc);
    let mut bad = 0u32;
    for byte in 0..=255_u8 {
        let character = char::from(byte);
        let line = format!(in alloc; "L '{character}'")?;
        match read_command(line.as_str()) {
            Ok(_) => good.push(character)?,
            Err(ReadFault::BadCharacter(3)) => bad = bad.saturating_add(1),
            Err(_) => {}
        }
    }
    Ok(format!(in alloc; "good {good:?}, and {bad} bad at 3")?)
}
