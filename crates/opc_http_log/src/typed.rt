//! Commands as they were typed, without passwords.
ghost use Rattle.std.specs.Prelude.{◌≡◌, ◌≤◌, IfOk, length};
ghost use Rattle.std.specs.List.{prefix_len};
ghost use Rattle.opc_http_log.specs.Typed.{
  after_spaces,
  first_word,
  has_verb,
  hidden_by,
  is_in_word,
  is_logon,
  is_space,
  is_verb,
  past_word,
  read_as,
  typed,
  without,
};

use opc_reader::{Command, ReadFault, read_command};
use std::alloc::{AllocError, Global};
use std::str;

/// What stands for all that is not shown.
const STARS: &[u8] = b",********";

fn spaces_before(text: &[u8]) -> usize
    ensures value { result ≡ prefix_len is_space text.now }
    ensures within { result ≤ length text.now }
{
    text.iter().take_while(|c| **c == b' ').count()
}

fn word_len(text: &[u8]) -> usize
    ensures value { result ≡ prefix_len is_in_word text.now }
    ensures within { result ≤ length text.now }
{
    text.iter()
        .take_while(|c| !(**c == b' ' || **c == b','))
        .count()
}

fn after_spaces(text: &[u8]) -> &[u8]
    ensures value { result.now ≡ after_spaces text.now }
    ensures within { length result.now ≤ length text.now }
{
    text.split_at(spaces_before(text)).1
}

/// The first word of a text.
fn first_word(text: &[u8]) -> &[u8]
    ensures { result.now ≡ first_word text.now }
{
    let words = after_spaces(text);
    words.split_at(word_len(words)).0
}

/// What follows it.
fn past_word(text: &[u8]) -> &[u8]
    ensures value { result.now ≡ past_word text.now }
    ensures within { length result.now ≤ length text.now }
{
    let words = after_spaces(text);
    words.split_at(word_len(words)).1
}

/// What a text is read as.
fn read(text: &str) -> Result<Command<'_>, ReadFault>
    ensures { result ≡ read_as text.now }
{
    read_command(text)
}

fn is_logon(command: &Command<'_>) -> bool
    ensures { result ≡ is_logon command.now }
{
    match command {
        Command::Logon(_, _) => true,
        // No other command has a password.
        _ => false,
    }
}

/// Whether a text is a command, or has nothing wrong but its operands.
fn has_verb(text: &str) -> bool
    ensures { result ≡ has_verb (read_as text.now) }
{
    match read(text) {
        Ok(_) | Err(ReadFault::BadOperand(_)) => true,
        // With any other fault it begins with no verb, or a quoted text is not closed, of which a word has none.
        Err(_) => false,
    }
}

/// Whether a word is a verb: it is a command by itself, or lacks its operands.
fn is_verb(word: &[u8]) -> bool
    ensures { result ≡ is_verb word.now }
{
    match str::from_utf8(word) {
        Ok(text) => has_verb(text),
        Err(_) => false,
    }
}

/// What of a text is not shown.
fn hidden(text: &str) -> &[u8]
    ensures value { result.now ≡ hidden_by (read_as text.now) text.now }
    ensures within { length result.now ≤ length text.now }
{
    let bytes = text.as_bytes();
    match read(text) {
        Ok(command) => {
            if is_logon(&command) {
                past_word(past_word(bytes))
            } else {
                &[]
            }
        }
        Err(_) if is_verb(first_word(bytes)) => past_word(bytes),
        Err(_) => after_spaces(bytes),
    }
}

fn copied(alloc: Global, text: &[u8]) -> Result<Vec<u8>, AllocError>
    ensures { IfOk result (λ copy. copy.items ≡ text.now) }
{
    let mut copy = Vec::new(alloc);
    copy.extend_from_slice(text)?;
    Ok(copy)
}

/// A text without its end.
fn without(alloc: Global, end: &[u8], text: &[u8]) -> Result<Vec<u8>, AllocError>
    requires { length end.now ≤ length text.now }
    ensures { IfOk result (λ shown. shown.items ≡ without end.now text.now) }
{
    if end.is_empty() {
        return copied(alloc, text);
    }
    let mut shown = copied(alloc, &text[..text.len() - end.len()])?;
    shown.extend_from_slice(STARS)?;
    Ok(shown)
}

/// A command as it was typed, without a password.
#[tactic(auto, unfolding(crate::specs::Typed::typed))]
pub fn typed(alloc: Global, text: &str) -> Result<Vec<u8>, AllocError>
    ensures { IfOk result (λ shown. shown.items ≡ typed text.now) }
{
    without(alloc, hidden(text), text.as_bytes())
}
