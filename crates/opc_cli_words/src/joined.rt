//! Arguments whose value begins as an option does: `--since -8h`.
ghost use Rattle.std.specs.Prelude.{◌≡◌, ◌≤◌, ◌∷◌, ◌++◌, IfOk, codes, length, map, string_bytes};
ghost use Rattle.opc_cli_words.specs.Joined.{is_apart, joined};

use crate::span::seconds_ago;
use std::alloc::{AllocError, Global};

fn is_apart(option: &String, value: &String) -> bool
    ensures { result ≡ is_apart (string_bytes option.now) (string_bytes value.now) }
{
    matches!(option.as_str(), "--since" | "--until") && seconds_ago(value.as_str()).is_some()
}

/// An option and its value, as one argument.
fn pair(alloc: Global, option: &String, value: &String) -> Result<String, AllocError>
    ensures { IfOk result (λ one. string_bytes one
        ≡ string_bytes option.now ++ codes "=" ++ string_bytes value.now) }
{
    let mut one = String::new(alloc);
    one.push_str(option.as_str())?;
    one.push_str("=")?;
    one.push_str(value.as_str())?;
    Ok(one)
}

/// An argument, and those after it.
#[derive(Drop)]
struct NextWord<'a> {
    word: String,
    rest: &'a [String],
}

/// The next argument: an option with its value, if they are apart.
fn next_word<'a>(
    alloc: Global,
    word: &String,
    rest: &'a [String],
) -> Result<NextWord<'a>, AllocError>
    ensures joined { IfOk result (λ next. joined (string_bytes word.now ∷ map string_bytes rest.now)
        ≡ string_bytes next.word ∷ joined (map string_bytes next.rest.now)) }
    ensures fewer { IfOk result (λ next. length next.rest.now ≤ length rest.now) }
{
    match rest.split_first() {
        Some((value, after)) if is_apart(word, value) => {
            Ok(NextWord {
                word: pair(alloc, word, value)?,
                rest: after,
            })
        }
        // The argument is the last one, or stands by itself.
        _ => {
            Ok(NextWord {
                word: word.clone()?,
                rest,
            })
        }
    }
}

/// The arguments, with each value that begins as an option does joined to its option.
pub fn joined(alloc: Global, words: &[String]) -> Result<Vec<String>, AllocError>
    ensures { IfOk result (λ all. map string_bytes all.items ≡ joined (map string_bytes words.now)) }
{
    let mut all = Vec::new(alloc);
    let mut left = words;
    while let Some((word, rest)) = left.split_first() {
        let NextWord { word, rest } = next_word(alloc, word, rest)?;
        all.push(word)?;
        left = rest;
    }
    Ok(all)
}
