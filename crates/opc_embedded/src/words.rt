//! The words of a question.
ghost use Rattle.std.specs.Prelude.{◌≡◌, ◌∷◌, [], IfOk, map, string_bytes};
ghost use Rattle.opc_cli_words.specs.Reading.{words_after};
ghost use Rattle.opc_embedded.specs.Words.{asked_words, words_of};

use opc_cli_words::joined::joined;
use std::alloc::{AllocError, Global};

/// What stands between the NULs of a question.
fn parts_of<'a>(alloc: Global, question: &'a str) -> Result<Vec<&'a str>, AllocError>
    ensures { IfOk result (λ parts. map (λ p. p.now) parts.items ≡ words_of question.entry.now) }
{
    question.split('\0').collect(alloc)
}

/// The words, after an empty one in the place of the program's own name.
fn arguments_in(alloc: Global, question: &str) -> Result<Vec<String>, AllocError>
    ensures { IfOk result (λ words. map string_bytes words.items ≡ [] ∷ words_of question.now) }
{
    let parts = parts_of(alloc, question)?;
    let mut words = Vec::new(alloc);
    words.push(String::new(alloc))?;
    for part in parts.as_slice() {
        words.push(String::from_str(alloc, part)?)?;
    }
    Ok(words)
}

/// The arguments that a question is. The first is the place of the program's own name.
pub(crate) fn words_in(alloc: Global, question: &str) -> Result<Vec<String>, AllocError>
    ensures { IfOk result (λ words. words_after words.items ≡ asked_words question.now) }
{
    let words = arguments_in(alloc, question)?;
    joined(alloc, &words)
}
