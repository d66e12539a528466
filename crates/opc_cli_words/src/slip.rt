//! What helps whoever gives arguments that the command line does not have.
use crate::mistake::ONE_TEXT;
use crate::quotes::is_verb_alone;
use std::io;
use std::io::Write;

const FILE: &[u8] = b"a policy file is given by itself: opcmds check FILE";

const COUNT: &[u8] = b"how many rows: --count 3, or of the last rows: --last 3";

const TIME: &[u8] =
    b"give a time, a day or how long ago: --since 2026-11-27T08:00:00Z, 2026-11-27 or -8h";

/// Whether the operand of a command is an argument of its own.
fn has_operand_apart(words: &[String]) -> bool {
    words.windows(3).any(|three| match three {
        [option, verb, operand] => {
            option.as_str() == "--command"
                && is_verb_alone(verb.as_str())
                && !operand.as_str().starts_with('-')
        }
        // (a window has three)
        _ => false,
    })
}

/// Whether a time begins as an option does: -8h.
fn has_time_before(words: &[String]) -> bool {
    words.windows(2).any(|two| match two {
        [option, value] => {
            matches!(option.as_str(), "--since" | "--until") && value.as_str().starts_with('-')
        }
        // (a window has two)
        _ => false,
    })
}

/// Whether an option of another program, for a file or for how many, is among the arguments.
fn has_other(words: &[String], long: &str, short: &str) -> bool {
    words
        .iter()
        .any(|word| word.as_str() == long || word.as_str() == short)
}

/// Whether a command reads one policy file.
fn takes_policy(command: &str) -> bool {
    matches!(command, "check" | "explain" | "may" | "sheet" | "who")
}

/// What helps with the arguments of a command.
fn help_with(command: &str, words: &[String]) -> Option<&'static [u8]> {
    match command {
        "account" if has_time_before(words) => Some(TIME),
        "account" if has_other(words, "--limit", "-n") => Some(COUNT),
        _ if takes_policy(command) && has_other(words, "--file", "-f") => Some(FILE),
        _ if has_operand_apart(words) => Some(ONE_TEXT),
        // What `clap` reports says enough of any other arguments.
        _ => None,
    }
}

/// Prints what helps with words that the command line does not have; the first is the command. That is a note beside
/// what `clap` reports, of which no clause speaks; the tables of `tools/program` have the words.
pub(crate) fn note_slip<E: Write>(words: &[String], errors: &mut E) -> io::Result<()> {
    let [command, ..] = words else {
        return Ok(());
    };
    let Some(help) = help_with(command.as_str(), words) else {
        return Ok(());
    };
    errors.write_all(b"opcmds: ")?;
    errors.write_all(help)?;
    errors.write_all(b"\n")
}
