//! Commands that are not quoted: `--command C PAYROLL`.
ghost use Rattle.std.specs.Prelude.{◌≡◌, ◌==◌, ⊤};
ghost use Rattle.std.specs.List.{list_any};
ghost use Rattle.clap.specs.Matches.{first_value, found_of};
ghost use Rattle.opc_cli_words.specs.Checks.{IsReadAs};
ghost use Rattle.opc_cli_words.specs.Options.{quotes_option};
ghost use Rattle.opc_cli_words.specs.Quotes.{is_verb_alone};

use crate::mistake::Mistake;
use clap::ArgMatches;
use opc_answers::needed::is_logon;

fn has_space(text: &[u8]) -> bool
    ensures { result ≡ list_any (λ c. c == 32) text.now }
{
    text.iter().any(|c| *c == b' ')
}

/// Whether a text is a verb without its operands. LOGOFF has none, and those of LOGON do not count.
pub(crate) fn is_verb_alone(text: &str) -> bool
    ensures { result ≡ is_verb_alone text.now }
{
    !has_space(text.as_bytes()) && text != "LOGOFF" && !is_logon(text)
}

/// A command of one word is not given beside a file: the file is its operand.
pub(crate) fn need_quotes(chosen: &ArgMatches<'_>) -> Result<(), Mistake>
    ensures { IsReadAs (λ _. ⊤) (quotes_option (first_value (found_of chosen.now))) result }
{
    match (chosen.get_str("file"), chosen.get_str("command")) {
        (Some(_), Some(text)) if is_verb_alone(text) => Err(Mistake::Unquoted),
        // There is no file, no command, or a complete command.
        _ => Ok(()),
    }
}
