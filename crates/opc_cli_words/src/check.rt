//! The arguments of `opcmds check`.
ghost use Rattle.std.specs.Prelude.{◌≡◌, codes};
ghost use Rattle.std.specs.List.{list_any};
ghost use Rattle.std.specs.Option.{option_copied};
ghost use Rattle.std.specs.Str.{bytes_eq};
ghost use Rattle.clap.specs.Matches.{first_value, found_of};
ghost use Rattle.opc_cli_words.specs.Checks.{AreReadAs, IsReadAs};
ghost use Rattle.opc_cli_words.specs.Codes.{allow_check, are_note_codes, is_note_code};
ghost use Rattle.opc_cli_words.specs.Options.{policy_checks};
ghost use Rattle.opc_cli_words.specs.Tasks.{IsTaskOf};

use crate::flag::form_in;
use crate::mistake::{Mistake, Opt};
use crate::source::source_in;
use clap::ArgMatches;
use opc_cli_tasks::question::{PolicyCheck, PolicyQuestion};
use opc_cli_tasks::task::Task;

/// The codes of notes.
const NOTES: [&str; 19] = [
    "N01", "N02", "N03", "N04", "N05", "N06", "N08", "N09", "N10", "N11", "N12", "N13", "N14",
    "N15", "N16", "N17", "N18", "N19", "N20",
];

fn is_among(codes: &[&str], text: &str) -> bool
    ensures { result ≡ list_any (λ code. bytes_eq text.now code.now) codes.now }
{
    codes.iter().any(|code| text == *code)
}

fn is_note_code(text: &str) -> bool
    ensures { result ≡ is_note_code text.now }
{
    is_among(&NOTES, text)
}

/// Whether a text is codes of notes with commas between them.
fn are_note_codes(text: &str) -> bool
    ensures { result ≡ are_note_codes text.now }
{
    text.split(',').all(is_note_code)
}

fn allowed_in<'a>(given: Option<&'a str>) -> Result<Option<&'a str>, Mistake>
    ensures { IsReadAs (λ allowed. option_copied allowed ≡ option_copied given.entry)
        (allow_check (option_copied given.entry)) result }
{
    match given {
        Some(text) => {
            if are_note_codes(text) {
                Ok(Some(text))
            } else {
                Err(Mistake::Unread(Opt::Allow))
            }
        }
        None => Ok(None),
    }
}

/// What these arguments ask for, or the first mistake in their options.
pub(crate) fn check<'a>(chosen: &ArgMatches<'a>) -> Result<Task<'a>, Mistake>
    ensures { AreReadAs (IsTaskOf (first_value (found_of chosen.now)) (codes "check"))
        (policy_checks (first_value (found_of chosen.now))) result }
{
    let allowed = allowed_in(chosen.get_str("allow"))?;
    let source = source_in(chosen)?;
    let form = form_in(chosen);
    let check = PolicyCheck { allowed, form };
    Ok(Task::Ask(source, PolicyQuestion::Check(check)))
}
