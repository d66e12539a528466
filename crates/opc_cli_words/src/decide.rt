//! The arguments of `opcmds decide`.
ghost use Rattle.std.specs.Prelude.{◌≡◌, codes};
ghost use Rattle.std.specs.List.{list_all};
ghost use Rattle.std.specs.Option.{option_copied};
ghost use Rattle.clap.specs.Matches.{first_value, found_of};
ghost use Rattle.opc_cli_words.specs.Bases.{is_url, is_url_character};
ghost use Rattle.opc_cli_words.specs.Checks.{AreReadAs, IsReadAs};
ghost use Rattle.opc_cli_words.specs.Options.{base_option, decision_checks};
ghost use Rattle.opc_cli_words.specs.Tasks.{IsTaskOf};

use crate::clients::clients_in;
use crate::mistake::{Mistake, Opt};
use clap::ArgMatches;
use opc_cli_tasks::task::Task;
use opc_cli_tasks::work::Decide;

/// The most characters of a URL.
const LONGEST_URL: usize = 200;

/// Whether these are printable, and each stands for itself in a text of JSON.
fn are_url_characters(bytes: &[u8]) -> bool
    ensures { result ≡ list_all is_url_character bytes.now }
{
    bytes
        .iter()
        .all(|c| b'!' <= *c && *c <= b'~' && *c != b'"' && *c != b'\\')
}

fn is_url(text: &str) -> bool
    ensures { result ≡ is_url text.now }
{
    !text.is_empty() && text.len() <= LONGEST_URL && are_url_characters(text.as_bytes())
}

/// The URL at which clients find the service, if one is given.
fn base_in<'a>(chosen: &ArgMatches<'a>) -> Result<Option<&'a str>, Mistake>
    ensures { IsReadAs (λ base. option_copied base ≡ first_value (found_of chosen.now) (codes "base"))
        (base_option (first_value (found_of chosen.now))) result }
{
    match chosen.get_str("base") {
        Some(base) if !is_url(base) => Err(Mistake::Unread(Opt::Base)),
        base => Ok(base),
    }
}

/// What these arguments ask for, or the first mistake in their options.
pub(crate) fn decide<'a>(chosen: &ArgMatches<'a>) -> Result<Task<'a>, Mistake>
    ensures { AreReadAs (IsTaskOf (first_value (found_of chosen.now)) (codes "decide"))
        (decision_checks (first_value (found_of chosen.now))) result }
{
    let base = base_in(chosen)?;
    match clients_in(chosen) {
        Ok(clients) => {
            let policy = chosen.get_str("policy").unwrap_or("");
            Ok(Task::Decide(Decide {
                policy,
                base,
                clients,
            }))
        }
        Err(mistake) => Err(mistake),
    }
}
