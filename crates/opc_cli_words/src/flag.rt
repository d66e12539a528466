//! Options without a value.
ghost use Rattle.std.specs.Prelude.{◌≡◌, codes};
ghost use Rattle.clap.specs.Matches.{first_value, found_of};
ghost use Rattle.opc_cli_words.specs.Options.{form_of, is_set};

use clap::ArgMatches;
use opc_check::form::Form;

/// Whether a flag is given.
pub(crate) fn is_set(chosen: &ArgMatches<'_>, name: &str) -> bool
    ensures { result ≡ is_set (first_value (found_of chosen.now)) name.now }
{
    match chosen.get_str(name) {
        Some("true") => true,
        // `clap` gives a flag no other value.
        _ => false,
    }
}

/// Whether the answer is text or JSON.
pub(crate) fn form_in(chosen: &ArgMatches<'_>) -> Form
    ensures { result ≡ form_of (is_set (first_value (found_of chosen.now)) (codes "json")) }
{
    if is_set(chosen, "json") {
        Form::Json
    } else {
        Form::Text
    }
}
