//! How long ago, among the arguments of the command line.
ghost use Rattle.std.specs.Prelude.{◌≡◌, ◌≤◌, ◌-◌, MatchOption, false, length, nat_eq, take, true};
ghost use Rattle.std.specs.List.{ends_with};
ghost use Rattle.opc_cli_words.specs.Spans.{in_unit, seconds_ago, span_of};

use crate::number::number_between;

/// What stands before the last letter, if it is this one.
fn before_last<'a>(text: &'a str, letter: &str) -> Option<&'a str>
    requires { length letter.now ≡ 1 }
    ensures { MatchOption result (ends_with nat_eq text.now letter.now ≡ false)
        (λ start. (ends_with nat_eq text.now letter.now ≡ true) × (start.now ≡ take (length text.now - 1) text.now)) }
{
    text.strip_suffix(letter)
}

/// A number of units of this many seconds, with the letter of the unit after it.
fn in_unit(text: &str, letter: &str, seconds: u64) -> Option<u64>
    requires one { length letter.now ≡ 1 }
    requires few { seconds ≤ 86_400 }
    ensures { result ≡ in_unit letter.now seconds text.now }
{
    let number = before_last(text, letter)?;
    match number_between(number, 0, 999_999_999) {
        Some(number) => Some(number * seconds),
        None => None,
    }
}

/// A number of seconds, minutes, hours or days, in seconds.
fn span_of(text: &str) -> Option<u64>
    ensures { result ≡ span_of text.now }
{
    let minutes = in_unit(text, "m", 60);
    let hours = in_unit(text, "h", 3_600);
    let days = in_unit(text, "d", 86_400);
    in_unit(text, "s", 1).or(minutes.or(hours.or(days)))
}

/// How many seconds ago, which `-` begins.
pub(crate) fn seconds_ago(text: &str) -> Option<u64>
    ensures { result ≡ seconds_ago text.now }
{
    span_of(text.strip_prefix("-")?)
}
