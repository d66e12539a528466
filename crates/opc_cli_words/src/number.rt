//! Numbers among the arguments of the command line.
ghost use Rattle.std.specs.Prelude.{◌≡◌, ◌<◌};
ghost use Rattle.std.specs.Char.{is_ascii_digit};
ghost use Rattle.std.specs.List.{list_all};
ghost use Rattle.opc_cli_words.specs.Numbers.{number_between};

fn are_digits(bytes: &[u8]) -> bool
    ensures { result ≡ list_all is_ascii_digit bytes.now }
{
    bytes.iter().all(|c| c.is_ascii_digit())
}

/// The number that a text of decimal digits is, within these limits. Leading zeros are accepted.
pub(crate) fn number_between(text: &str, least: u64, most: u64) -> Option<u64>
    ensures { result ≡ number_between least most text.now }
{
    if text.is_empty() || !are_digits(text.as_bytes()) {
        return None;
    }
    match text.parse::<u64>() {
        Ok(number) if least <= number && number <= most => Some(number),
        // The number is outside the limits, or does not fit.
        _ => None,
    }
}
