//! Unsigned numbers.
ghost use Rattle.std.specs.Prelude.{◌≡◌, ◌≤◌};
ghost use Rattle.std.specs.Char.{is_ascii_digit};
ghost use Rattle.std.specs.List.{list_all};
ghost use Rattle.opc_http_requests.specs.Framing.{number_in};

fn are_digits(bytes: &[u8]) -> bool
    ensures { result ≡ list_all is_ascii_digit bytes.now }
{
    bytes.iter().all(|c| c.is_ascii_digit())
}

/// The number that a text is, of one decimal digit or more, and at most this many.
pub fn number_in(text: &str, most: usize) -> Option<u64>
    requires { most ≤ 18 }
    ensures { result ≡ number_in most text.now }
{
    if text.is_empty() || !are_digits(text.as_bytes()) || text.len() > most {
        return None;
    }
    text.parse::<u64>().ok()
}
