//! The codes of the account, and how a query names some of them.
ghost use Rattle.std.specs.Prelude.{◌≡◌, MatchOption, false, true};
ghost use Rattle.std.specs.List.{list_any};
ghost use Rattle.opc_account.specs.Codes.{are_known, before_star, has_star, is_among, is_known, is_like};

/// The codes of the faults, and that of what only a warning let pass.
const CODES: [&str; 42] = [
    "E01", "E02", "E03", "E04", "E05", "E06", "E10", "E11", "E12", "E13", "E14", "E15", "E16",
    "E17", "E20", "E21", "E30", "E31", "E32", "E33", "E34", "E35", "E36", "E37", "E38", "E39",
    "E40", "E41", "E42", "E45", "E50", "E51", "E52", "E53", "E55", "E56", "E57", "E60", "E90",
    "E91", "E92", "WARN",
];

/// What stands before a `*` at the end, if there is one.
fn before_star(wanted: &str) -> Option<&str>
    ensures { MatchOption result (has_star wanted.now ≡ false) (λ start. (has_star wanted.now ≡ true)
        × (start.now ≡ before_star wanted.now)) }
{
    wanted.strip_suffix("*")
}

/// Whether a code is the requested one or, if that ends in a `*`, begins like it.
fn is_like(wanted: &str, code: &str) -> bool
    ensures { result ≡ is_like wanted.now code.now }
{
    match before_star(wanted) {
        Some(start) => code.as_bytes().starts_with(start.as_bytes()),
        None => code == wanted,
    }
}

fn has_like(codes: &[&str], wanted: &str) -> bool
    ensures { result ≡ list_any (λ code. is_like wanted.now code.now) codes.now }
{
    codes.iter().any(|code| is_like(wanted, code))
}

/// Whether there is such a code. A `*` alone is none.
fn is_known(wanted: &str) -> bool
    ensures { result ≡ is_known wanted.now }
{
    wanted.len() > 1 && has_like(&CODES, wanted)
}

/// Whether a text is codes with commas between them, each of which exists.
pub fn are_known(text: &str) -> bool
    ensures { result ≡ are_known text.now }
{
    text.split(',').all(is_known)
}

/// Whether a code is among those of a text.
pub fn is_among(text: &str, code: &str) -> bool
    ensures { result ≡ is_among text.now code.now }
{
    text.split(',').any(|wanted| is_like(wanted, code))
}
