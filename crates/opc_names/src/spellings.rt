//! Tables of spellings, in which texts are looked up.
ghost use Rattle.std.specs.Prelude.{◌≡◌, map};
ghost use Rattle.opc_names.specs.Spellings.{lookup};

/// What a table has for a text: the first entry with this spelling. Many spellings are a table, not a match: in the
/// proof, each arm of a match on texts assumes that no arm before it matched, so the proof grows with the square of the
/// arms.
pub fn spelled_in<T: Copy>(table: &[(&str, T)], text: &str) -> Option<T>
    ensures { result ≡ lookup (map (λ row. (row.0.now, row.1)) table.now) text.now }
{
    match table {
        [] => None,
        [(spelling, value), rest @ ..] => {
            if text == *spelling {
                Some(*value)
            } else {
                spelled_in(rest, text)
            }
        }
    }
}
