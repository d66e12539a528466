//! Texts in upper case that are kept in place.
ghost use Rattle.std.specs.Prelude.{◌≡◌, ◌≤◌, length};
ghost use Rattle.std.specs.Str.{IsAscii};
ghost use Rattle.opc_reader_commands.specs.Stretches.{folded};

use std::marker::Model;
use std::str;

const ROOM: usize = 126;

/// An ASCII text of a line in upper case.
#[derive(Drop)]
pub struct Folded {
    room: [u8; ROOM],
    len: usize,
}

impl Model for Folded {
    ghost use Rattle.std.specs.Prelude.{List, ℕ, take, ◌≤◌};
    ghost use Rattle.std.specs.Str.{IsAscii};

    ghost Value = { List ℕ };

    ghost view = { λ f. take f.len f.room };

    ghost invariant = { λ f. (f.len ≤ 126) × IsAscii (take f.len f.room) };
}

impl Folded {
    pub fn of(text: &str) -> Self
        requires fits { length text.now ≤ 126 }
        requires ascii { IsAscii text.now }
        ensures { result ≡ folded text.now }
    {
        let mut room = [0; ROOM];
        let prefix = &mut room[..text.len()];
        prefix.copy_from_slice(text.as_bytes());
        prefix.make_ascii_uppercase();
        Folded {
            room,
            len: text.len(),
        }
    }

    pub fn as_str(&self) -> &str
        ensures { result.now ≡ self.now }
    {
        match str::from_utf8(&self.room[..self.len]) {
            Ok(text) => text,
            // Folding changes ASCII letters alone, so the text stays UTF-8.
            Err(_) => unreachable!(),
        }
    }
}
