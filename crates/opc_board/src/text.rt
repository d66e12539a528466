//! Texts that the board keeps.
ghost use Rattle.std.specs.Prelude.{◌≡◌, IfOk};

use std::alloc::{AllocError, Global};
use std::marker::Model;

/// A text on the heap, which contracts see as its bytes.
#[derive(Drop)]
pub struct KeptText {
    text: String,
}

impl Model for KeptText {
    ghost use Rattle.std.specs.Prelude.{List, ℕ, string_bytes};

    ghost Value = { List ℕ };

    ghost view = { λ kept. string_bytes kept.text };
}

impl KeptText {
    /// A copy of a text.
    pub fn new(alloc: Global, text: &str) -> Result<Self, AllocError>
        ensures { IfOk result (λ kept. kept ≡ text.now) }
    {
        Ok(KeptText {
            text: String::from_str(alloc, text)?,
        })
    }

    /// The text.
    pub fn as_str(&self) -> &str
        ensures { result.now ≡ self.now }
    {
        self.text.as_str()
    }
}

impl From<String> for KeptText {
    ghost use Rattle.std.specs.Prelude.{◌≡◌, string_bytes};

    ghost from_gives = { λ text kept. kept ≡ string_bytes text };

    fn from(text: String) -> Self {
        KeptText { text }
    }
}
