//! Forms about which is asked alike.
ghost use Rattle.std.specs.Prelude.{◌≡◌};
ghost use Rattle.opc_policy_deciders.specs.Forms.{asked};
ghost use Rattle.opc_policy_deciders.specs.Kinds.{is_of_kind};

use crate::form::ResourceForm;
use opc_names::level::Level;

/// The level that is asked about, and whether showing a line of an answer asks for it. What a profile rules on a user
/// depends on the level alone.
#[derive(Clone, Copy)]
pub struct AskedKind {
    pub level: Level,
    pub is_line: bool,
}

/// Commands that need READ, lines of answers, commands that need UPDATE, and commands that need CONTROL.
pub const KINDS: [AskedKind; 4] = [
    AskedKind {
        level: Level::Read,
        is_line: false,
    },
    AskedKind {
        level: Level::Read,
        is_line: true,
    },
    AskedKind {
        level: Level::Update,
        is_line: false,
    },
    AskedKind {
        level: Level::Control,
        is_line: false,
    },
];

/// Whether a form is of a kind.
pub fn is_of_kind(kind: &AskedKind, form: &ResourceForm) -> bool
    ensures { result ≡ is_of_kind kind.now (asked form.now) }
{
    let is_of_class = if kind.is_line {
        form.is_line
    } else {
        !form.is_line
    };
    kind.level.includes(form.level) && form.level.includes(kind.level) && is_of_class
}
