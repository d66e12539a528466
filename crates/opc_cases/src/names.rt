//! Cases of names, patterns and their order, levels, classes, command groups and authority.
//!
//! Each case is a subject and its operands; it is printed with the answer after it. The subjects:
//!
//! - `user`, `unit`, `group`, `console`, `volume`, `device`, `resource`, `pattern` TEXT: the name with this text, or
//!   the first fault of the text.
//! - `user-order` USER USER, `pattern-order` PATTERN PATTERN: how their texts compare, and whether they are equal.
//! - `shown` USER: the name on the right of ten columns, and as `Debug` shows it.
//! - `with` RESOURCE KIND NAME ..: the resource with each name as one more qualifier, by kind `unit`, `user` or
//!   `console`.
//! - `level`, `class`, `command-group`, `authority` TEXT: what has this text, and how it is written.
//! - `includes` LEVEL and `enters` AUTHORITY: the levels that it includes, the command groups that it enters.
//! - `covers` PATTERN NAME: whether it does; `covers-1000`: how often of a thousand times.
//! - `ordered` PATTERN ..: whether each comes before those after it, and before no other.
//! - `key` and `head` PATTERN: the bytes of its sort key in hexadecimal, and its head.
//! - `all-covers` and `all-before`: the comparisons of `exhaustive`.
mod exhaustive;
mod patterns;
mod plain;
mod spellings;
mod texts;

use crate::words::first_word;
use anyhow::{Result, anyhow};
use opc_names::auth::Auth;
use opc_names::class::Class;
use opc_names::group::Group;
use opc_names::level::Level;
use opc_names::name::{
    ConsoleName, Device, GroupName, Pattern, PatternKind, Resource, UnitName, UserId, UserKind,
    Volume,
};
use std::alloc::Global;

/// The answer to a case. An unknown subject ends the program.
pub fn answer(alloc: Global, case: &str) -> Result<String> {
    let (subject, rest) = first_word(case);
    match subject {
        "user" => texts::read(alloc, UserId::read(rest)),
        "unit" => texts::read(alloc, UnitName::read(rest)),
        "group" => texts::read(alloc, GroupName::read(rest)),
        "console" => texts::read(alloc, ConsoleName::read(rest)),
        "volume" => texts::read(alloc, Volume::read(rest)),
        "device" => texts::read(alloc, Device::read(rest)),
        "resource" => texts::read(alloc, Resource::read(rest)),
        "pattern" => texts::read(alloc, Pattern::read(rest)),
        "user-order" => texts::compare::<UserKind, 8>(alloc, rest),
        "pattern-order" => texts::compare::<PatternKind, 39>(alloc, rest),
        "shown" => texts::shown(alloc, &UserId::read(rest)?),
        "with" => texts::with(alloc, rest),
        "level" => spellings::read(alloc, Level::read(rest)),
        "class" => spellings::read(alloc, Class::read(rest)),
        "command-group" => spellings::read(alloc, Group::read(rest)),
        "authority" => spellings::read(alloc, Auth::read(rest)),
        "includes" => spellings::includes(alloc, rest),
        "enters" => spellings::enters(alloc, rest),
        "covers" => patterns::covers(alloc, rest),
        "covers-1000" => patterns::covers_often(alloc, rest),
        "ordered" => patterns::ordered(alloc, rest),
        "key" => patterns::key(alloc, &Pattern::read(rest)?),
        "head" => patterns::head(alloc, &Pattern::read(rest)?),
        "all-covers" => exhaustive::covers(alloc, rest),
        "all-before" => exhaustive::before(alloc, rest),
        _ => Err(anyhow!("no subject: {subject}")),
    }
}
