//! A question about a policy.
ghost use Rattle.std.specs.Prelude.{◌≡◌};
ghost use Rattle.std.specs.Option.{option_copied};
ghost use Rattle.opc_answers.specs.Needed.{line_in, need_in, unit_in};
ghost use Rattle.opc_answers.specs.Questions.{logon_at, wanted_by};

use crate::needed::{is_logon, line_in, need_in, unit_in};
use crate::wanted::{Entered, Wanted};
use opc_names::class::Class;
use opc_names::level::Level;
use opc_names::name::{ConsoleName, Resource, UserId};
use opc_terms::fault::Fault;
use opc_terms::unit_kind::UnitKindAt;

/// The subject of a question: a command, with the kind of the unit that it names, or a level of access to a resource of
/// a class.
#[derive(Clone, Copy)]
pub enum About<'a> {
    Command {
        text: &'a str,
        kind: UnitKindAt,
    },
    Access {
        class: Class,
        resource: Resource,
        level: Level,
    },
}

/// The command that a text is, if it needs anything.
fn command_wanted(text: &str, kind: &UnitKindAt) -> Result<Option<Wanted>, Fault>
    ensures { result ≡ wanted_by (need_in text.now kind.now) (unit_in text.now kind.now) (line_in text.now) }
{
    let (unit, line) = (unit_in(text, kind), line_in(text));
    match need_in(text, *kind) {
        Ok(Some(need)) => Ok(Some(Wanted::Command(Entered { need, unit, line }))),
        Ok(None) => Ok(None),
        Err(fault) => Err(fault),
    }
}

/// The LOGON at this console.
fn logon_at(console: Option<&ConsoleName>) -> Result<Option<Wanted>, Fault>
    ensures { result ≡ logon_at (option_copied console.entry) }
{
    match console {
        Some(name) => Ok(Some(Wanted::Logon(*name))),
        None => Err(Fault::NoConsole),
    }
}

impl About<'_> {
    ghost use Rattle.opc_answers.specs.Questions.{wanted_of};

    /// What the subject needs at a console, if anything. Only for a LOGON does this depend on the console.
    pub fn wanted(&self, console: Option<&ConsoleName>) -> Result<Option<Wanted>, Fault>
        ensures { result ≡ wanted_of self.now (option_copied console.entry) }
    {
        match *self {
            About::Command { text, .. } if is_logon(text) => logon_at(console),
            About::Command { text, kind } => command_wanted(text, &kind),
            About::Access {
                class,
                resource,
                level,
            } => Ok(Some(Wanted::Access {
                class,
                resource,
                level,
            })),
        }
    }
}

/// Whether a user, or nobody, may, and why, with the level that is held behind each pattern or without; or who may,
/// only those or everybody.
#[derive(Clone, Copy)]
pub enum Asks {
    Why { actor: Option<UserId>, levels: bool },
    Who { allowed: bool },
}

/// A question about a policy, at a console if one is named.
#[derive(Clone, Copy)]
pub struct Question<'a> {
    pub about: About<'a>,
    pub console: Option<ConsoleName>,
    pub asks: Asks,
}
