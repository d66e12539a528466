//! The subject of a question.
ghost use Rattle.std.specs.Prelude.{◌≡◌};
ghost use Rattle.opc_answers.specs.Who.{line_wanted};

use crate::logons::resource_of;
use opc_names::class::Class;
use opc_names::level::Level;
use opc_names::name::{ConsoleName, Resource};
use opc_terms::need::Need;
use opc_terms::unit_kind::UnitKindAt;

/// A command that is asked about: what it needs; what the unit that it names was taken for, if the need depends on
/// that; and what the line needs that it asks for, if it asks for one.
#[derive(Clone, Copy)]
pub struct Entered {
    pub need: Need,
    pub unit: Option<UnitKindAt>,
    pub line: Option<Need>,
}

/// The subject of a question: a command, a LOGON at the console of this name, or a level of access to a resource of a
/// class.
#[derive(Clone, Copy)]
pub enum Wanted {
    Command(Entered),
    Logon(ConsoleName),
    Access {
        class: Class,
        resource: Resource,
        level: Level,
    },
}

impl Wanted {
    ghost use Rattle.opc_answers.specs.Who.{class_of, level_of, line_of_wanted, resource_of};

    /// The class whose profiles decide. The resources of commands are in OPERCMDS, and a LOGON needs READ of class
    /// CONSOLE on the name of its console.
    pub fn class(&self) -> Class
        ensures { result ≡ class_of self.now }
    {
        match self {
            Wanted::Command(_) => Class::Opercmds,
            Wanted::Logon(_) => Class::Console,
            Wanted::Access { class, .. } => *class,
        }
    }

    /// The resource.
    pub fn resource(&self) -> Resource
        ensures { result ≡ resource_of self.now }
    {
        match self {
            Wanted::Command(entered) => entered.need.resource,
            Wanted::Logon(name) => resource_of(name),
            Wanted::Access { resource, .. } => *resource,
        }
    }

    /// What the line needs that a command asks for, if it asks for one.
    pub(crate) fn line(&self) -> Option<Need>
        ensures { result ≡ line_of_wanted self.now }
    {
        match self {
            Wanted::Command(entered) => entered.line,
            Wanted::Logon(_) | Wanted::Access { .. } => None,
        }
    }

    /// The level that is needed.
    pub fn level(&self) -> Level
        ensures { result ≡ level_of self.now }
    {
        match self {
            Wanted::Command(entered) => entered.need.level,
            Wanted::Logon(_) => Level::Read,
            Wanted::Access { level, .. } => *level,
        }
    }
}

/// The line that a command asks for, as a question of its own.
pub(crate) fn line_wanted(need: &Need) -> Wanted
    ensures { result ≡ line_wanted need.now }
{
    Wanted::Command(Entered {
        need: *need,
        unit: None,
        line: None,
    })
}
