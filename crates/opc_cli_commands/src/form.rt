//! The forms of commands, each with a line of it.
ghost use Rattle.std.specs.Prelude.{◌≡◌};
ghost use Rattle.opc_cli_commands.specs.Commands.{kind_of, line_of, shown_of};

use opc_names::name::UnitName;
use opc_terms::unit_kind::UnitKindAt;

/// A form of a command.
#[derive(Clone, Copy)]
pub enum CommandForm {
    /// A line of the form, which is shown as it stands.
    Plain(&'static str),
    /// The form as it is shown, and a line of it.
    Such(&'static str, &'static str),
    /// A line that names a started task.
    StartedTask(&'static str),
    /// A line that names a user's session.
    Session(&'static str),
}

impl CommandForm {
    /// What is shown of it.
    pub(crate) fn shown(self) -> &'static str
        ensures { result.now ≡ shown_of self }
    {
        match self {
            CommandForm::Plain(line)
            | CommandForm::StartedTask(line)
            | CommandForm::Session(line) => line,
            CommandForm::Such(shown, _) => shown,
        }
    }

    /// A line of it.
    pub(crate) fn line(self) -> &'static str
        ensures { result.now ≡ line_of self }
    {
        match self {
            CommandForm::Plain(line)
            | CommandForm::Such(_, line)
            | CommandForm::StartedTask(line)
            | CommandForm::Session(line) => line,
        }
    }

    /// The kind of the unit that the line names.
    pub(crate) fn kind(self) -> UnitKindAt
        ensures { result ≡ kind_of self }
    {
        match self {
            CommandForm::Plain(_) | CommandForm::Such(..) => UnitKindAt::Job,
            CommandForm::StartedTask(_) => match UnitName::read("MEMBER") {
                Ok(member) => UnitKindAt::Stc { member },
                // It is the name of a unit.
                Err(_) => unreachable!(),
            },
            CommandForm::Session(_) => UnitKindAt::Tsu,
        }
    }
}
