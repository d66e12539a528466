//! The line that a command asks for: what is said of it beside the command.
ghost use Rattle.std.specs.Prelude.{◌≡◌, IfOk, Some};
ghost use Rattle.opc_machine.specs.Machine.{is_warned};
ghost use Rattle.std.specs.Option.{option_copied};
ghost use Rattle.opc_answers.specs.Who.{doubt_of, line_decider, said_line, said_of, shows_by, with_line};

use crate::deciding::decider;
use crate::lines::{UserLine, is_denied};
use crate::logons::Instead;
use opc_names::class::Class;
use opc_policy::ruling::Ruling;
use opc_policy_members::policy::Policy;
use opc_policy_members::profile::Profile;
use opc_terms::need::Need;
use opc_terms::rule::Rule;
use std::alloc::AllocError;

/// What the line needs that a command asks for, and the profile that decides about it.
#[derive(Drop)]
pub struct Shows {
    pub need: Need,
    pub decided: Option<Profile>,
}

/// What is said of a command and of its line: the ruling of either, or that the line is hidden.
#[derive(Clone, Copy)]
pub enum Said {
    OfCommand,
    OfLine,
    Hidden,
}

/// Whether a warning alone lets something pass.
fn is_warned(rule: &Rule) -> bool
    ensures { result ≡ is_warned (Some rule.now) }
{
    matches!(rule, Rule::Profile { warned: true, .. })
}

/// How much is in doubt: a ruling of which nothing is known is more so than one by a warning.
fn doubt_of(ruling: &Option<Ruling>) -> u8
    ensures { result ≡ doubt_of ruling.now }
{
    match ruling {
        None => 2,
        Some(ruling) if is_warned(&ruling.rule()) => 1,
        Some(_) => 0,
    }
}

/// Which of two rulings is said: of two that say as much, the line's.
pub fn said_of(command: &Option<Ruling>, line: &Option<Ruling>) -> Said
    ensures { result ≡ said_of command.now line.now }
{
    if is_denied(command) {
        return Said::OfCommand;
    }
    if is_denied(line) {
        return Said::Hidden;
    }
    if doubt_of(line) < doubt_of(command) {
        return Said::OfCommand;
    }
    Said::OfLine
}

fn said_line(said: Said, command: UserLine, line: UserLine) -> UserLine
    ensures { result ≡ said_line said command line }
{
    match said {
        Said::OfCommand => command,
        Said::OfLine => line,
        Said::Hidden => UserLine {
            id: line.id,
            ruling: line.ruling,
            held: line.held,
            instead: Some(Instead::Hidden),
        },
    }
}

/// What is said of a user by two lines: that the user cannot log on comes before both.
pub(crate) fn with_line(command: UserLine, line: UserLine) -> UserLine
    ensures { result ≡ with_line command line }
{
    if command.instead.is_some() {
        return command;
    }
    said_line(said_of(&command.ruling, &line.ruling), command, line)
}

/// With the profile that decides about it.
pub(crate) fn shows_by(policy: &Policy, line: Option<Need>) -> Result<Option<Shows>, AllocError>
    ensures { IfOk result (λ shows. shows ≡ shows_by policy.now line) }
{
    let Some(need) = line else {
        return Ok(None);
    };
    let decided = decider(policy, Class::Opercmds, &need.resource)?;
    Ok(Some(Shows { need, decided }))
}

/// The profile that decides about the line, if one does.
pub(crate) fn line_decider(shows: &Option<Shows>) -> Option<&Profile>
    ensures { option_copied result ≡ line_decider shows.entry.now }
{
    match shows {
        Some(shows) => shows.decided.as_ref(),
        None => None,
    }
}
