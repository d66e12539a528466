//! Where users can log on: at each console, or at the one that is named.
ghost use Rattle.std.specs.Prelude.{◌≡◌, IfOk, map};
ghost use Rattle.opc_answers.specs.Logons.{door_of};
ghost use Rattle.opc_answers.specs.Doors.{AreDoorsAt, no_logon_by};
ghost use Rattle.opc_answers.specs.Who.{unless_on};

use crate::lines::{UserLine, is_denied};
use crate::logons::{Door, NoLogon, nowhere, off_for};
use crate::members::UserWithGroups;
use crate::who::AskedAt;
use opc_board::board::Board;
use opc_board::rows::ConsoleRow;
use opc_policy_members::policy::Policy;
use std::alloc::{AllocError, Global};

/// The line of a user, with why the user cannot log on, unless it denies anyway.
pub fn unless_on(no_logon: Option<NoLogon>, line: UserLine) -> UserLine
    ensures { result ≡ unless_on no_logon line }
{
    if is_denied(&line.ruling) {
        return line;
    }
    UserLine {
        id: line.id,
        ruling: line.ruling,
        held: line.held,
        instead: off_for(no_logon),
    }
}

/// Where users can log on: at the consoles of the board, or at one of them; or that does not count.
#[derive(Drop)]
pub enum Doors<'a> {
    All(Vec<Door<'a>>),
    One(Door<'a>),
    Uncounted,
}

impl Doors<'_> {
    /// Why a user cannot log on there.
    pub fn no_logon(&self, member: &UserWithGroups) -> Option<NoLogon>
        ensures { result ≡ no_logon_by self.now member.now }
    {
        match self {
            Doors::All(doors) => nowhere(member, doors.as_slice()),
            Doors::One(door) => door.no_logon(member),
            Doors::Uncounted => None,
        }
    }

    /// The line of a user, with why the user cannot log on. Whom it denies anyway is not tried at each door.
    pub fn unless_on(&self, member: &UserWithGroups, line: UserLine) -> UserLine
        ensures { result ≡ unless_on (no_logon_by self.now member.now) line }
    {
        if is_denied(&line.ruling) {
            return line;
        }
        unless_on(self.no_logon(member), line)
    }
}

fn all_doors<'a>(
    alloc: Global,
    policy: &'a Policy,
    consoles: &[ConsoleRow],
) -> Result<Vec<Door<'a>>, AllocError>
    ensures { IfOk result (λ doors. doors.items ≡ map (door_of policy.entry.now) consoles.now) }
{
    let mut doors = Vec::new(alloc);
    for console in consoles {
        doors.push(Door::of(policy, console))?;
    }
    Ok(doors)
}

/// Those that count for where the question is asked.
pub fn doors_at<'a>(
    alloc: Global,
    policy: &'a Policy,
    board: &Board,
    at: &AskedAt,
) -> Result<Doors<'a>, AllocError>
    ensures { IfOk result (λ doors. AreDoorsAt policy.entry.now board.now at.now doors) }
{
    match at {
        AskedAt::Everywhere => {
            let doors = all_doors(alloc, policy, board.rows().consoles.as_slice())?;
            Ok(Doors::All(doors))
        }
        AskedAt::OnBoard(console) => Ok(Doors::One(Door::of(policy, console))),
        AskedAt::Named(_) => Ok(Doors::Uncounted),
    }
}
