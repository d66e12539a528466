//! Users, each with why the user can log on nowhere.
ghost use Rattle.std.specs.Prelude.{◌≡◌, IfOk, map};
ghost use Rattle.opc_answers.specs.declared.who.AskedAt.TheVariants.{Everywhere};
ghost use Rattle.opc_answers.specs.Doors.{AreDoorsAt};
ghost use Rattle.opc_answers.specs.Made.{members_of};
ghost use Rattle.opc_answers_sheet.specs.Callers.{caller_of, callers_of};
ghost use Rattle.opc_answers_sheet.specs.Callers.{Caller as TheCaller};

use crate::marks::marks_of;
use opc_answers::doors::{Doors, doors_at};
use opc_answers::logons::NoLogon;
use opc_answers::members::UserWithGroups;
use opc_answers::room::Room;
use opc_answers::who::AskedAt;
use std::alloc::{AllocError, Global};
use std::marker::Model;

/// A user, and why the user can log on nowhere. That is asked once for each user, since a page has many rows; so are the
/// marks of the names by which an access list may name the user.
#[derive(Drop)]
pub struct Caller<'a> {
    pub(crate) member: &'a UserWithGroups,
    pub(crate) no_logon: Option<NoLogon>,
    marks: u64,
}

impl<'a> Model for Caller<'a> {
    ghost use Rattle.std.specs.Prelude.{◌≡◌};
    ghost use Rattle.opc_answers_sheet.specs.Callers.{Caller as TheCaller};
    ghost use Rattle.opc_answers_sheet.specs.Marks.{marks_of};

    ghost Value = { TheCaller };

    ghost view = { λ c. record { member = c.member.now; no_logon = c.no_logon } };

    ghost invariant = { λ c. c.marks ≡ marks_of c.member.now };
}

impl<'a> Caller<'a> {
    ghost use Rattle.opc_answers_sheet.specs.Marks.{marks_of};

    /// The marks of the user and of the user's groups.
    pub(crate) fn marks(&self) -> u64
        ensures { result ≡ marks_of self.now.member }
    {
        self.marks
    }
}

fn caller_of<'a>(room: &Room, doors: &Doors<'_>, member: &'a UserWithGroups) -> Caller<'a>
    requires { AreDoorsAt room.now.policy room.now.board Everywhere doors.now }
    ensures { result ≡ caller_of room.now.policy room.now.board member.entry.now }
{
    let no_logon = doors.no_logon(member);
    let marks = marks_of(member);
    Caller {
        member,
        no_logon,
        marks,
    }
}

fn callers_by<'a>(
    alloc: Global,
    room: &'a Room,
    doors: &Doors<'_>,
) -> Result<Vec<Caller<'a>>, AllocError>
    requires { AreDoorsAt room.now.policy room.now.board Everywhere doors.now }
    ensures { IfOk result (λ callers. callers.items
        ≡ map (caller_of room.entry.now.policy room.entry.now.board) room.entry.now.members) }
{
    let mut callers = Vec::new(alloc);
    for member in room.members.as_slice() {
        callers.push(caller_of(room, doors, member))?;
    }
    Ok(callers)
}

/// The users of a room.
pub fn callers_in<'a>(alloc: Global, room: &'a Room) -> Result<Vec<Caller<'a>>, AllocError>
    requires { room.now.members ≡ members_of room.now.policy }
    ensures { IfOk result (λ callers. callers.items ≡ callers_of room.entry.now.policy room.entry.now.board) }
{
    let doors = doors_at(alloc, &room.policy, &room.board, &AskedAt::Everywhere)?;
    callers_by(alloc, room, &doors)
}
