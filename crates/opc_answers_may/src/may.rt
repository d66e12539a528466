//! What one user may: of whom it is asked, and where.
ghost use Rattle.std.specs.Prelude.{◌≡◌, ◌≢◌, IfErr, IfOk, Ok, Err, Some};
ghost use Rattle.std.specs.Option.{option_copied};
ghost use Rattle.opc_terms.specs.declared.fault.Fault.TheVariants as why;
ghost use Rattle.opc_policy_members.specs.Members.{user_of};
ghost use Rattle.opc_answers.specs.Made.{members_of, state_of};
ghost use Rattle.opc_answers.specs.Who.{no_logon_at};
ghost use Rattle.opc_answers_may.specs.May.{may_by, may_in, may_of, member_by, place_in};

use opc_answers::doors::doors_at;
use opc_answers::logons::NoLogon;
use opc_answers::members::UserWithGroups;
use opc_answers::room::Room;
use opc_answers::who::{AskedAt, console_of};
use opc_board::board::Board;
use opc_names::name::{ConsoleName, UserId};
use opc_policy_members::policy::Policy;
use opc_policy_members::row::Row;
use opc_rows::Rows;
use opc_terms::fault::{Fault, Subject};
use std::alloc::{AllocError, Global};

/// A question what one user may: of this user, wherever users are logged on or at a console of the board; and why the
/// user cannot log on there.
#[derive(Drop)]
pub struct May {
    pub room: Room,
    pub member: UserWithGroups,
    pub at: AskedAt,
    pub no_logon: Option<NoLogon>,
}

/// A stored user, with the groups of the user.
fn member_in(alloc: Global, policy: &Policy, id: &UserId) -> Result<UserWithGroups, Fault>
    ensures ok { IfOk result (λ member. member_by policy.now id.now (user_of policy.now.users id.now) ≡ Ok member) }
    ensures fault { IfErr result (λ fault. fault ≢ why.NoMemory
        → member_by policy.now id.now (user_of policy.now.users id.now) ≡ Err fault) }
{
    let Some(user) = policy.users.get(id) else {
        return Err(Fault::Missing(Subject::of(id)));
    };
    let groups = policy.connects.groups_of(alloc, &user.id)?;
    Ok(UserWithGroups {
        user: *user,
        groups: Rows::of(groups),
    })
}

/// Everywhere, or at the console that is named, which must be on the board.
#[tactic(auto, using(opc_answers::proofs::Placed::on_board_so))]
fn place_in(board: &Board, console: Option<&ConsoleName>) -> Result<AskedAt, Fault>
    ensures { result ≡ place_in board.now (option_copied console.entry) }
{
    let Some(name) = console else {
        return Ok(AskedAt::Everywhere);
    };
    match console_of(board, name) {
        Some(console) => Ok(AskedAt::OnBoard(*console)),
        None => Err(Fault::NoConsole),
    }
}

/// Why the user cannot log on there.
pub(crate) fn no_logon_at(
    alloc: Global,
    room: &Room,
    at: &AskedAt,
    member: &UserWithGroups,
) -> Result<Option<NoLogon>, AllocError>
    ensures { IfOk result (λ off. off ≡ no_logon_at room.now.policy room.now.board at.now member.now) }
{
    let doors = doors_at(alloc, &room.policy, &room.board, at)?;
    Ok(doors.no_logon(member))
}

fn may_by(
    alloc: Global,
    room: Room,
    member: UserWithGroups,
    console: Option<&ConsoleName>,
) -> Result<May, Fault>
    requires { room.members ≡ members_of room.policy }
    ensures ok { IfOk result (λ may. may_by room.policy room.board (option_copied console.entry) (Ok member)
        ≡ Ok may) }
    ensures fault { IfErr result (λ fault. fault ≢ why.NoMemory
        → may_by room.policy room.board (option_copied console.entry) (Ok member) ≡ Err fault) }
{
    let at = place_in(&room.board, console)?;
    let no_logon = no_logon_at(alloc, &room, &at, &member)?;
    Ok(May {
        room,
        member,
        at,
        no_logon,
    })
}

fn may_in(
    alloc: Global,
    room: Room,
    id: &UserId,
    console: Option<&ConsoleName>,
) -> Result<May, Fault>
    requires { room.members ≡ members_of room.policy }
    ensures ok { IfOk result (λ may. may_in (state_of room.policy room.board) id.now (option_copied console.entry)
        ≡ Ok may) }
    ensures fault { IfErr result (λ fault. fault ≢ why.NoMemory
        → may_in (state_of room.policy room.board) id.now (option_copied console.entry) ≡ Err fault) }
{
    let member = member_in(alloc, &room.policy, id)?;
    may_by(alloc, room, member, console)
}

/// What one user may, by the rows of a policy, at a console if one is named.
pub fn may_of(
    alloc: Global,
    rows: &[Row],
    id: &UserId,
    console: Option<&ConsoleName>,
) -> Result<May, Fault>
    ensures ok { IfOk result (λ may. may_of rows.now id.now (option_copied console.entry) ≡ Ok may) }
    ensures fault { IfErr result (λ fault. fault ≢ why.NoMemory
        → may_of rows.now id.now (option_copied console.entry) ≡ Err fault) }
{
    let room = Room::of_rows(alloc, rows)?;
    may_in(alloc, room, id, console)
}
