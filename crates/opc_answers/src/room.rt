//! What the rows of a policy make: a policy, its users with their groups, and a board with its consoles.
ghost use Rattle.std.specs.Prelude.{◌≡◌, ◌≢◌, [], IfErr, IfOk, OnOk, Ok, Err};
ghost use Rattle.std.specs.BTreeMap.{values};
ghost use Rattle.opc_policy_members.specs.Stored.{AreById};
ghost use Rattle.opc_machine.specs.Bootstrap.{bootstrapped, console_after, consoles_after};
ghost use Rattle.opc_state.specs.State.{empty};
ghost use Rattle.opc_terms.specs.declared.fault.Fault.TheVariants as why;
ghost use Rattle.opc_answers.specs.Made.{members_of, state_of, user_after, users_after};

use crate::members::{UserWithGroups, connects_made, members_made};
use opc_board::board::{Board, BoardRows};
use opc_names::name::UserId;
use opc_policy_members::policy::Policy;
use opc_policy_members::row::Row;
use opc_policy_members::user::User;
use opc_rows::Rows;
use opc_terms::fault::Fault;
use std::alloc::{AllocError, Global};
use std::collections::BTreeMap;

/// A policy, its users in order with their groups, and a board with its consoles: by which a question is answered.
#[derive(Drop)]
pub struct Room {
    pub policy: Policy,
    pub members: Rows<UserWithGroups>,
    pub board: Board,
}

/// Keeps the user of a row, in the place of one with its id.
#[tactic(auto, using(crate::proofs::Making::kept_by_id, crate::proofs::Making::kept_users))]
fn keep_user(users: &mut BTreeMap<UserId, User>, row: &Row) -> Result<(), AllocError>
    requires { AreById users.old.entries }
    ensures by_id { OnOk result (AreById users.new.entries) }
    ensures users { OnOk result (values users.new ≡ user_after row.now (values users.old)) }
{
    match *row {
        Row::User(user) => {
            users.insert(user.id, user)?;
            Ok(())
        }
        // No other row defines a user.
        _ => Ok(()),
    }
}

fn users_in_order(alloc: Global, by_id: &BTreeMap<UserId, User>) -> Result<Vec<User>, AllocError>
    ensures { IfOk result (λ users. users.items ≡ values by_id.now) }
{
    by_id.values().copied().collect(alloc)
}

/// The users that rows make, in the order of their ids.
fn users_made(alloc: Global, rows: &[Row]) -> Result<Vec<User>, AllocError>
    ensures { IfOk result (λ users. users.items ≡ users_after rows.now []) }
{
    let mut by_id = BTreeMap::new(alloc);
    for row in rows {
        keep_user(&mut by_id, row)?;
    }
    users_in_order(alloc, &by_id)
}

/// A board with nothing on it.
fn empty_board(alloc: Global) -> Board
    ensures { result ≡ empty.board }
{
    let rows = BoardRows {
        units: Rows::new(alloc),
        devices: Rows::new(alloc),
        consoles: Rows::new(alloc),
        replies: Rows::new(alloc),
        answered: Rows::new(alloc),
        log: Rows::new(alloc),
        messages: Rows::new(alloc),
        halted: false,
    };
    match Board::of(rows) {
        Ok(board) => board,
        // Without rows, none is out of order.
        Err(_) => unreachable!(),
    }
}

fn define_console(board: &mut Board, row: &Row) -> Result<(), AllocError>
    ensures { OnOk result (board.new ≡ console_after row.now board.old) }
{
    match *row {
        Row::Console { name, auth, mode } => board.define_console(name, auth, mode),
        // No other row defines a console.
        _ => Ok(()),
    }
}

/// The board with the consoles that rows make.
fn board_made(alloc: Global, rows: &[Row]) -> Result<Board, AllocError>
    ensures { IfOk result (λ board. board ≡ consoles_after rows.now empty.board) }
{
    let mut board = empty_board(alloc);
    for row in rows {
        define_console(&mut board, row)?;
    }
    Ok(board)
}

impl Room {
    /// What rows make, as the first policy of new tables.
    pub fn of_rows(alloc: Global, rows: &[Row]) -> Result<Self, Fault>
        ensures state { IfOk result (λ room. bootstrapped rows.now empty ≡ Ok (state_of room.policy room.board)) }
        ensures members { IfOk result (λ room. room.members ≡ members_of room.policy) }
        ensures fault { IfErr result (λ fault. fault ≢ why.NoMemory → bootstrapped rows.now empty ≡ Err fault) }
    {
        let policy = Policy::of_rows(alloc, rows)?;
        let users = users_made(alloc, rows)?;
        let connects = connects_made(alloc, rows)?;
        let members = members_made(alloc, users.as_slice(), connects.as_slice())?;
        let board = board_made(alloc, rows)?;
        Ok(Room {
            policy,
            members,
            board,
        })
    }
}
