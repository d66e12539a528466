//! The policies that are compared: each is read, and its rows are applied, before anything is printed.
ghost use Rattle.opc_state.specs.Changes.{IsKept};
ghost use Rattle.opc_state.specs.State.{State};
ghost use Rattle.opc_cli_questions.specs.Sides.{IsMade, IsSideOf, IsSideOn, IsSideRead};

use crate::openings::Openings;
use crate::policy_file::{PolicyText, read_rows_at};
use crate::refusals::refused;
use opc_answers::room::Room;
use opc_cli_failures::failure::{Failure, Place};
use opc_policy_members::row::Row;
use opc_state::tables::Tables;
use opc_terms::fault::Fault;
use std::alloc::Global;

/// A policy that is compared: its rows, and what they make.
#[derive(Drop)]
pub struct PolicySide {
    pub rows: Vec<Row>,
    pub room: Room,
}

/// The policy file at a path.
pub fn side_at<F: Openings>(alloc: Global, files: &F, path: &str) -> Result<PolicySide, Failure>
    ensures { IsSideRead (F.holds files.now path.now) result }
{
    let PolicyText { bytes, rows } = read_rows_at(alloc, files, path)?;
    match Room::of_rows(alloc, &rows) {
        Ok(room) => Ok(PolicySide { rows, room }),
        Err(fault) => Err(refused(alloc, Place::PolicyFile, &bytes, &[], &rows, fault)),
    }
}

/// The policy of these rows, which can be loaded.
pub fn side_of(alloc: Global, rows: Vec<Row>) -> Result<PolicySide, Failure>
    ensures { IsSideOf rows.items result }
{
    match Room::of_rows(alloc, &rows) {
        Ok(room) => Ok(PolicySide { rows, room }),
        Err(fault) => Err(Failure::from(fault)),
    }
}

/// The policy of tables, which are not changed.
pub fn side_on<T: Tables>(alloc: Global, tables: &mut T) -> Result<PolicySide, Failure>
    ensures kept { IsKept T.meaning tables.old tables.new }
    ensures side { T.meaning.is_sure tables.new → (s : State) → T.meaning.represents tables.old s
        → IsSideOn s result }
    ensures made { IsMade result }
{
    match tables.written(alloc) {
        Ok(rows) => side_of(alloc, rows),
        Err(fault) => Err(Failure::of_gate(Fault::from(fault))),
    }
}
