//! What is wrong with a row of a policy file.
ghost use Rattle.std.specs.Prelude.{◌≡◌, IfOk};
ghost use Rattle.csv.specs.Records.{fields_of};
ghost use Rattle.opc_check.specs.Problems.{bad_problem, problem_of, refused_problem};

use crate::near_names::near_name;
use crate::obstacle::obstacle_text;
use crate::words::bad_text;
use csv::StringRecord;
use opc_cli_commands::question;
use opc_policy_members::policy::Policy;
use opc_policy_members::row::Row;
use opc_terms::fault::{Fault, Why};
use std::alloc::{AllocError, Global};

/// A row that cannot be read, or that is refused: its number, from 1 after the header, its fault, and what is wrong in
/// words.
#[derive(Drop)]
pub struct RowProblem {
    pub number: u64,
    pub fault: Fault,
    pub text: String,
}

/// What is wrong with a bad row, in a file whose rows have this many fields.
pub(crate) fn bad_problem(
    alloc: Global,
    width: usize,
    number: u32,
    line: &StringRecord,
    why: Why,
) -> Result<RowProblem, AllocError>
    ensures { IfOk result (λ problem. problem_of problem ≡ bad_problem width (record {
      number = number;
      fields = fields_of line.now;
      why = why;
    })) }
{
    let text = bad_text(alloc, width, line, why)?;
    Ok(RowProblem {
        number: u64::from(number),
        fault: Fault::RowFault { row: number, why },
        text,
    })
}

/// What is wrong with the row of this number, which a policy refuses for a fault. The policy has the names of rows that
/// are stored, and of the rows before this one.
pub fn refusal(
    alloc: Global,
    policy: &Policy,
    stored: &[Row],
    rows: &[Row],
    row: &Row,
    number: u64,
    fault: Fault,
) -> Result<RowProblem, AllocError>
    ensures { IfOk result (λ problem. problem_of problem ≡ refused_problem stored.now rows.now (record {
      number = number;
      row = row.now;
      policy = policy.now;
      fault = fault;
    })) }
{
    let mut text = obstacle_text(alloc, policy, row)?;
    let near = near_name(alloc, policy, stored, rows, row)?;
    let asked = question(alloc, near)?;
    text.push_str(asked.as_str())?;
    Ok(RowProblem {
        number,
        fault,
        text,
    })
}
