//! Rows applied one after another, without those that are refused.
ghost use Rattle.std.specs.Prelude.{
  ◌≡◌,
  ◌+◌,
  ◌-◌,
  ◌<◌,
  ◌≤◌,
  ◌^◌,
  ◌++◌,
  ◌∷◌,
  [],
  IfOk,
  OnOk,
  length,
  map,
  take,
};
ghost use Rattle.opc_check.specs.Problems.{IsRefused, most_told, problems_of, refused_problem};
ghost use Rattle.opc_check.specs.Refusals.{IsTaken, kept, refusal_by, with_refusal};
ghost use Rattle.opc_policy_members.specs.Taken.{after_row, no_policy};

use crate::problem::{RowProblem, refusal};
use crate::reading::MOST_TOLD;
use opc_policy_members::policy::Policy;
use opc_policy_members::row::Row;
use opc_terms::fault::Fault;
use std::alloc::{AllocError, Global};

/// The policy of the rows that are not refused, how many are, and what is wrong with the first of these.
#[derive(Drop)]
pub struct Refused {
    pub policy: Policy,
    pub count: usize,
    pub problems: Vec<RowProblem>,
}

/// Applies a row, and returns its fault if it is refused.
fn take(policy: &mut Policy, alloc: Global, row: &Row) -> Result<Option<Fault>, AllocError>
    ensures { IfOk result (IsTaken row.now policy.old policy.new) }
{
    match policy.take(alloc, row) {
        Ok(()) => Ok(None),
        Err(Fault::NoMemory) => Err(AllocError),
        Err(fault) => Ok(Some(fault)),
    }
}

impl Refused {
    fn new(alloc: Global) -> Self
        ensures policy { result.policy ≡ no_policy }
        ensures count { result.count ≡ 0 }
        ensures problems { result.problems.items ≡ [] }
    {
        Refused {
            policy: Policy::new(alloc),
            count: 0,
            problems: Vec::new(alloc),
        }
    }

    /// Adds a row that was refused.
    fn add(
        &mut self,
        alloc: Global,
        rows: &[Row],
        row: &Row,
        number: u64,
        fault: Fault,
    ) -> Result<(), AllocError>
        requires { self.old.count < 2 ^ 63 }
        ensures policy { OnOk result (self.new.policy ≡ self.old.policy) }
        ensures count { OnOk result (self.new.count ≡ self.old.count + 1) }
        ensures problems { OnOk result (problems_of self.new.problems.items ≡ problems_of self.old.problems.items
            ++ map (refused_problem [] rows.now) (take (most_told - self.old.count) (record {
              number = number;
              row = row.now;
              policy = self.old.policy;
              fault = fault;
            } ∷ []))) }
    {
        self.tell(alloc, rows, row, number, fault)?;
        self.count += 1;
        Ok(())
    }

    /// Adds what is wrong with it, unless enough are reported.
    #[tactic(auto, using(crate::proofs::Telling::told_alone, crate::proofs::Telling::no_room))]
    fn tell(
        &mut self,
        alloc: Global,
        rows: &[Row],
        row: &Row,
        number: u64,
        fault: Fault,
    ) -> Result<(), AllocError>
        ensures policy { self.new.policy ≡ self.old.policy }
        ensures count { self.new.count ≡ self.old.count }
        ensures problems { OnOk result (problems_of self.new.problems.items ≡ problems_of self.old.problems.items
            ++ map (refused_problem [] rows.now) (take (most_told - self.old.count) (record {
              number = number;
              row = row.now;
              policy = self.old.policy;
              fault = fault;
            } ∷ []))) }
    {
        if self.count >= MOST_TOLD as usize {
            return Ok(());
        }
        let problem = refusal(alloc, &self.policy, &[], rows, row, number, fault)?;
        self.problems.push(problem)?;
        Ok(())
    }

    /// Adds a row, if it was refused.
    #[tactic(auto, using(crate::proofs::Telling::nothing_told))]
    fn add_if(
        &mut self,
        alloc: Global,
        rows: &[Row],
        row: &Row,
        number: u64,
        fault: Option<Fault>,
    ) -> Result<(), AllocError>
        requires { self.old.count < 2 ^ 63 }
        ensures policy { OnOk result (self.new.policy ≡ self.old.policy) }
        ensures few { OnOk result (self.new.count ≤ self.old.count + 1) }
        ensures count { OnOk result (self.new.count
            ≡ self.old.count + length (refusal_by number row.now self.old.policy fault)) }
        ensures problems { OnOk result (problems_of self.new.problems.items ≡ problems_of self.old.problems.items
            ++ map (refused_problem [] rows.now) (take (most_told - self.old.count)
            (refusal_by number row.now self.old.policy fault))) }
    {
        match fault {
            Some(fault) => self.add(alloc, rows, row, number, fault),
            None => Ok(()),
        }
    }

    /// Applies one of the rows, and adds it if it is refused.
    fn apply(
        &mut self,
        alloc: Global,
        rows: &[Row],
        row: &Row,
        number: u64,
    ) -> Result<(), AllocError>
        requires { self.old.count < 2 ^ 63 }
        ensures policy { OnOk result (self.new.policy ≡ kept self.old.policy (after_row row.now self.old.policy)) }
        ensures few { OnOk result (self.new.count ≤ self.old.count + 1) }
        ensures count { OnOk result (self.new.count ≡ self.old.count
            + length (with_refusal number row.now self.old.policy (after_row row.now self.old.policy) [])) }
        ensures problems { OnOk result (problems_of self.new.problems.items ≡ problems_of self.old.problems.items
            ++ map (refused_problem [] rows.now) (take (most_told - self.old.count)
            (with_refusal number row.now self.old.policy (after_row row.now self.old.policy) []))) }
    {
        let fault = take(&mut self.policy, alloc, row)?;
        self.add_if(alloc, rows, row, number, fault)?;
        Ok(())
    }
}

/// Which rows are refused, if rows are applied one after another as a first policy.
pub fn refused_of(alloc: Global, rows: &[Row]) -> Result<Refused, AllocError>
    ensures { IfOk result (IsRefused rows.now) }
{
    let mut refused = Refused::new(alloc);
    let mut number = 0;
    for row in rows {
        number += 1;
        refused.apply(alloc, rows, row, number)?;
    }
    Ok(refused)
}
