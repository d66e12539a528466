//! What was read of a file whose rows are judged one by one.
ghost use Rattle.std.specs.Prelude.{
  ◌≡◌,
  ◌+◌,
  ◌-◌,
  ◌<◌,
  ◌≤◌,
  ◌^◌,
  ◌++◌,
  ◌∷◌,
  [],
  OnOk,
  length,
  map,
  take,
};
ghost use Rattle.csv.specs.Records.{fields_of};
ghost use Rattle.opc_check.specs.Judged.{bad_rows, good_rows, judged_as};
ghost use Rattle.opc_check.specs.Problems.{bad_problem, most_told, problems_of};

use crate::problem::{RowProblem, bad_problem};
use csv::StringRecord;
use opc_names::name::ConsoleName;
use opc_policy_members::row::Row;
use opc_terms::fault::Why;
use std::alloc::{AllocError, Global};

/// The most problems that are reported.
pub const MOST_TOLD: u32 = 100;

/// The rows that can be read, how many rows were judged, how many of them are bad, and what is wrong with the first of
/// these.
#[derive(Drop)]
pub struct Reading {
    pub rows: Vec<Row>,
    pub judged: u32,
    pub bad: u32,
    pub problems: Vec<RowProblem>,
}

impl Reading {
    pub(crate) fn new(alloc: Global) -> Self
        ensures rows { result.rows.items ≡ [] }
        ensures judged { result.judged ≡ 0 }
        ensures bad { result.bad ≡ 0 }
        ensures problems { result.problems.items ≡ [] }
    {
        Reading {
            rows: Vec::new(alloc),
            judged: 0,
            bad: 0,
            problems: Vec::new(alloc),
        }
    }

    /// Adds a row, or what is wrong with it.
    #[tactic(auto, using(crate::proofs::Telling::nothing_told))]
    pub(crate) fn add(
        &mut self,
        alloc: Global,
        width: usize,
        number: u32,
        line: &StringRecord,
        meaning: Result<Row, Why>,
    ) -> Result<(), AllocError>
        requires judged { self.old.judged < 2 ^ 31 }
        requires bad { self.old.bad ≤ self.old.judged }
        ensures fewer { OnOk result (self.new.bad ≤ self.new.judged) }
        ensures rows { OnOk result (self.new.rows.items
            ≡ self.old.rows.items ++ good_rows (judged_as number (fields_of line.now) meaning ∷ [])) }
        ensures judged { OnOk result (self.new.judged ≡ self.old.judged + 1) }
        ensures bad { OnOk result (self.new.bad
            ≡ self.old.bad + length (bad_rows (judged_as number (fields_of line.now) meaning ∷ []))) }
        ensures problems { OnOk result (problems_of self.new.problems.items ≡ problems_of self.old.problems.items
            ++ map (bad_problem width) (take (most_told - self.old.bad)
            (bad_rows (judged_as number (fields_of line.now) meaning ∷ [])))) }
    {
        // Named for the prover, which otherwise cannot infer the type of a row's console.
        let _nowhere: Option<ConsoleName> = None;
        self.judged += 1;
        match meaning {
            Ok(row) => {
                self.rows.push(row)?;
                Ok(())
            }
            Err(why) => self.add_bad(alloc, width, number, line, why),
        }
    }

    fn add_bad(
        &mut self,
        alloc: Global,
        width: usize,
        number: u32,
        line: &StringRecord,
        why: Why,
    ) -> Result<(), AllocError>
        requires { self.old.bad < 2 ^ 31 }
        ensures rows { OnOk result (self.new.rows.items ≡ self.old.rows.items) }
        ensures judged { OnOk result (self.new.judged ≡ self.old.judged) }
        ensures bad { OnOk result (self.new.bad ≡ self.old.bad + 1) }
        ensures problems { OnOk result (problems_of self.new.problems.items ≡ problems_of self.old.problems.items
            ++ map (bad_problem width) (take (most_told - self.old.bad) (record {
              number = number;
              fields = fields_of line.now;
              why = why;
            } ∷ []))) }
    {
        // Named for the prover, which otherwise cannot infer the type of a row's console.
        let _nowhere: Option<ConsoleName> = None;
        self.tell(alloc, width, number, line, why)?;
        self.bad += 1;
        Ok(())
    }

    /// Adds what is wrong with a bad row, unless enough are reported.
    #[tactic(auto, using(crate::proofs::Telling::told_alone, crate::proofs::Telling::no_room))]
    fn tell(
        &mut self,
        alloc: Global,
        width: usize,
        number: u32,
        line: &StringRecord,
        why: Why,
    ) -> Result<(), AllocError>
        ensures rows { self.new.rows.items ≡ self.old.rows.items }
        ensures judged { self.new.judged ≡ self.old.judged }
        ensures bad { self.new.bad ≡ self.old.bad }
        ensures problems { OnOk result (problems_of self.new.problems.items ≡ problems_of self.old.problems.items
            ++ map (bad_problem width) (take (most_told - self.old.bad) (record {
              number = number;
              fields = fields_of line.now;
              why = why;
            } ∷ []))) }
    {
        // Named for the prover, which otherwise cannot infer the type of a row's console.
        let _nowhere: Option<ConsoleName> = None;
        if self.bad >= MOST_TOLD {
            return Ok(());
        }
        let problem = bad_problem(alloc, width, number, line, why)?;
        self.problems.push(problem)?;
        Ok(())
    }
}
