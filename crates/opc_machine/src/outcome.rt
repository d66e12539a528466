//! The outcome of a request, before anything is written.
ghost use Rattle.std.specs.Prelude.{◌≡◌, []};

use opc_board::line::Line;
use opc_rows::Rows;
use opc_state::change::Edit;
use opc_terms::fault::Fault;
use opc_terms::rule::Rule;
use opc_terms::store_fault::StoreFault;
use std::alloc::Global;

/// What is done, and by which rule: the edits that it makes, and the lines of the answer.
#[derive(Drop)]
pub struct Effect {
    pub edits: Vec<Edit>,
    pub lines: Rows<Line>,
    pub rule: Option<Rule>,
}

/// Why nothing is done.
#[derive(Clone, Copy, PartialEq, Eq)]
pub struct Refusal {
    pub fault: Fault,
    pub rule: Option<Rule>,
}

/// The outcome of a request. If an allocation or the tables fail, there is none: the request is aborted.
#[derive(Drop)]
pub enum Outcome {
    Done(Effect),
    Refused(Refusal),
}

/// Nothing is done, for this reason, and by this rule if one decided.
pub fn refused(fault: Fault, rule: Option<Rule>) -> Result<Outcome, StoreFault>
    ensures { result ≡ Ok (Outcome.Refused (record { fault = fault; rule = rule })) }
{
    Ok(Outcome::Refused(Refusal { fault, rule }))
}

/// An effect without lines.
pub fn done(alloc: Global, edits: Vec<Edit>, rule: Option<Rule>) -> Result<Outcome, StoreFault>
    ensures { result ≡ Ok (Outcome.Done (record { edits = edits; lines = []; rule = rule })) }
{
    Ok(Outcome::Done(Effect {
        edits,
        lines: Rows::new(alloc),
        rule,
    }))
}
