//! Runs of requests over a gate.
ghost use Rattle.std.specs.Prelude.{◌≡◌, IfOk, OnErr, length};
ghost use Rattle.opc_state.specs.State.{State};
ghost use Rattle.opc_gate.specs.Handling.{IsRun};

use crate::gate::Gate;
use opc_machine::request::{Answer, Request};
use opc_state::tables::Tables;
use std::alloc::{AllocError, Global};

impl<T: Tables> Gate<T> {
    /// Answers requests, with their timestamps, one after another. The answers, and the state that the tables represent
    /// afterwards, are those of the access machine. The room for all answers is taken first: if its allocation fails,
    /// no request is handled. A crash leaves what it might have left before the requests or a state that one of them
    /// makes, as a whole; once all are answered, only the last state, if anything was changed.
    pub fn run(
        &mut self,
        alloc: Global,
        requests: &[(u64, Request)],
    ) -> Result<Vec<Answer>, AllocError>
        ensures sure { T.meaning.is_sure self.new → T.meaning.is_sure self.old }
        ensures run { IfOk result (λ answers. T.meaning.is_sure self.new → (s : State) → T.meaning.represents self.old s
            → IsRun T.meaning self.old self.new s requests.now answers.items) }
        ensures each { IfOk result (λ answers. length answers.items ≡ length requests.now) }
        ensures refused { OnErr result (self.new ≡ self.old) }
    {
        let mut answers = Vec::with_capacity(alloc, requests.len())?;
        for request in requests {
            answers.push_reserved(self.handle(alloc, request.0, &request.1));
        }
        Ok(answers)
    }
}
