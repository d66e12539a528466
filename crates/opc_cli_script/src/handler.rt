//! What handles the requests of a run.
ghost use Rattle.std.specs.Prelude.{IfErr, OnOk};
ghost use Rattle.opc_cli_script.specs.Handlers.{IsEndedBy, IsHeardBy, nothing_more};

use crate::listener::Listener;
use opc_gate::gate::Gate;
use opc_gate::request::{Answer, Request};
use opc_state::tables::Tables;
use std::alloc::Global;

/// What handles requests: a gate, by itself or with more beside it.
pub trait RequestHandler {
    ghost use Rattle.std.specs.Prelude.{ℕ};
    ghost use Rattle.opc_state.specs.Meaning.{Meaning};
    ghost use Rattle.opc_state.specs.State.{State};
    ghost use Rattle.opc_machine.specs.Inputs.{input_of};
    ghost use Rattle.opc_machine.specs.declared.request.Answer.{Answer as TheAnswer};
    ghost use Rattle.opc_machine.specs.declared.request.Request.{Request as TheRequest};
    ghost use Rattle.opc_gate.specs.Handling.{IsHandled};

    /// Which states its tables represent, and which a crash may leave.
    ghost meaning: { Meaning Self };

    /// It handled a request at this time, with this answer, and became that: what is more than the gate does. Only such
    /// a call can show what a function over any of these promises by it.
    ghost handled: { Self → ℕ → TheRequest → TheAnswer → Self → Type 0 };

    /// Answers a request, as a gate does.
    fn handle_one(&mut self, alloc: Global, moment: u64, request: &Request) -> Answer
        ensures sure { meaning.is_sure self.new → meaning.is_sure self.old }
        ensures handled { meaning.is_sure self.new → (s : State) → meaning.represents self.old s
            → IsHandled meaning self.old self.new s moment (input_of request.now) result }
        ensures more { handled self.old moment request.now result self.new };
}

impl<T: Tables> RequestHandler for Gate<T> {
    ghost meaning = { T.meaning };

    ghost handled = { nothing_more };

    fn handle_one(&mut self, alloc: Global, moment: u64, request: &Request) -> Answer {
        self.handle(alloc, moment, request)
    }
}

/// Handles requests, and passes each answer to a listener before the next request is handled. If an answer is not
/// received, the run ends with that request, which is handled.
pub(crate) fn run_heard<X: RequestHandler, L: Listener>(
    gate: &mut X,
    alloc: Global,
    requests: &[(u64, Request)],
    listener: &mut L,
) -> Result<(), L::Fault>
    ensures sure { X.meaning.is_sure gate.new → X.meaning.is_sure gate.old }
    ensures heard { OnOk result (IsHeardBy X.meaning X.handled L.heard gate.old gate.new requests.now
        listener.old listener.new) }
    ensures ended { IfErr result (IsEndedBy X.meaning X.handled L.heard L.missed gate.old gate.new requests.now
        listener.old listener.new) }
{
    for request in requests {
        let answer = gate.handle_one(alloc, request.0, &request.1);
        listener.hear(request.0, &answer)?;
    }
    Ok(())
}
