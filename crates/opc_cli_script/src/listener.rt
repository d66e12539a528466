//! Who receives the answers of a run.
ghost use Rattle.std.specs.Prelude.{ℕ, IfErr, OnOk};
ghost use Rattle.opc_machine.specs.declared.request.Answer.{Answer as TheAnswer};

use opc_machine::request::Answer;

/// Receives each answer of a run before the next request is handled, and may end the run.
pub trait Listener {
    /// Why an answer was not received.
    type Fault: Drop;

    /// Received an answer with its timestamp, and became this.
    ghost heard: { Self → ℕ → TheAnswer → Self → Type 0 };

    /// Received an answer with its timestamp in part or not at all, and became this.
    ghost missed: { Self → ℕ → TheAnswer → Self → Self.Fault → Type 0 };

    fn hear(&mut self, moment: u64, answer: &Answer) -> Result<(), Self::Fault>
        ensures heard { OnOk result (heard self.old moment answer.now self.new) }
        ensures missed { IfErr result (missed self.old moment answer.now self.new) };
}
