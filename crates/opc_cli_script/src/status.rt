//! The outcome of a run.
ghost use Rattle.std.specs.Prelude.{◌≡◌, ◌∷◌, ◌++◌, [], List};
ghost use Rattle.opc_machine.specs.declared.request.Answer.{Answer as TheAnswer};
ghost use Rattle.opc_cli_script.specs.Statuses.{status_of};

use opc_cli_failures::status::Status;
use opc_gate::request::Answer;
use opc_terms::fault::Fault;

/// The status after these answers and one more.
pub fn status_after(status: Status, answer: &Answer) -> Status
    ensures { (answers : List TheAnswer) → status ≡ status_of answers
        → result ≡ status_of (answers ++ answer.now ∷ []) }
{
    match answer {
        Answer::Refused {
            fault: Fault::NoMemory | Fault::Store,
            ..
        } => Status::Failed,
        Answer::Refused { .. } if status == Status::Done => Status::Refused,
        // A failure stays a failure, a refusal stays one, and what is done changes nothing.
        _ => status,
    }
}
