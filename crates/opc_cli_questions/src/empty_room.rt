//! What is reported of a run over new tables in memory: without a policy it has no console.
ghost use Rattle.std.specs.Prelude.{◌≡◌, IfErr, IfOk, OnOk, false, if◌then◌else◌, is_err, true};
ghost use Rattle.std.specs.Io.KnownBytes.{Appends};
ghost use Rattle.opc_cli_failures.specs.Printing.{IsReported};
ghost use Rattle.opc_cli_failures.specs.Statuses.{status_of_end};
ghost use Rattle.opc_cli_questions.specs.EmptyRoom.{IsEmptyRoomNoted, empty_room_line};

use opc_cli_failures::failure::{Failure, Paths};
use opc_cli_failures::status::Status;
use opc_io::sink::{Sink, WriteFault, write_whole};

/// Says why no command was done.
fn print_empty_room<K: Sink>(errors: &mut K) -> Result<(), WriteFault>
    ensures text { OnOk result (Appends (K.held errors.old) (K.held errors.new) empty_room_line) }
    ensures failed { K.has_failed errors.new ≡ (if is_err result then true else K.has_failed errors.old) }
{
    write_whole(
        errors,
        b"opcmds: without a policy there is no console; use --policy or --db\n",
    )
}

fn note_empty_room<K: Sink>(policy: Option<&str>, status: Status, errors: &mut K)
    ensures noted { IsEmptyRoomNoted K.held K.has_failed errors.old errors.new policy.entry status }
    ensures kept { K.has_failed errors.new ≡ false → K.has_failed errors.old ≡ false }
{
    match (policy, status) {
        (None, Status::Refused) => {
            // (if the note fails, the answers and the status still report the refusals)
            let _ = print_empty_room(errors);
        }
        // A policy was given, or there is nothing to explain.
        _ => {}
    }
}

/// The status of a run over new tables in memory. A failure is reported, and so is, after a refusal, that the room has
/// no console without a policy.
pub fn reported_in_memory<K: Sink>(
    end: Result<Status, Failure>,
    paths: &Paths<'_>,
    errors: &mut K,
) -> Status
    ensures status { result ≡ status_of_end end }
    ensures reported { IfErr end (λ failure. K.has_failed errors.new ≡ false
        → IsReported failure.fault (K.held errors.old) (K.held errors.new)) }
    ensures explained { IfOk end (IsEmptyRoomNoted K.held K.has_failed errors.old errors.new paths.now.policy) }
    ensures kept { K.has_failed errors.new ≡ false → K.has_failed errors.old ≡ false }
{
    match end {
        Ok(status) => {
            note_empty_room(paths.policy, status, errors);
            status
        }
        Err(failure) => failure.report(paths, errors),
    }
}
