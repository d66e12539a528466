//! What is kept of a policy, and the answers by it.
ghost use Rattle.std.specs.Prelude.{◌≡◌, IfSome, Some, None};
ghost use Rattle.std.specs.Option.{ForSome};
ghost use Rattle.opc_answers.specs.declared.room.Room.{Room};
ghost use Rattle.opc_answers.specs.Made.{members_of};
ghost use Rattle.opc_cli_tasks.specs.declared.question.Ask.{Ask};
ghost use Rattle.opc_cli_tasks.specs.declared.question.PolicyQuestion.TheVariants as variant;
ghost use Rattle.opc_embedded.specs.Kept.{IsAnsweredByRoom, IsMadeBy};

use opc_answers::room::Room;
use opc_cli_failures::failure::{NO_PATHS, Place, reported};
use opc_cli_failures::status::Status;
use opc_cli_questions::policy_file::read_rows;
use opc_cli_questions::room_answer::answer_by_room;
use opc_cli_tasks::question::PolicyQuestion;
use opc_io::watched::Watched;
use std::alloc::Global;
use std::io::Write;

/// What the rows of a policy file make. If the text is none, or there is no memory, nothing is kept, and questions are
/// answered by the text.
pub(crate) fn room_of(alloc: Global, policy: &[u8]) -> Option<Room>
    ensures { ForSome result (IsMadeBy policy.now) }
{
    let mut input = policy;
    let Ok(file) = read_rows(alloc, Place::Input, &mut input) else {
        return None;
    };
    match Room::of_rows(alloc, file.rows.as_slice()) {
        Ok(room) => Some(room),
        Err(_) => None,
    }
}

/// Answers by what is kept, if it has the answer.
pub(crate) fn answer_kept<W: Write, E: Write>(
    alloc: Global,
    kept: &mut Option<Room>,
    question: &PolicyQuestion<'_>,
    output: &mut Watched<W>,
    errors: &mut Watched<E>,
) -> Option<Status>
    requires { IfSome kept.old (λ room. room.members ≡ members_of room.policy) }
    ensures same { kept.new ≡ kept.old }
    ensures answered { IfSome result (λ status. (room : Room) × (ask : Ask) × (kept.old ≡ Some room)
        × (question.now ≡ variant.Ask ask)
        × IsAnsweredByRoom W.contents E.contents output.old output.new errors.old errors.new room ask status) }
    ensures nothing { result ≡ None → (output.new ≡ output.old) × (errors.new ≡ errors.old) }
{
    let PolicyQuestion::Ask(ask) = question else {
        return None;
    };
    let answer = answer_by_room(alloc, kept.take()?, ask, &mut output.inner);
    *kept = Some(answer.room);
    Some(reported(answer.end?, &NO_PATHS, errors))
}
