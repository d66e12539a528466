//! The answer of the rows of a policy to a question.
ghost use Rattle.std.specs.Prelude.{◌≡◌, ◌≢◌, IfErr, IfOk, Ok, Err};
ghost use Rattle.std.specs.Option.{option_copied};
ghost use Rattle.opc_terms.specs.declared.fault.Fault.TheVariants.{NoMemory};
ghost use Rattle.opc_answers.specs.Answers.{CanBePrinted, answer_in, answer_of};
ghost use Rattle.opc_answers.specs.Made.{members_of, state_of};

use crate::question::{Asks, Question};
use crate::room::Room;
use crate::wanted::Wanted;
use crate::who::{Who, who_in};
use crate::why::{Explanation, why_in};
use opc_names::name::ConsoleName;
use opc_policy_members::row::Row;
use opc_terms::fault::Fault;
use std::alloc::Global;

/// An answer: the command needs nothing; why a user, or nobody, may or may not; or who may, and whether only those are
/// shown.
#[derive(Drop)]
pub enum PolicyAnswer {
    Nothing,
    Why(Explanation),
    Who(Who, bool),
}

fn answer_in(
    alloc: Global,
    room: Room,
    wanted: &Wanted,
    console: Option<&ConsoleName>,
    asks: &Asks,
) -> Result<PolicyAnswer, Fault>
    requires { room.members ≡ members_of room.policy }
    ensures ok { IfOk result (λ answer. answer_in (state_of room.policy room.board) wanted.now
        (option_copied console.entry) asks.now ≡ Ok answer) }
    ensures ready { IfOk result CanBePrinted }
    ensures fault { IfErr result (λ fault. fault ≢ NoMemory → answer_in (state_of room.policy room.board) wanted.now
        (option_copied console.entry) asks.now ≡ Err fault) }
{
    match asks {
        Asks::Why { actor, levels } => {
            let why = why_in(alloc, &room, *levels, wanted, actor.as_ref(), console)?;
            Ok(PolicyAnswer::Why(why))
        }
        Asks::Who { allowed } => match who_in(room, wanted, console) {
            Ok(who) => Ok(PolicyAnswer::Who(who, *allowed)),
            Err(none) => Err(none.fault),
        },
    }
}

/// What the rows of a policy answer.
pub fn answer_of(
    alloc: Global,
    rows: &[Row],
    question: &Question<'_>,
) -> Result<PolicyAnswer, Fault>
    ensures ok { IfOk result (λ answer. answer_of question.now rows.now ≡ Ok answer) }
    ensures ready { IfOk result CanBePrinted }
    ensures fault { IfErr result (λ fault. fault ≢ NoMemory → answer_of question.now rows.now ≡ Err fault) }
{
    let console = question.console.as_ref();
    let Some(wanted) = question.about.wanted(console)? else {
        return Ok(PolicyAnswer::Nothing);
    };
    let room = Room::of_rows(alloc, rows)?;
    answer_in(alloc, room, &wanted, console, &question.asks)
}
