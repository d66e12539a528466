//! The answer of a room that is kept for other questions.
ghost use Rattle.std.specs.Prelude.{◌≡◌, IfSome, Some, None, Ok, true};
ghost use Rattle.std.specs.Option.{is_some};
ghost use Rattle.opc_answers.specs.Made.{members_of, state_of};
ghost use Rattle.opc_answers.specs.Questions.{wanted_of};
ghost use Rattle.opc_answers.specs.Who.{HasDecider};
ghost use Rattle.opc_answers.specs.declared.answer.PolicyAnswer.TheVariants as answer;
ghost use Rattle.opc_answers.specs.declared.why.Explanation.{Explanation};
ghost use Rattle.opc_cli_questions.specs.Printed.{IsWritten};
ghost use Rattle.opc_cli_questions.specs.Questions.{written};
ghost use Rattle.opc_cli_questions.specs.RoomAnswers.{IsWrittenBy};

use crate::answer::print_answer;
use crate::who_printing::print_who;
use opc_answers::answer::PolicyAnswer;
use opc_answers::question::Asks;
use opc_answers::room::Room;
use opc_answers::wanted::Wanted;
use opc_answers::who::{Who, who_in};
use opc_answers::why::{Explanation, why_in};
use opc_check::form::Form;
use opc_cli_failures::failure::Failure;
use opc_cli_failures::status::Status;
use opc_cli_tasks::question::Ask;
use opc_terms::fault::Fault;
use std::alloc::Global;
use std::io::Write;

/// A room, and how the printing of its answer ended, if it has one. Why it has none is not said: its policy file says
/// so in words.
#[derive(Drop)]
pub struct RoomAnswer {
    pub room: Room,
    pub end: Option<Result<Status, Failure>>,
}

/// Prints why a user, or nobody, may or may not, if the room says so.
fn print_why<W: Write>(
    alloc: Global,
    why: Result<Explanation, Fault>,
    form: Form,
    output: &mut W,
) -> Option<Result<Status, Failure>>
    ensures printed { IfSome result (λ end. (found : Explanation) × (why ≡ Ok found)
        × IsWritten W.contents output.old output.new (λ text. written form (Ok (answer.Why found)) ≡ text) end) }
    ensures none { result ≡ None → output.new ≡ output.old }
{
    match why {
        Ok(why) => Some(print_answer(alloc, &PolicyAnswer::Why(why), form, output)),
        Err(_) => None,
    }
}

/// Prints who may, and hands the room back.
fn print_who_in<W: Write>(
    alloc: Global,
    who: Who,
    form: Form,
    allowed: bool,
    output: &mut W,
) -> RoomAnswer
    requires { HasDecider who }
    ensures room { result.room ≡ who.room }
    ensures end { IfSome result.end (λ end. IsWritten W.contents output.old output.new
        (λ text. written form (Ok (answer.Who who allowed)) ≡ text) end) }
    ensures some { is_some result.end ≡ true }
{
    let end = match print_who(alloc, form, allowed, &who, output) {
        Ok(()) => Ok(Status::Done),
        Err(failure) => Err(failure),
    };
    RoomAnswer {
        room: who.into_room(),
        end: Some(end),
    }
}

/// Answers by a room about what is wanted.
fn answer_about<W: Write>(
    alloc: Global,
    room: Room,
    wanted: &Wanted,
    ask: &Ask<'_>,
    output: &mut W,
) -> RoomAnswer
    requires members { room.members ≡ members_of room.policy }
    requires wanted { wanted_of ask.now.question.about ask.now.question.console ≡ Ok (Some wanted.now) }
    ensures room { result.room ≡ room }
    ensures end { IsWrittenBy W.contents output.old output.new ask.now (state_of room.policy room.board) result.end }
{
    let (console, form) = (ask.question.console.as_ref(), ask.form);
    match &ask.question.asks {
        Asks::Why { actor, levels } => {
            let why = why_in(alloc, &room, *levels, wanted, actor.as_ref(), console);
            let end = print_why(alloc, why, form, output);
            RoomAnswer { room, end }
        }
        Asks::Who { allowed } => match who_in(room, wanted, console) {
            Ok(who) => print_who_in(alloc, who, form, *allowed, output),
            Err(none) => RoomAnswer {
                room: none.room,
                end: None,
            },
        },
    }
}

/// Answers a question by a room, which is handed back.
pub fn answer_by_room<W: Write>(
    alloc: Global,
    room: Room,
    ask: &Ask<'_>,
    output: &mut W,
) -> RoomAnswer
    requires { room.members ≡ members_of room.policy }
    ensures room { result.room ≡ room }
    ensures end { IsWrittenBy W.contents output.old output.new ask.now (state_of room.policy room.board) result.end }
{
    let question = &ask.question;
    match question.about.wanted(question.console.as_ref()) {
        Ok(Some(wanted)) => answer_about(alloc, room, &wanted, ask, output),
        Ok(None) => RoomAnswer {
            room,
            end: Some(print_answer(alloc, &PolicyAnswer::Nothing, ask.form, output)),
        },
        Err(_) => RoomAnswer { room, end: None },
    }
}
