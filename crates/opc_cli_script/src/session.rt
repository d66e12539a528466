//! Lines, answered until the input ends.
ghost use Rattle.std.specs.Prelude.{◌≡◌, ◌∷◌, ◌++◌, [], IfErr, IfOk, List, true, if◌then◌else◌};
ghost use Rattle.opc_cli_script.specs.declared.turn.Turn.{Turn as TheTurn};
ghost use Rattle.opc_cli_script.specs.Faults.{is_cut_by_output};
ghost use Rattle.opc_cli_script.specs.Handlers.{AreSteps};
ghost use Rattle.opc_cli_script.specs.Sessions.{IsCutSession, IsSession};
ghost use Rattle.opc_cli_script.specs.Turns.{IsStandingOf, status_of_turns, status_with};

use crate::fault::NowFault;
use crate::handler::RequestHandler;
use crate::status::status_after;
use crate::terminal::Terminal;
use crate::turn::{Turn, take_turn};
use opc_cli_failures::status::Status;
use opc_names::name::ConsoleName;
use std::alloc::Global;
use std::io;
use std::io::ErrorKind;

/// The outcome of the lines so far: by their answers, and whether one of them was bad.
#[derive(Clone, Copy)]
pub struct Standing {
    answered: Status,
    is_bad: bool,
}

/// The outcome of lines and one more.
fn standing_after(standing: Standing, turn: &Turn) -> Standing
    ensures { (turns : List TheTurn) → IsStandingOf turns standing → IsStandingOf (turns ++ turn.now ∷ []) result }
{
    match turn {
        Turn::Blank => standing,
        Turn::Bad => Standing {
            is_bad: true,
            ..standing
        },
        Turn::Answered { answer, .. } => Standing {
            answered: status_after(standing.answered, answer),
            ..standing
        },
    }
}

/// The status of the outcome of lines.
fn status_of(standing: Standing) -> Status
    ensures { result ≡ status_with standing.answered standing.is_bad }
{
    match standing.answered {
        Status::Failed => Status::Failed,
        // A bad line outweighs every answer but a failure.
        _ if standing.is_bad => Status::BadInput,
        answered => answered,
    }
}

/// Answers lines one after another, each before the next is read, and returns their outcome once the input has ended. A
/// line is a command at the console that is given, or else names its console, or is an event. One that is neither is
/// printed as a bad line, and the next is read. What is printed is what a script would print of the same requests, at
/// the times that the clock showed. If the input, the clock or the output fails, no further line is read; a request
/// whose answer was not printed as a whole is handled.
pub fn answer_lines<D: Terminal, X: RequestHandler>(
    gate: &mut X,
    alloc: Global,
    console: &Option<ConsoleName>,
    terminal: &mut D,
) -> Result<Status, NowFault>
    ensures sure { X.meaning.is_sure gate.new → X.meaning.is_sure gate.old }
    ensures answered { IfOk result (IsSession D.reads D.dates D.says D.held X.meaning X.handled console.now
        (AreSteps X.handled) gate.old gate.new
        terminal.old terminal.new) }
    ensures cut { IfErr result (IsCutSession D.reads D.dates D.says D.held X.meaning X.handled console.now
        (AreSteps X.handled) gate.old gate.new
        terminal.old terminal.new) }
    ensures same { D.identity terminal.new ≡ D.identity terminal.old }
    ensures failed { D.has_failed terminal.new ≡ (if is_cut_by_output result then true else D.has_failed terminal.old) }
{
    let mut standing = Standing {
        answered: Status::Done,
        is_bad: false,
    };
    for number in 1..usize::MAX {
        match take_turn(gate, alloc, console, number, terminal)? {
            Some(turn) => standing = standing_after(standing, &turn),
            None => return Ok(status_of(standing)),
        }
    }
    // No input has as many lines as that.
    Err(NowFault::Input(io::Error::from(ErrorKind::FileTooLarge)))
}
