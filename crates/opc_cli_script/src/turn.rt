//! One line, and its outcome.
ghost use Rattle.std.specs.Prelude.{◌≡◌, IfErr, IfOk, MatchOption, OnErr, OnOk, Some, true, if◌then◌else◌};
ghost use Rattle.std.specs.Io.KnownBytes.{Appends};
ghost use Rattle.opc_cli_script.specs.Running.{AppendsPrefix};
ghost use Rattle.opc_cli_script.specs.Transcripts.{bad_line_text};
ghost use Rattle.opc_cli_script.specs.declared.turn.Turn.TheVariants as the_turn;
ghost use Rattle.opc_cli_script.specs.Faults.{IsFaultOf, is_cut_by_output};
ghost use Rattle.opc_cli_script.specs.Sessions.{IsCutTurn, IsOver, IsReadAs, IsShownTurn, IsTakenTurn};
ghost use Rattle.opc_cli_script.specs.Turns.{IsAnswerOf, IsTurnOfLine, request_on};

use crate::bad_line::{bad_line, slip_after};
use crate::fault::NowFault;
use crate::handler::RequestHandler;
use crate::line::{is_blank, untimed_request_in};
use crate::reading_now::Typed;
use crate::terminal::Terminal;
use crate::transcript::{answer_text, bad_line_text};
use opc_board::text::KeptText;
use opc_cli_commands::hint_about;
use opc_cli_failures::bad_line::LineForm;
use opc_cli_failures::reason::Reason;
use opc_machine::request::{Answer, Request};
use opc_names::name::ConsoleName;
use opc_terms::fault::Fault;
use std::alloc::{AllocError, Global};

/// The outcome of a line.
#[derive(Drop)]
pub enum Turn {
    /// It is blank.
    Blank,
    /// It is no request.
    Bad,
    /// Its request was handled.
    Answered {
        moment: u64,
        request: Request,
        answer: Answer,
    },
}

/// The request of a line that is typed at a console, or that names one.
fn request_on(
    alloc: Global,
    console: &Option<ConsoleName>,
    line: &str,
) -> Result<Option<Request>, AllocError>
    ensures { IfOk result (λ request. request ≡ request_on console.now line.now) }
{
    match console {
        Some(console) => Ok(Some(Request::Command {
            console: *console,
            text: KeptText::new(alloc, line)?,
        })),
        None => untimed_request_in(alloc, line),
    }
}

/// Shows what helps whoever typed a line that is no command. That is a note beside the answer, of which no clause
/// speaks.
fn note_hint<D: Terminal>(alloc: Global, request: &Request, answer: &Answer, terminal: &D) {
    let Request::Command { text, .. } = request else {
        return;
    };
    let Answer::Refused {
        fault: Fault::UnknownVerb { .. } | Fault::BadOperand { .. },
        ..
    } = answer
    else {
        return;
    };
    // (without memory the answer alone says that it is none)
    if let Ok(Some(hint)) = hint_about(alloc, text.as_str()) {
        terminal.note(&Reason::Hint(hint));
    }
}

/// Handles a request at the clock's time, and shows its answer.
fn answer<D: Terminal, X: RequestHandler>(
    gate: &mut X,
    alloc: Global,
    request: Request,
    number: usize,
    terminal: &mut D,
) -> Result<Turn, NowFault>
    ensures sure { X.meaning.is_sure gate.new → X.meaning.is_sure gate.old }
    ensures turn { IfOk result (IsShownTurn D.reads D.dates D.says D.held X.meaning X.handled (IsAnswerOf request) number
        gate.old gate.new terminal.old terminal.new) }
    ensures cut { IfErr result (IsCutTurn D.reads D.dates D.says D.held X.meaning X.handled (IsAnswerOf request) number
        gate.old gate.new terminal.old terminal.new) }
    ensures same { D.identity terminal.new ≡ D.identity terminal.old }
    ensures failed { D.has_failed terminal.new ≡ (if is_cut_by_output result then true else D.has_failed terminal.old) }
{
    let moment = terminal.moment()?;
    let answer = gate.handle_one(alloc, moment, &request);
    let text = answer_text(alloc, moment, &answer)?;
    terminal.say(text.as_str())?;
    note_hint(alloc, &request, &answer, terminal);
    Ok(Turn::Answered {
        moment,
        request,
        answer,
    })
}

/// Shows that the line with this number is bad, and why.
fn refuse<D: Terminal>(
    alloc: Global,
    number: usize,
    reason: &Reason,
    terminal: &mut D,
) -> Result<Turn, NowFault>
    ensures turn { IfOk result (λ turn. turn ≡ the_turn.Bad) }
    ensures said { OnOk result (D.says terminal.old (bad_line_text number) terminal.new) }
    ensures text { OnOk result (Appends (D.held terminal.old) (D.held terminal.new) (bad_line_text number)) }
    ensures cut { OnErr result (AppendsPrefix (D.held terminal.old) (D.held terminal.new) (bad_line_text number)) }
    ensures fault { IfErr result (λ fault. IsFaultOf fault (Some the_turn.Bad)) }
    ensures same { D.identity terminal.new ≡ D.identity terminal.old }
    ensures failed { D.has_failed terminal.new ≡ (if is_cut_by_output result then true else D.has_failed terminal.old) }
{
    let text = bad_line_text(alloc, number)?;
    terminal.say(text.as_str())?;
    terminal.note(reason);
    Ok(Turn::Bad)
}

/// Why the line with this number, which is no request, is bad.
fn reason_of(number: usize, line: &str) -> Reason {
    let bad = bad_line(number as u64, line, slip_after(line), LineForm::Now);
    Reason::Line(bad)
}

/// Answers a line that is a text.
fn take_line<D: Terminal, X: RequestHandler>(
    gate: &mut X,
    alloc: Global,
    console: &Option<ConsoleName>,
    number: usize,
    line: &str,
    terminal: &mut D,
) -> Result<Turn, NowFault>
    ensures sure { X.meaning.is_sure gate.new → X.meaning.is_sure gate.old }
    ensures turn { IfOk result (IsShownTurn D.reads D.dates D.says D.held X.meaning X.handled
        (IsTurnOfLine console.now line.now) number gate.old gate.new terminal.old terminal.new) }
    ensures cut { IfErr result (IsCutTurn D.reads D.dates D.says D.held X.meaning X.handled
        (IsTurnOfLine console.now line.now) number gate.old gate.new terminal.old terminal.new) }
    ensures same { D.identity terminal.new ≡ D.identity terminal.old }
    ensures failed { D.has_failed terminal.new ≡ (if is_cut_by_output result then true else D.has_failed terminal.old) }
{
    if is_blank(line) {
        return Ok(Turn::Blank);
    }
    match request_on(alloc, console, line)? {
        Some(request) => answer(gate, alloc, request, number, terminal),
        None => refuse(alloc, number, &reason_of(number, line), terminal),
    }
}

/// Reads a line and answers it; or the input has ended.
pub(crate) fn take_turn<D: Terminal, X: RequestHandler>(
    gate: &mut X,
    alloc: Global,
    console: &Option<ConsoleName>,
    number: usize,
    terminal: &mut D,
) -> Result<Option<Turn>, NowFault>
    ensures sure { X.meaning.is_sure gate.new → X.meaning.is_sure gate.old }
    ensures turn { IfOk result (λ turn. MatchOption turn
        (IsOver D.reads D.dates D.says D.held X.meaning X.handled console.now gate.old gate.new terminal.old
        terminal.new)
        (IsTakenTurn D.reads D.dates D.says D.held X.meaning X.handled console.now number gate.old gate.new terminal.old
        terminal.new)) }
    ensures cut { IfErr result (IsCutTurn D.reads D.dates D.says D.held X.meaning X.handled
        (IsReadAs D.reads D.dates D.says D.held X.meaning X.handled console.now terminal.old) number gate.old gate.new
        terminal.old terminal.new) }
    ensures same { D.identity terminal.new ≡ D.identity terminal.old }
    ensures failed { D.has_failed terminal.new ≡ (if is_cut_by_output result then true else D.has_failed terminal.old) }
{
    let turn = match terminal.read_line(alloc)? {
        Typed::End => return Ok(None),
        Typed::Line(line) => take_line(gate, alloc, console, number, line.as_str(), terminal)?,
        Typed::NotUtf8 => refuse(alloc, number, &Reason::NotUtf8, terminal)?,
        Typed::LongLine => refuse(alloc, number, &Reason::LongScript, terminal)?,
    };
    Ok(Some(turn))
}
