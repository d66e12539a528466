//! `opcmds run --now`: lines that are answered as they are read.
ghost use Rattle.opc_cli_script.specs.Handlers.{AreSteps};
ghost use Rattle.opc_cli_program.specs.Lines.{
  AreLinesAfterPolicy,
  AreLinesAnswered,
  AreLinesAnsweredBy,
  AreProgramLines,
  IsEndOfLines,
};
ghost use Rattle.opc_cli_program.specs.Logging.{IsRunWithLog};

use crate::log_stream::LogStream;
use crate::logging::{log_at, logged_end};
use crate::run::take_policy;
use crate::streams::Streams;
use crate::wall_clock::WallClock;
use opc_cli_failures::failure::{Failure, Place};
use opc_cli_failures::status::Status;
use opc_cli_log::gate::LoggedGate;
use opc_cli_log::log::RunLog;
use opc_cli_questions::openings::Openings;
use opc_cli_script::fault::NowFault;
use opc_cli_script::handler::RequestHandler;
use opc_gate::gate::Gate;
use opc_io::watched::Watched;
use opc_names::name::ConsoleName;
use opc_state::tables::Tables;
use opc_terms::fault::Fault;
use std::io::{Read, Write};

/// Opens the log at a path, if one is named, takes the first policy, if one is named, and then answers the lines on the
/// input over these tables, which it returns.
pub fn answer_lines_on<
    H: AllocGlobal + WallClock + LogStream + Openings,
    T: Tables,
    R: Read,
    W: Write,
>(
    rt: &H,
    tables: T,
    policy: Option<&str>,
    log: Option<&str>,
    console: &Option<ConsoleName>,
    input: &mut R,
    output: &mut Watched<W>,
) -> (Result<Status, Failure>, T)
    ensures sure { T.meaning.is_sure result.1 → T.meaning.is_sure tables }
    ensures answers { AreProgramLines T.meaning (λ (w : Watched W). W.contents w.inner) (λ (w : Watched W). w.failed)
        H.shows_moment console.now (H.opens rt.now) H.LogFile.contents (H.holds rt.now) tables result.1 policy.entry
        log.entry (R.remaining input.old) output.old output.new result.0 }
{
    match log_at(rt, log) {
        Ok(log) => answer_after_policy(rt, tables, policy, log, console, input, output),
        Err(failure) => (Err(failure), tables),
    }
}

/// Takes the first policy, if one is named, and then answers the lines on the input over these tables, which it
/// returns.
fn answer_after_policy<
    H: AllocGlobal + WallClock + LogStream + Openings,
    T: Tables,
    R: Read,
    W: Write,
>(
    rt: &H,
    tables: T,
    policy: Option<&str>,
    log: Option<RunLog<H::LogFile>>,
    console: &Option<ConsoleName>,
    input: &mut R,
    output: &mut Watched<W>,
) -> (Result<Status, Failure>, T)
    ensures sure { T.meaning.is_sure result.1 → T.meaning.is_sure tables }
    ensures answers { AreLinesAfterPolicy T.meaning (λ (w : Watched W). W.contents w.inner)
        (λ (w : Watched W). w.failed) H.shows_moment console.now (H.opens rt.now) H.LogFile.contents (H.holds rt.now)
        tables result.1 policy.entry log (R.remaining input.old) output.old output.new result.0 }
{
    let (taken, tables) = take_policy(rt, tables, policy);
    match taken {
        Ok(_) => answer_over(rt, tables, log, console, input, output),
        Err(failure) => (Err(failure), tables),
    }
}

/// Answers the lines on the input over these tables, and returns them. For one line at a time a cache would be of no
/// use.
fn answer_over<H: AllocGlobal + WallClock + LogStream, T: Tables, R: Read, W: Write>(
    rt: &H,
    tables: T,
    log: Option<RunLog<H::LogFile>>,
    console: &Option<ConsoleName>,
    input: &mut R,
    output: &mut Watched<W>,
) -> (Result<Status, Failure>, T)
    ensures sure { T.meaning.is_sure result.1 → T.meaning.is_sure tables }
    ensures answers { IsRunWithLog T.meaning H.LogFile.contents log (λ told ran. AreLinesAnswered T.meaning
        (λ (w : Watched W). W.contents w.inner) (λ (w : Watched W). w.failed) H.shows_moment console.now told tables
        result.1 (R.remaining input.old) output.old output.new ran) result.0 }
{
    let mut gate = Gate::over(tables);
    match log {
        Some(log) => {
            let mut logged = LoggedGate { gate, log };
            let ran = answer_on(rt, &mut logged, console, input, output);
            let end = logged_end(ran, logged.log.fault);
            (end, logged.gate.into_tables())
        }
        None => {
            let end = answer_on(rt, &mut gate, console, input, output);
            (end, gate.into_tables())
        }
    }
}

/// Answers the lines on the input.
fn answer_on<H: AllocGlobal + WallClock + LogStream, X: RequestHandler, R: Read, W: Write>(
    rt: &H,
    gate: &mut X,
    console: &Option<ConsoleName>,
    input: &mut R,
    output: &mut Watched<W>,
) -> Result<Status, Failure>
    ensures sure { X.meaning.is_sure gate.new → X.meaning.is_sure gate.old }
    ensures answers { AreLinesAnsweredBy X.meaning X.handled (λ (w : Watched W). W.contents w.inner)
        (λ (w : Watched W). w.failed) H.shows_moment console.now (AreSteps X.handled) gate.old gate.new
        (R.remaining input.old) output.old output.new result }
{
    let mut streams = Streams::new(rt, input, output);
    ended(streams.answer_with(gate, console))
}

/// The status for lines that were answered: a bad line was reported on the output.
fn ended(answered: Result<Status, NowFault>) -> Result<Status, Failure>
    ensures { IsEndOfLines answered result }
{
    match answered {
        Ok(status) => Ok(status),
        Err(NowFault::Input(error)) => Err(Failure::at(Place::Input, error)),
        Err(NowFault::Clock(error)) => Err(Failure::at(Place::Clock, error)),
        Err(NowFault::Output(error)) => Err(Failure::at(Place::Output, error)),
        Err(NowFault::NoMemory) => Err(Failure::from(Fault::NoMemory)),
    }
}
