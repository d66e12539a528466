//! `opcmds run`: commands and events, over tables in memory or in a file.
ghost use Rattle.std.specs.Prelude.{◌≡◌, if◌then◌else◌, true};
ghost use Rattle.opc_cli_script.specs.Handlers.{AreSteps};
ghost use Rattle.opc_cli_script.specs.Refusals.{is_cut_by_output};
ghost use Rattle.opc_cli_program.specs.Imports.{IsPolicyTaken};
ghost use Rattle.opc_cli_program.specs.Logging.{IsRunWithLog};
ghost use Rattle.opc_cli_program.specs.Runs.{
  IsAnsweredInput,
  IsEndOf,
  IsNamedPolicyTaken,
  IsProgramRun,
  IsRunAfterPolicy,
  IsRunOfBytes,
};

use crate::import::take_first;
use crate::log_stream::LogStream;
use crate::logging::{log_at, logged_end};
use crate::refusals::FirstPolicy;
use opc_cli_failures::failure::{Failure, Place, note};
use opc_cli_failures::status::Status;
use opc_cli_log::gate::LoggedGate;
use opc_cli_log::log::RunLog;
use opc_cli_questions::openings::Openings;
use opc_cli_questions::policy_file::{PolicyText, read_rows_at};
use opc_cli_questions::streams::read_up_to;
use opc_cli_script::bad_line::reason_of;
use opc_cli_script::handler::RequestHandler;
use opc_cli_script::run::{print_bad_line, run_script};
use opc_cli_script::script::{SCRIPT_LIMIT, ScriptFault};
use opc_gate::gate::Gate;
use opc_io::sink::Sink;
use opc_io::watched::Watched;
use opc_state::tables::Tables;
use opc_terms::fault::Fault;
use std::alloc::Global;
use std::io::Read;
use std::str;

/// Opens the log at a path, if one is named, takes the first policy, if one is named, and then runs the script on the
/// input over these tables, which it returns.
pub fn run_on<H: AllocGlobal + LogStream + Openings, T: Tables, R: Read, K: Sink>(
    rt: &H,
    tables: T,
    policy: Option<&str>,
    log: Option<&str>,
    input: &mut R,
    output: &mut K,
) -> (Result<Status, Failure>, T)
    ensures sure { T.meaning.is_sure result.1 → T.meaning.is_sure tables }
    ensures runs { IsProgramRun T.meaning (H.opens rt.now) H.LogFile.contents K.held K.has_failed (H.holds rt.now)
        tables result.1 policy.entry log.entry (R.remaining input.old) output.old output.new result.0 }
{
    match log_at(rt, log) {
        Ok(log) => run_after_policy(rt, tables, policy, log, input, output),
        Err(failure) => (Err(failure), tables),
    }
}

/// Takes the first policy, if one is named, and then runs the script on the input over these tables, which it returns.
fn run_after_policy<H: AllocGlobal + LogStream + Openings, T: Tables, R: Read, K: Sink>(
    rt: &H,
    tables: T,
    policy: Option<&str>,
    log: Option<RunLog<H::LogFile>>,
    input: &mut R,
    output: &mut K,
) -> (Result<Status, Failure>, T)
    ensures sure { T.meaning.is_sure result.1 → T.meaning.is_sure tables }
    ensures runs { IsRunAfterPolicy T.meaning (H.opens rt.now) H.LogFile.contents K.held K.has_failed (H.holds rt.now)
        tables result.1 policy.entry log (R.remaining input.old) output.old output.new result.0 }
{
    let (taken, tables) = take_policy(rt, tables, policy);
    match taken {
        Ok(_) => run_cached(rt, tables, log, input, output),
        Err(failure) => (Err(failure), tables),
    }
}

/// Takes the first policy, from a file if one is named.
pub(crate) fn take_policy<H: AllocGlobal + Openings, T: Tables>(
    rt: &H,
    tables: T,
    policy: Option<&str>,
) -> (Result<Status, Failure>, T)
    ensures sure { T.meaning.is_sure result.1 → T.meaning.is_sure tables }
    ensures takes { IsNamedPolicyTaken T.meaning (H.holds rt.now) tables result.1 policy.entry
        result.0 }
{
    let Some(path) = policy else {
        return (Ok(Status::Done), tables);
    };
    let mut gate = Gate::over(tables);
    let end = take_file(rt, &mut gate, path);
    (end, gate.into_tables())
}

fn take_file<H: AllocGlobal + Openings, T: Tables>(
    rt: &H,
    gate: &mut Gate<T>,
    path: &str,
) -> Result<Status, Failure>
    ensures sure { T.meaning.is_sure gate.new → T.meaning.is_sure gate.old }
    ensures takes { IsPolicyTaken T.meaning gate.old gate.new result (H.holds rt.now path.now) }
{
    let PolicyText { bytes, rows } = read_rows_at(rt.alloc(), rt, path)?;
    take_first(rt.alloc(), gate, FirstPolicy::Named, &bytes, &rows)
}

/// Runs the script on the input over these tables, with a cache of which profile decides, and returns them.
fn run_cached<H: AllocGlobal + LogStream, T: Tables, R: Read, K: Sink>(
    rt: &H,
    tables: T,
    log: Option<RunLog<H::LogFile>>,
    input: &mut R,
    output: &mut K,
) -> (Result<Status, Failure>, T)
    ensures sure { T.meaning.is_sure result.1 → T.meaning.is_sure tables }
    ensures runs { IsRunWithLog T.meaning H.LogFile.contents log (λ told ran. IsAnsweredInput T.meaning told K.held
        K.has_failed tables result.1 (R.remaining input.old) output.old output.new ran) result.0 }
{
    let mut gate = match Gate::new(rt.alloc(), tables) {
        Ok(gate) => gate,
        Err((fault, tables)) => return (Err(Failure::from(fault)), tables),
    };
    match log {
        Some(log) => {
            let mut logged = LoggedGate { gate, log };
            let ran = answer_script(rt, &mut logged, input, output);
            let end = logged_end(ran, logged.log.fault);
            (end, logged.gate.into_store())
        }
        None => {
            let end = answer_script(rt, &mut gate, input, output);
            (end, gate.into_store())
        }
    }
}

/// Runs the script on the input. One that is not UTF-8 is a bad line, as is one that is too long.
fn answer_script<H: AllocGlobal + LogStream, X: RequestHandler, R: Read, K: Sink>(
    rt: &H,
    gate: &mut X,
    input: &mut R,
    output: &mut K,
) -> Result<Status, Failure>
    ensures sure { X.meaning.is_sure gate.new → X.meaning.is_sure gate.old }
    ensures runs { IsAnsweredInput X.meaning (AreSteps X.handled) K.held K.has_failed gate.old gate.new
        (R.remaining input.old) output.old output.new result }
{
    let bytes = match read_up_to(rt.alloc(), input, SCRIPT_LIMIT) {
        Ok(bytes) => bytes,
        Err(error) => return Err(Failure::at(Place::Input, error)),
    };
    let ran = run_bytes(rt.alloc(), gate, &bytes, output);
    note_bad_line(rt, &bytes, &ran);
    ended(ran)
}

fn run_bytes<X: RequestHandler, K: Sink>(
    alloc: Global,
    gate: &mut X,
    bytes: &[u8],
    output: &mut K,
) -> Result<Status, ScriptFault>
    ensures sure { X.meaning.is_sure gate.new → X.meaning.is_sure gate.old }
    ensures runs { IsRunOfBytes X.meaning (AreSteps X.handled) gate.old gate.new bytes.now (K.held output.old)
        (K.held output.new) result }
    ensures failed { K.has_failed output.new ≡ (if is_cut_by_output result then true else K.has_failed output.old) }
{
    match str::from_utf8(bytes) {
        Ok(script) => run_script(gate, alloc, script, output),
        Err(_) => Err(print_bad_line(alloc, 0, output)),
    }
}

/// Reports on standard error why a line is bad. Nothing is known of what that stream holds, so no clause states it; the
/// tables of `tools/program` have the words.
fn note_bad_line<H: LogStream>(rt: &H, bytes: &[u8], ran: &Result<Status, ScriptFault>) {
    let Err(ScriptFault::BadLine(number)) = ran else {
        return;
    };
    if let Some(reason) = reason_of(bytes, *number) {
        note(Place::Script, &reason, &mut Watched::new(rt.log_stream()));
    }
}

/// The status for a script's run: a bad line was reported on the output.
fn ended(ran: Result<Status, ScriptFault>) -> Result<Status, Failure>
    ensures { IsEndOf ran result }
{
    match ran {
        Ok(status) => Ok(status),
        Err(ScriptFault::BadLine(_)) => Ok(Status::BadInput),
        Err(ScriptFault::NoMemory) => Err(Failure::from(Fault::NoMemory)),
        Err(ScriptFault::Output(error)) => Err(Failure::at(Place::Output, error)),
    }
}
