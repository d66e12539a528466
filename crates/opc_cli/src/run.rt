//! `opcmds run` without a database file.
ghost use Rattle.std.specs.Prelude.{◌≡◌};
ghost use Rattle.opc_cli.specs.Words.{AreLinesDoneInMemory, IsDoneInMemory, IsInMemory};

use crate::memory::{answer_lines_in_memory, run_in_memory};
use opc_cli_failures::failure::Paths;
use opc_cli_failures::status::Status;
use opc_cli_questions::empty_room::reported_in_memory;
use opc_cli_tasks::work::Lines;
use opc_io::watched::Watched;
use opc_names::name::ConsoleName;
use std::io::{Read, Write};

/// The files that are named.
fn paths_of<'a>(policy: Option<&'a str>, log: Option<&'a str>) -> Paths<'a>
    ensures { result.policy ≡ policy.entry }
{
    Paths {
        database: None,
        policy,
        socket: None,
        log,
        policies: None,
    }
}

/// Answers the lines of the input over tables in memory.
pub(crate) fn run_without_file<R: Read, W: Write, E: Write>(
    rt: &HostRuntime,
    policy: Option<&str>,
    lines: &Lines<'_>,
    log: Option<&str>,
    input: &mut R,
    output: &mut Watched<W>,
    errors: &mut Watched<E>,
) -> Status
    ensures { IsInMemory W.contents E.contents (R.remaining input.old) output.old output.new errors.old errors.new
        result policy.entry lines.now log.entry }
{
    match lines {
        Lines::Script(_) => answer_script(rt, policy, log, input, output, errors),
        Lines::Now(console) => answer_now(rt, policy, log, console, input, output, errors),
    }
}

/// Answers the script on the input.
fn answer_script<R: Read, W: Write, E: Write>(
    rt: &HostRuntime,
    policy: Option<&str>,
    log: Option<&str>,
    input: &mut R,
    output: &mut Watched<W>,
    errors: &mut Watched<E>,
) -> Status
    ensures { IsDoneInMemory W.contents E.contents (R.remaining input.old) output.old output.new errors.old errors.new
        result policy.entry log.entry }
{
    let end = run_in_memory(rt, policy, log, input, output);
    reported_in_memory(end, &paths_of(policy, log), errors)
}

/// Answers each line on the input as it is read.
fn answer_now<R: Read, W: Write, E: Write>(
    rt: &HostRuntime,
    policy: Option<&str>,
    log: Option<&str>,
    console: &Option<ConsoleName>,
    input: &mut R,
    output: &mut Watched<W>,
    errors: &mut Watched<E>,
) -> Status
    ensures { AreLinesDoneInMemory W.contents E.contents (R.remaining input.old) output.old output.new errors.old
        errors.new result console.now policy.entry log.entry }
{
    let end = answer_lines_in_memory(rt, policy, log, console, input, output);
    reported_in_memory(end, &paths_of(policy, log), errors)
}
