//! Runs over new tables in memory.
ghost use Rattle.opc_cli.specs.Works.{AreLinesInMemory, IsRunInMemory};

use opc_cli_failures::failure::Failure;
use opc_cli_failures::status::Status;
use opc_cli_program::lines::answer_lines_on;
use opc_cli_program::log_stream::LogStream;
use opc_cli_program::run::run_on;
use opc_cli_program::wall_clock::WallClock;
use opc_cli_questions::openings::Openings;
use opc_io::sink::Sink;
use opc_io::watched::Watched;
use opc_names::name::ConsoleName;
use opc_store::store::Store;
use opc_terms::fault::Fault;
use std::io::{Read, Write};

/// Opens the log and takes the first policy, if they are named, and then runs the script on the input over new tables
/// in memory.
pub fn run_in_memory<H: AllocGlobal + LogStream + Openings, R: Read, K: Sink>(
    rt: &H,
    policy: Option<&str>,
    log: Option<&str>,
    input: &mut R,
    output: &mut K,
) -> Result<Status, Failure>
    ensures ran { IsRunInMemory K.held K.has_failed (H.opens rt.now) H.LogFile.contents (H.holds rt.now) policy.entry
        log.entry (R.remaining input.old) output.old output.new result }
{
    match Store::in_memory(rt.alloc()) {
        Ok(tables) => run_on(rt, tables, policy, log, input, output).0,
        Err(fault) => Err(Failure::from(Fault::from(fault))),
    }
}

/// Opens the log and takes the first policy, if they are named, and then answers the lines on the input over new tables
/// in memory.
pub fn answer_lines_in_memory<H: AllocGlobal + WallClock + LogStream + Openings, R: Read, W: Write>(
    rt: &H,
    policy: Option<&str>,
    log: Option<&str>,
    console: &Option<ConsoleName>,
    input: &mut R,
    output: &mut Watched<W>,
) -> Result<Status, Failure>
    ensures answered { AreLinesInMemory (λ (w : Watched W). W.contents w.inner) (λ (w : Watched W). w.failed)
        H.shows_moment console.now (H.opens rt.now) H.LogFile.contents (H.holds rt.now) policy.entry log.entry
        (R.remaining input.old) output.old output.new result }
{
    match Store::in_memory(rt.alloc()) {
        Ok(tables) => answer_lines_on(rt, tables, policy, log, console, input, output).0,
        Err(fault) => Err(Failure::from(Fault::from(fault))),
    }
}
