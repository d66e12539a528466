//! An operation of the program, over tables that are open.
ghost use Rattle.opc_http_connections.specs.Links.{link_of};
ghost use Rattle.opc_http_serve.specs.Coming.{source_at};
ghost use Rattle.opc_cli_program.specs.Works.{IsDone, IsImportNow};

use crate::import::{export_on, import_on};
use crate::lines::answer_lines_on;
use crate::log_stream::LogStream;
use crate::ports::Ports;
use crate::run::run_on;
use crate::serve::serve_tables;
use crate::wall_clock::WallClock;
use opc_cli_failures::failure::{Failure, Place};
use opc_cli_failures::status::Status;
use opc_cli_questions::openings::Openings;
use opc_cli_tasks::work::{Import, Lines, Work};
use opc_http_connections::listener::ClientListener;
use opc_http_connections::timer::Timer;
use opc_io::watched::Watched;
use opc_policy_folder::folder::Folder;
use opc_state::tables::Tables;
use std::io::{Read, Write};
use std::rt::Clock;

/// Runs an operation over these tables, and returns them. The input is what the operation reads: the file that it names
/// or, if it names none, the standard input.
pub fn work_on<
    H: AllocGlobal + Clock + LogStream + Openings + WallClock + Folder,
    P: Ports<Listener = L, Socket = S>,
    L: ClientListener,
    S: ClientListener,
    T: Tables,
    R: Read,
    W: Write,
>(
    rt: &H,
    ports: &P,
    tables: T,
    work: &Work<'_>,
    input: &mut R,
    output: &mut Watched<W>,
) -> (Result<Status, Failure>, T)
where
    L: Drop,
    S: Drop,
    ensures sure { T.meaning.is_sure result.1 → T.meaning.is_sure tables }
    ensures done { IsDone T.meaning W.contents tables result.1 (R.remaining input.old) output.old output.new result.0
        (source_at (link_of L.Client.limits ⟦<H as Timer>⟧.shows L.Client.reads L.Client.remaining L.Client.contents)
        L.accepts L.Client.clones) (source_at (link_of S.Client.limits ⟦<H as Timer>⟧.shows S.Client.reads
        S.Client.remaining S.Client.contents) S.accepts S.Client.clones) (⟦<H as Openings>⟧.holds rt.now)
        (H.opens rt.now) H.LogFile.contents H.shows_moment (H.is_for_logs rt.now) H.Stream.contents
        ⟦<H as Folder>⟧.holds H.writes H.publishes rt.now work.now }
{
    match work {
        Work::Run { policy, lines, log } => match lines {
            Lines::Script(_) => run_on(rt, tables, *policy, *log, input, output),
            Lines::Now(console) => {
                answer_lines_on(rt, tables, *policy, *log, console, input, output)
            }
        },
        Work::Import(import) => import_now(rt, tables, import, input, output),
        Work::Export => export_on(rt.alloc(), tables, output),
        Work::Serve(serve) => serve_tables(rt, ports, tables, serve, &mut output.inner),
    }
}

/// Puts the policy file on the input into these tables, at the time of the clock, and returns them.
fn import_now<H: AllocGlobal + WallClock, T: Tables, R: Read, W: Write>(
    rt: &H,
    tables: T,
    import: &Import<'_>,
    input: &mut R,
    output: &mut Watched<W>,
) -> (Result<Status, Failure>, T)
    ensures sure { T.meaning.is_sure result.1 → T.meaning.is_sure tables }
    ensures imports { IsImportNow T.meaning W.contents tables result.1 (R.remaining input.old)
        output.old output.new result.0 H.shows_moment import.now }
{
    match rt.moment_now() {
        Ok(moment) => import_on(rt.alloc(), tables, moment, import, input, output),
        Err(error) => (Err(Failure::at(Place::Clock, error)), tables),
    }
}
