//! The command line: it does what the arguments ask for, over the tables of a database file or in memory. Results below
//! are enums: only the calls of this crate turn a `Status`, a `ScriptFault` or a `ServeFault` into the number for the
//! system. An `OpenFault` is apart, since only an opening can meet another program's database.
#![tactic(auto)]

mod account;
mod commands;
mod comparing;
mod database;
mod deciding;
pub mod dry_run;
pub mod file;
mod input;
pub mod laws;
mod made;
pub mod memory;
mod questions;
pub mod reading;
mod run;
pub mod run_files;
pub mod script;
pub mod service;

ghost use Rattle.std.specs.Prelude.{◌≡◌, ◌≤◌, false};
ghost use Rattle.sqlite.specs.WalFiles.{image_at};
ghost use Rattle.sqlite_std_file.specs.File.{IsFresh};
ghost use Rattle.opc_store_file.specs.Copies.{IsAsRead};
ghost use Rattle.opc_store.specs.Opening.{opening_fault};
ghost use Rattle.opc_cli_failures.specs.Statuses.{number_of};
ghost use Rattle.opc_cli_words.specs.Reading.{arguments, words_after};
ghost use Rattle.opc_cli.specs.RunFiles.{logged_run};
ghost use Rattle.opc_cli.specs.Words.{
  AreDone,
  IsDoneApart,
  IsMadeNoted,
  IsTaskDone,
  IsWorkInFile,
  IsWorkReported,
  status_of_work,
};

use crate::account::show_account;
use crate::commands::list_commands;
use crate::comparing::compare;
use crate::database::reason_at;
use crate::deciding::decide;
use crate::dry_run::dry_run_in_file;
use crate::file::{Closed, EndedWork, if_missing, work_at};
use crate::input::do_by_input;
use crate::made::report_made;
use crate::questions::answer_from;
use crate::run::run_without_file;
use crate::run_files::{RunPaths, log_apart, logged_run};
pub use crate::script::run_script;
pub use crate::service::serve_on;
use opc_cli_digest::answering::answer_password;
use opc_cli_failures::failure::{Failure, NO_PATHS, Paths, Place, reported};
use opc_cli_failures::reason::Reason;
use opc_cli_failures::status::Status;
use opc_cli_tasks::task::Task;
use opc_cli_tasks::work::{Address, Clients, Work};
use opc_cli_words::joined::joined;
use opc_cli_words::words::read_words;
use opc_io::watched::Watched;
use opc_store::opening::{NotOpened, OpenFault};
use opc_store_file::copy::CopyFrom;
use opc_store_file::site::IfMissing;
use opc_terms::fault::Fault;
use sqlite::{Error, ErrorCode, FileFrom, Start, Wary};
use sqlite_disk::Disk;
use std::io::{IsTerminal, Read, Write};
/// Does what the arguments of a command line ask for, the first of which is the program's own name, and returns the
/// status: 0 done, 1 refused, 2 invalid arguments or input, 3 failed.
pub fn run_words<R: Read, W: Write, E: Write>(
    rt: &HostRuntime,
    words: &[String],
    input: &mut R,
    output: &mut Watched<W>,
    errors: &mut Watched<E>,
) -> u8
    ensures most { result ≤ 3 }
    ensures done { (status : _) × (result ≡ number_of status)
        × AreDone ⟦<FileFrom<Wary> as Disk>⟧ IsFresh ⟦<CopyFrom<Wary> as Disk>⟧ IsAsRead
        (image_at ⟦<Wary as Start>⟧) W.contents E.contents
        (R.remaining input.old) output.old output.new errors.old errors.new status (arguments words.now) }
{
    run_words_from(rt, Wary, words, input, output, errors)
}
/// The same, whatever the database file that the arguments name holds: `start` stands for that, and states what a torn
/// write may leave.
pub fn run_words_from<S: Start, R: Read, W: Write, E: Write>(
    rt: &HostRuntime,
    start: S,
    words: &[String],
    input: &mut R,
    output: &mut Watched<W>,
    errors: &mut Watched<E>,
) -> u8
    ensures most { result ≤ 3 }
    ensures done { (status : _) × (result ≡ number_of status)
        × AreDone ⟦<FileFrom<S> as Disk>⟧ IsFresh ⟦<CopyFrom<S> as Disk>⟧ IsAsRead (image_at S.Start) W.contents
        E.contents (R.remaining input.old) output.old output.new errors.old errors.new status (arguments words.now) }
{
    match joined(rt.alloc(), words) {
        Ok(words) => do_words(rt, start, &words, input, output, errors).number(),
        Err(_) => Failure::from(Fault::NoMemory)
            .report(&NO_PATHS, errors)
            .number(),
    }
}

fn do_words<S: Start, R: Read, W: Write, E: Write>(
    rt: &HostRuntime,
    start: S,
    words: &[String],
    input: &mut R,
    output: &mut Watched<W>,
    errors: &mut Watched<E>,
) -> Status
    ensures { AreDone ⟦<FileFrom<S> as Disk>⟧ IsFresh ⟦<CopyFrom<S> as Disk>⟧ IsAsRead (image_at S.Start) W.contents
        E.contents (R.remaining input.old) output.old output.new errors.old errors.new result (words_after words.now) }
{
    match read_words(rt.alloc(), words, output, errors) {
        Ok(task) => do_apart(rt, rt, start, &task, input, output, errors),
        Err(status) => status,
    }
}
/// Does a task, unless it is a run whose log is another file of it.
fn do_apart<P: RunPaths, S: Start, R: Read, W: Write, E: Write>(
    paths: &P,
    rt: &HostRuntime,
    start: S,
    task: &Task<'_>,
    input: &mut R,
    output: &mut Watched<W>,
    errors: &mut Watched<E>,
) -> Status
    ensures { IsDoneApart ⟦<FileFrom<S> as Disk>⟧ IsFresh ⟦<CopyFrom<S> as Disk>⟧ IsAsRead (image_at S.Start) W.contents
        E.contents (R.remaining input.old) output.old output.new errors.old errors.new result (P.finds paths.now)
        task.now (logged_run task.now) }
{
    let Some(run) = logged_run(task) else {
        return do_by_input(rt, start, task, input, output, errors);
    };
    match log_apart(paths, &run) {
        Ok(()) => do_by_input(rt, start, task, input, output, errors),
        Err(failure) => reported(Err(failure), &run_files::paths_of(&run), errors),
    }
}
/// Does a task. The input is what the task reads in the place of the standard input, if it names a file for that.
fn do_task<S: Start, R: Read, W: Write, E: Write>(
    rt: &HostRuntime,
    start: S,
    task: &Task<'_>,
    input: &mut R,
    output: &mut Watched<W>,
    errors: &mut Watched<E>,
) -> Status
    ensures { IsTaskDone ⟦<FileFrom<S> as Disk>⟧ IsFresh ⟦<CopyFrom<S> as Disk>⟧ IsAsRead (image_at S.Start) W.contents
        E.contents (R.remaining input.old) output.old output.new errors.old errors.new result task.now }
{
    match task {
        Task::Ask(source, question) => {
            answer_from(rt, start, *source, question, input, output, errors)
        }
        Task::Diff(compared) => compare(rt, start, compared, output, errors),
        Task::Account(path, asked) => show_account(rt, start, path, asked, output, errors),
        Task::Work(path, work) => work_in_file(rt, start, path, work, input, output, errors),
        Task::DryRun(path, import) => {
            dry_run_in_file(rt, start, path, import, input, output, errors)
        }
        Task::InMemory { policy, lines, log } => {
            run_without_file(rt, *policy, lines, *log, input, output, errors)
        }
        Task::Decide(asked) => decide(rt, asked, output, errors),
        Task::Digest => {
            let is_typed = is_typed(rt);
            answer_password(rt.alloc(), input, is_typed, &mut output.inner, errors)
        }
        Task::Commands => list_commands(rt.alloc(), output, errors),
    }
}
/// Whether the input is a terminal and the messages appear there. No clause can state that.
fn is_typed(rt: &HostRuntime) -> bool {
    rt.stdin().is_terminal() && rt.stderr().is_terminal()
}
/// The Unix socket at which clients are served.
fn socket_at<'a>(clients: &Clients<'a>) -> Option<&'a str> {
    match clients.address {
        Address::Socket { path, .. } => Some(path),
        Address::Port(_) => None,
    }
}
/// The Unix socket at which an operation listens.
fn socket_of<'a>(work: &Work<'a>) -> Option<&'a str> {
    match work {
        Work::Serve(serve) => socket_at(&serve.clients),
        // No other operation listens.
        _ => None,
    }
}
/// The log that an operation writes to a file.
fn log_of<'a>(work: &Work<'a>) -> Option<&'a str> {
    match work {
        Work::Run { log, .. } => *log,
        // No other operation has one.
        _ => None,
    }
}
/// The folder into which an operation brings the policy.
fn policies_of<'a>(work: &Work<'a>) -> Option<&'a str> {
    match work {
        Work::Serve(serve) => serve.policies,
        // No other operation brings it anywhere.
        _ => None,
    }
}
/// The files that are named, if an operation is run over the database file at a path.
fn paths_of<'a>(path: &'a str, work: &Work<'a>) -> Paths<'a> {
    let policy = match work {
        Work::Run { policy, .. } => *policy,
        Work::Import(import) => import.file,
        Work::Export | Work::Serve(_) => None,
    };
    Paths {
        database: Some(path),
        policy,
        socket: socket_of(work),
        log: log_of(work),
        policies: policies_of(work),
    }
}
/// Does a work over the tables of the database file at a path. An export that made the tables reports that.
fn work_in_file<S: Start, R: Read, W: Write, E: Write>(
    rt: &HostRuntime,
    start: S,
    path: &str,
    work: &Work<'_>,
    input: &mut R,
    output: &mut Watched<W>,
    errors: &mut Watched<E>,
) -> Status
    ensures { IsWorkInFile ⟦<FileFrom<S> as Disk>⟧ IsFresh (image_at S.Start) W.contents E.contents
        (R.remaining input.old) output.old output.new errors.old errors.new result path.now work.now }
{
    match work_at(rt, path, start, work, input, output) {
        Ok(done) => {
            let EndedWork {
                end,
                closed,
                are_made,
            } = done;
            note_made(path, work, are_made, errors);
            ended(end, closed, &paths_of(path, work), errors)
        }
        Err(refused) => {
            let failure = not_opened(rt, path, if_missing(work), refused);
            reported(Err(failure), &paths_of(path, work), errors)
        }
    }
}
/// Reports that an export made the tables: the policy that it writes is that of a new database, so the path may be
/// another one than was meant.
fn note_made<E: Write>(path: &str, work: &Work<'_>, are_made: bool, errors: &mut Watched<E>)
    ensures noted { IsMadeNoted E.contents errors.old errors.new path.now work.now are_made }
    ensures kept { errors.new.failed ≡ false → errors.old.failed ≡ false }
{
    match work {
        Work::Export => {
            if are_made {
                report_made(path, errors);
            }
        }
        Work::Run { .. } | Work::Import(_) | Work::Serve(_) => {}
    }
}
/// Reports the outcome of an operation over a file, and then why the file was not closed, if it was not.
fn ended<S: Start, E: Write>(
    end: Result<Status, Failure>,
    closed: Closed<S>,
    paths: &Paths<'_>,
    errors: &mut Watched<E>,
) -> Status
    ensures status { result ≡ status_of_work end closed }
    ensures reported { IsWorkReported E.contents errors.old errors.new end closed }
    ensures kept { errors.new.failed ≡ false → errors.old.failed ≡ false }
{
    let status = reported(end, paths, errors);
    match closed {
        Ok(_) => status,
        Err((error, _)) => reported(Err(not_closed(error)), paths, errors),
    }
}

fn of_database(fault: Fault, reason: Reason) -> Failure
    ensures { result.fault ≡ fault }
{
    Failure::of(fault, Place::Database, reason)
}
/// The last commit was not checkpointed. What was acknowledged is safe nevertheless.
fn not_closed(error: Error) -> Failure
    ensures { result.fault ≡ Fault.Store }
{
    let reason = match error {
        Error::SqliteFailure(ErrorCode::DiskFull) => Reason::DiskFull,
        // A close reports no other cause that a user could act on.
        _ => Reason::Unreadable,
    };
    of_database(Fault::Store, reason)
}

fn not_opened(rt: &HostRuntime, path: &str, if_missing: IfMissing, refused: NotOpened) -> Failure
    ensures { result.fault ≡ opening_fault refused.fault }
{
    match refused.fault {
        OpenFault::NoMemory => Failure::from(Fault::NoMemory),
        OpenFault::Store if refused.is_full => of_database(Fault::Store, Reason::DiskFull),
        // The store has one fault for every other failure below it, so the file is opened once more to learn why.
        OpenFault::Store => of_database(Fault::Store, reason_at(rt, path, if_missing)),
        OpenFault::NotOurs(version) => {
            of_database(Fault::from(refused.fault), Reason::Tables(version))
        }
    }
}
