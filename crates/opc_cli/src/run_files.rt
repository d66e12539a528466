//! The log of a run, apart from the other files of the run: a line that is added to one of those would destroy it.
ghost use Rattle.std.specs.Prelude.{◌≡◌, IfErr, IfSome, IsSomeAnd, OnErr, OnOk, false, option_map, true};
ghost use Rattle.opc_cli_failures.specs.Statuses.{IsFailure};
ghost use Rattle.opc_cli.specs.RunFiles.{IsApart, IsShared, logged_run, run_logged, source_of};

use opc_cli_failures::failure::{Failure, Paths, Place};
use opc_cli_program::log_stream::LogStream;
use opc_cli_tasks::task::Task;
use opc_cli_tasks::work::{Lines, Work};
use std::fs::Metadata;
use std::io::ErrorKind;
use std::os::unix::fs::MetadataExt;
use std::{fs, io};

/// A file that a run reads or writes, besides its log.
#[derive(Clone, Copy)]
pub enum RunFile<'a> {
    /// The database file at this path, or the log that it has of its own.
    Database(&'a str),
    Policy(&'a str),
    Script(&'a str),
    /// The standard input.
    Input,
}

impl RunFile<'_> {
    /// What a log is that is this file.
    fn words(self) -> &'static str {
        match self {
            RunFile::Database(_) => "it is a file of the database",
            RunFile::Policy(_) => "it is the policy file",
            RunFile::Script(_) => "it is the script",
            RunFile::Input => "it is the standard input",
        }
    }
}

/// A run with a log, and its other files.
#[derive(Clone, Copy)]
pub struct LoggedRun<'a> {
    log: &'a str,
    database: Option<RunFile<'a>>,
    policy: Option<RunFile<'a>>,
    source: RunFile<'a>,
}

/// Where runs have their files. Only its call can show what a function over any paths promises by its fact.
pub trait RunPaths {
    ghost use Rattle.std.specs.Prelude.{ℕ, Bool, List};
    ghost use Rattle.opc_cli.specs.declared.run_files.RunFile.{RunFile};

    /// Whether a log was found to be this file.
    ghost finds: { Self → (log : List ℕ) → RunFile → Bool → Type 0 };

    fn is_file(&self, log: &str, file: RunFile<'_>) -> bool
        ensures { finds self.now log.now file.entry result };
}

// No clause states what is at a path: `tools/program` tries it.
impl RunPaths for HostRuntime {
    ghost use Rattle.std.specs.Prelude.{⊤};

    ghost finds = { λ _ _ _ _. ⊤ };

    /// A device is no file in this sense: what is written to it destroys nothing. A log that cannot be opened is none
    /// either; its opening reports why.
    fn is_file(&self, log: &str, file: RunFile<'_>) -> bool {
        let Ok(found) = found_at(self, log) else {
            return false;
        };
        found.is_file() && leads_there(self, file, &found)
    }
}

/// What is at the path of a log, which is made if it is missing: the file that it would be may be missing too.
fn found_at(rt: &HostRuntime, log: &str) -> io::Result<Metadata> {
    match fs::metadata(rt, log) {
        Err(error) if error.kind() == ErrorKind::NotFound => rt.open_log(log)?.metadata(),
        found => found,
    }
}

/// Whether it is this file that was found.
fn leads_there(rt: &HostRuntime, file: RunFile<'_>, found: &Metadata) -> bool {
    match file {
        RunFile::Database(path) => is_at(rt, path, found) || is_own_log(rt, path, found),
        RunFile::Policy(path) | RunFile::Script(path) => is_at(rt, path, found),
        RunFile::Input => is_at(rt, "/dev/stdin", found),
    }
}

/// Whether it is the log that the database at a path has of its own, which lies where the links of that path lead.
fn is_own_log(rt: &HostRuntime, path: &str, found: &Metadata) -> bool {
    let resolved = fs::canonicalize(rt, path);
    let database = match &resolved {
        Ok(database) => database.as_str(),
        Err(_) => path,
    };
    match format!(in rt.alloc(); "{}-wal", database) {
        Ok(log) => is_at(rt, log.as_str(), found),
        // If it is unknown, it counts as that log, and nothing is added to it.
        Err(_) => true,
    }
}

fn is_at(rt: &HostRuntime, path: &str, found: &Metadata) -> bool {
    match fs::metadata(rt, path) {
        Ok(there) => there.dev() == found.dev() && there.ino() == found.ino(),
        Err(_) => false,
    }
}

/// What the lines of a run are read from.
fn source_of<'a>(lines: &Lines<'a>) -> RunFile<'a>
    ensures { result ≡ source_of lines.now }
{
    match *lines {
        Lines::Script(Some(path)) => RunFile::Script(path),
        Lines::Script(None) | Lines::Now(_) => RunFile::Input,
    }
}

/// A run over these files, if it has a log.
fn run_logged<'a>(
    database: Option<&'a str>,
    policy: Option<&'a str>,
    lines: &Lines<'a>,
    log: Option<&'a str>,
) -> Option<LoggedRun<'a>>
    ensures { result ≡ option_map (run_logged database.entry policy.entry lines.now) log.entry }
{
    let log = log?;
    Some(LoggedRun {
        log,
        database: database.map(RunFile::Database),
        policy: policy.map(RunFile::Policy),
        source: source_of(lines),
    })
}

/// The run that a task is, if it has a log.
pub(crate) fn logged_run<'a>(task: &Task<'a>) -> Option<LoggedRun<'a>>
    ensures { result ≡ logged_run task.now }
{
    match task {
        Task::Work(path, Work::Run { policy, lines, log }) => {
            run_logged(Some(*path), *policy, lines, *log)
        }
        Task::InMemory { policy, lines, log } => run_logged(None, *policy, lines, *log),
        // No other task has a log.
        _ => None,
    }
}

/// The file that messages name.
pub(crate) fn paths_of<'a>(run: &LoggedRun<'a>) -> Paths<'a> {
    Paths {
        database: None,
        policy: None,
        socket: None,
        log: Some(run.log),
        policies: None,
    }
}

/// Refuses a log that is this file, if the run has one.
fn apart_from<P: RunPaths>(paths: &P, log: &str, file: Option<RunFile<'_>>) -> Result<(), Failure>
    ensures apart { OnOk result (IfSome file.entry (λ other. P.finds paths.now log.now other false)) }
    ensures shared { OnErr result (IsSomeAnd file.entry (λ other. P.finds paths.now log.now other true)) }
    ensures fault { IfErr result (λ failure. IsFailure failure.fault) }
{
    let Some(file) = file else {
        return Ok(());
    };
    if !paths.is_file(log, file) {
        return Ok(());
    }
    let error = io::Error::new(ErrorKind::InvalidInput, file.words());
    Err(Failure::at(Place::Log, error))
}

/// Refuses the log of a run if it is another file of the run.
pub(crate) fn log_apart<P: RunPaths>(paths: &P, run: &LoggedRun<'_>) -> Result<(), Failure>
    ensures apart { OnOk result (IsApart (P.finds paths.now) run.now) }
    ensures shared { OnErr result (IsShared (P.finds paths.now) run.now) }
    ensures fault { IfErr result (λ failure. IsFailure failure.fault) }
{
    apart_from(paths, run.log, run.database)?;
    apart_from(paths, run.log, run.policy)?;
    apart_from(paths, run.log, Some(run.source))
}
