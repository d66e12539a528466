//! What a task reads: the standard input, or the file that it names in its place.
ghost use Rattle.std.specs.Prelude.{◌≡◌};
ghost use Rattle.sqlite.specs.WalFiles.{image_at};
ghost use Rattle.sqlite_std_file.specs.File.{IsFresh};
ghost use Rattle.opc_store_file.specs.Copies.{IsAsRead};
ghost use Rattle.opc_cli.specs.Words.{IsTaskDoneBy, input_file, script_file};

use crate::do_task;
use opc_cli_failures::failure::reported;
use opc_cli_failures::status::Status;
use opc_cli_program::input_file::{InputFile, read_file};
use opc_cli_questions::policy_file::paths_of;
use opc_cli_tasks::task::Task;
use opc_cli_tasks::work::{Lines, Work};
use opc_io::watched::Watched;
use opc_store_file::copy::CopyFrom;
use sqlite::{FileFrom, Start};
use sqlite_disk::Disk;
use std::io::{Read, Write};

/// The script that lines name.
fn script_file<'a>(lines: &Lines<'a>) -> Option<InputFile<'a>>
    ensures { result ≡ script_file lines.now }
{
    match *lines {
        Lines::Script(Some(path)) => Some(InputFile::Script(path)),
        Lines::Script(None) | Lines::Now(_) => None,
    }
}

/// The file that a task reads in the place of the standard input, if it names one.
fn input_file<'a>(task: &Task<'a>) -> Option<InputFile<'a>>
    ensures { result ≡ input_file task.now }
{
    match task {
        Task::Work(_, Work::Run { lines, .. }) => script_file(lines),
        Task::InMemory { lines, .. } => script_file(lines),
        Task::Work(_, Work::Import(import)) => import.file.map(InputFile::Policy),
        Task::DryRun(_, import) => import.file.map(InputFile::Policy),
        // A question opens its policy file itself, and no other task reads a file in the place of the input.
        _ => None,
    }
}

/// Does a task by what it reads. A file that it names is read whole before a database is made or opened.
pub(crate) fn do_by_input<S: Start, R: Read, W: Write, E: Write>(
    rt: &HostRuntime,
    start: S,
    task: &Task<'_>,
    input: &mut R,
    output: &mut Watched<W>,
    errors: &mut Watched<E>,
) -> Status
    ensures { IsTaskDoneBy ⟦<FileFrom<S> as Disk>⟧ IsFresh ⟦<CopyFrom<S> as Disk>⟧ IsAsRead (image_at S.Start)
        W.contents E.contents (R.remaining input.old) output.old output.new errors.old errors.new result task.now
        (input_file task.now) }
{
    let Some(file) = input_file(task) else {
        return do_task(rt, start, task, input, output, errors);
    };
    match read_file(rt, file) {
        Ok(bytes) => {
            let mut rest: &[u8] = &bytes;
            do_task(rt, start, task, &mut rest, output, errors)
        }
        Err(failure) => reported(Err(failure), &paths_of(Some(file.path())), errors),
    }
}
