//! An operation over the tables of a database file.
ghost use Rattle.std.specs.Prelude.{◌≡◌, IfErr, IfOk, OnErr};
ghost use Rattle.sqlite.specs.WalFiles.{image_at};
ghost use Rattle.sqlite_std_file.specs.File.{IsFresh};
ghost use Rattle.opc_store.specs.Opening.{IsNotOpened};
ghost use Rattle.opc_cli.specs.Works.{IsWorkAt, if_missing};

use opc_cli_failures::failure::Failure;
use opc_cli_failures::status::Status;
use opc_cli_program::ports::System;
use opc_cli_program::work::work_on;
use opc_cli_tasks::work::Work;
use opc_io::watched::Watched;
use opc_store::opening::NotOpened;
use opc_store::store::Store;
use opc_store_file::site::IfMissing;
use sqlite::{Error, FileFrom, FileStore, Files, Start};
use sqlite_disk::Disk;
use std::io::{Read, Write};

/// The two files of a database that is closed, with the last commit in the database file, or why they are not.
pub type Closed<S> = Result<Files<FileFrom<S>>, (Error, FileStore<FileFrom<S>>)>;

/// The outcome of an operation over the tables of a database file. The kit cannot state a struct over `S` whose fields
/// hold files, so what the closing did is a parameter: `Closed<S>`.
pub struct EndedWork<C> {
    /// The status of the operation, or why it failed.
    pub end: Result<Status, Failure>,
    /// The two files, or why they were not closed.
    pub closed: C,
    /// Whether this opening made the tables, because there were none.
    pub are_made: bool,
}

/// What a work does if there is no database file. An export has none to write, and the path may be mistyped.
pub(crate) fn if_missing(work: &Work<'_>) -> IfMissing
    ensures { result ≡ if_missing work.now }
{
    match work {
        Work::Export => IfMissing::Refuse,
        Work::Run { .. } | Work::Import(_) | Work::Serve(_) => IfMissing::Make,
    }
}

/// Opens the database file at a path, or makes it for a work that may, does a work over its tables, and closes it.
/// `start` stands for what the files hold, and states what a torn write may leave.
pub fn work_at<S: Start, R: Read, W: Write>(
    rt: &HostRuntime,
    path: &str,
    start: S,
    work: &Work<'_>,
    input: &mut R,
    output: &mut Watched<W>,
) -> Result<EndedWork<Closed<S>>, NotOpened>
    ensures worked { IfOk result (λ ended. IsWorkAt W.contents (image_at S.Start) work.now (R.remaining input.old)
        output.old output.new ended.end ended.closed ended.are_made) }
    ensures failed { IfErr result
        (λ refused. IsNotOpened ⟦<FileFrom<S> as Disk>⟧ IsFresh (image_at S.Start) refused.fault) }
    ensures silent { OnErr result (output.new ≡ output.old) }
{
    match Store::open_at(rt, path, start, if_missing(work)) {
        Ok((tables, are_made)) => {
            let (end, tables) = work_on(rt, &System { net: rt }, tables, work, input, output);
            Ok(EndedWork {
                end,
                closed: tables.close(),
                are_made,
            })
        }
        Err(refused) => Err(refused),
    }
}
