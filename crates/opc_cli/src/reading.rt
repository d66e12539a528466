//! What is read of a database file.
ghost use Rattle.std.specs.Prelude.{◌≡◌, IfErr, IfOk, OnErr};
ghost use Rattle.sqlite.specs.WalFiles.{image_at};
ghost use Rattle.opc_store_file.specs.Copies.{IsAsRead};
ghost use Rattle.opc_store.specs.Opening.{opening_fault};
ghost use Rattle.opc_store.specs.Reading.{IsNotRead};
ghost use Rattle.opc_cli.specs.Words.{IsReadInFile};
ghost use Rattle.opc_cli.specs.Reads.{IsRead, IsReadAt, reading_of};

use crate::database::{reason_for_tables, reason_to_read};
use crate::of_database;
use opc_account::printing::print_account;
use opc_account::query::Query;
use opc_cli_failures::failure::{Failure, Paths, reported};
use opc_cli_failures::status::Status;
use opc_cli_questions::answering::answer_on;
use opc_cli_tasks::question::PolicyQuestion;
use opc_io::watched::Watched;
use opc_store::opening::{NotOpened, OpenFault};
use opc_store::store::Store;
use opc_store_file::copy::CopyFrom;
use opc_terms::fault::Fault;
use sqlite::{FileStore, Start};
use sqlite_disk::Disk;
use std::alloc::Global;
use std::io::Write;

/// A query of a database file that is only read.
#[derive(Clone, Copy)]
pub enum DatabaseQuestion<'a> {
    /// The rows of its account that a query shows.
    Account(&'a Query<'a>),
    /// The answer to a question about its policy.
    Answer(&'a PolicyQuestion<'a>),
}

/// Opens the database file at a path to read it, and prints what the query asks for. `start` stands for what the files
/// hold. Returns the outcome.
pub fn read_at<S: Start, W: Write>(
    rt: &HostRuntime,
    path: &str,
    start: S,
    reading: &DatabaseQuestion<'_>,
    output: &mut W,
) -> Result<Result<Status, Failure>, NotOpened>
    ensures done { IfOk result (λ end. IsReadAt ⟦<CopyFrom<S> as Disk>⟧ W.contents (image_at S.Start)
        (reading_of reading.now) output.old output.new end) }
    ensures failed { IfErr result
        (λ refused. IsNotRead ⟦<CopyFrom<S> as Disk>⟧ IsAsRead (image_at S.Start) refused.fault) }
    ensures silent { OnErr result (output.new ≡ output.old) }
{
    match Store::open_to_read(rt, path, start) {
        Ok(mut tables) => Ok(read_on(rt.alloc(), &mut tables, reading, output)),
        Err(refused) => Err(refused),
    }
}

fn read_on<S: Start, W: Write>(
    alloc: Global,
    tables: &mut Store<FileStore<CopyFrom<S>>>,
    reading: &DatabaseQuestion<'_>,
    output: &mut W,
) -> Result<Status, Failure>
    ensures { IsRead W.contents tables.old tables.new output.old output.new result (reading_of reading.now) }
{
    match *reading {
        DatabaseQuestion::Account(query) => print_account(alloc, tables, query, output),
        DatabaseQuestion::Answer(question) => answer_on(alloc, tables, question, output),
    }
}

/// The file that messages name.
fn paths_of(path: &str) -> Paths<'_> {
    Paths {
        database: Some(path),
        policy: None,
        socket: None,
        log: None,
        policies: None,
    }
}

/// Prints what a query of the database file at a path asks for. Neither the file nor its log is made or changed.
pub(crate) fn read_in_file<S: Start, W: Write, E: Write>(
    rt: &HostRuntime,
    start: S,
    path: &str,
    reading: &DatabaseQuestion<'_>,
    output: &mut Watched<W>,
    errors: &mut Watched<E>,
) -> Status
    ensures { IsReadInFile ⟦<CopyFrom<S> as Disk>⟧ IsAsRead (image_at S.Start) W.contents E.contents output.old
        output.new errors.old errors.new result (reading_of reading.now) }
{
    match read_at(rt, path, start, reading, &mut output.inner) {
        Ok(end) => reported(end, &paths_of(path), errors),
        Err(refused) => reported(Err(not_read(rt, path, refused)), &paths_of(path), errors),
    }
}

pub(crate) fn not_read(rt: &HostRuntime, path: &str, refused: NotOpened) -> Failure
    ensures { result.fault ≡ opening_fault refused.fault }
{
    match refused.fault {
        OpenFault::NoMemory => Failure::from(Fault::NoMemory),
        // As for any opening, there is one fault for every other failure, so the file is read once more to learn why.
        OpenFault::Store => of_database(Fault::Store, reason_to_read(rt, path)),
        OpenFault::NotOurs(version) => {
            of_database(
                Fault::from(refused.fault),
                reason_for_tables(rt, path, version),
            )
        }
    }
}
