//! `opcmds import --dry-run`, over a copy of the database file at a path.
ghost use Rattle.std.specs.Prelude.{◌≡◌, IfErr, IfOk, OnErr};
ghost use Rattle.sqlite.specs.WalFiles.{image_at};
ghost use Rattle.opc_store_file.specs.Copies.{IsAsRead};
ghost use Rattle.opc_store.specs.Reading.{IsNotRead};
ghost use Rattle.opc_cli.specs.DryRuns.{IsDryRunAt};
ghost use Rattle.opc_cli.specs.Words.{IsDryRunInFile};

use crate::reading::not_read;
use opc_cli_failures::failure::{Failure, Paths, reported};
use opc_cli_failures::status::Status;
use opc_cli_program::dry_run::dry_run_now;
use opc_cli_tasks::work::Import;
use opc_io::watched::Watched;
use opc_store::opening::NotOpened;
use opc_store::store::Store;
use opc_store_file::copy::CopyFrom;
use sqlite::Start;
use sqlite_disk::Disk;
use std::io::{Read, Write};

/// Opens the database file at a path to read it, and shows what an import would change. `start` stands for what the
/// files hold. Returns the outcome.
pub fn dry_run_at<S: Start, R: Read, W: Write>(
    rt: &HostRuntime,
    path: &str,
    start: S,
    import: &Import<'_>,
    input: &mut R,
    output: &mut Watched<W>,
) -> Result<Result<Status, Failure>, NotOpened>
    ensures done { IfOk result (λ end. IsDryRunAt ⟦<CopyFrom<S> as Disk>⟧ W.contents (image_at S.Start) import.now
        (R.remaining input.old) output.old output.new end) }
    ensures failed { IfErr result
        (λ refused. IsNotRead ⟦<CopyFrom<S> as Disk>⟧ IsAsRead (image_at S.Start) refused.fault) }
    ensures silent { OnErr result (output.new ≡ output.old) }
{
    match Store::open_to_read(rt, path, start) {
        Ok(tables) => {
            let (end, _copy) = dry_run_now(rt, tables, import, input, output);
            Ok(end)
        }
        Err(refused) => Err(refused),
    }
}

/// The files that messages name.
fn paths_of<'a>(path: &'a str, import: &Import<'a>) -> Paths<'a> {
    Paths {
        database: Some(path),
        policy: import.file,
        socket: None,
        log: None,
        policies: None,
    }
}

/// Shows what an import into the database file at a path would change. Neither the file nor its log is made or changed.
pub(crate) fn dry_run_in_file<S: Start, R: Read, W: Write, E: Write>(
    rt: &HostRuntime,
    start: S,
    path: &str,
    import: &Import<'_>,
    input: &mut R,
    output: &mut Watched<W>,
    errors: &mut Watched<E>,
) -> Status
    ensures { IsDryRunInFile ⟦<CopyFrom<S> as Disk>⟧ IsAsRead (image_at S.Start) W.contents E.contents
        (R.remaining input.old) output.old output.new errors.old errors.new result import.now }
{
    let paths = paths_of(path, import);
    match dry_run_at(rt, path, start, import, input, output) {
        Ok(end) => reported(end, &paths, errors),
        Err(refused) => reported(Err(not_read(rt, path, refused)), &paths, errors),
    }
}
