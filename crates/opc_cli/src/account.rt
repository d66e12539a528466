//! `opcmds account`: rows of the account, asked for by the clock.
ghost use Rattle.sqlite.specs.WalFiles.{image_at};
ghost use Rattle.opc_store_file.specs.Copies.{IsAsRead};
ghost use Rattle.opc_cli.specs.Words.{IsAccountDone};

use crate::reading::{DatabaseQuestion, read_in_file};
use opc_account::asked::AskedQuery;
use opc_cli_failures::failure::{Failure, NO_PATHS, Place, reported};
use opc_cli_failures::status::Status;
use opc_http_serve::clock::moment;
use opc_io::watched::Watched;
use opc_store_file::copy::CopyFrom;
use sqlite::Start;
use sqlite_disk::Disk;
use std::io::Write;

/// Prints the rows of the account in the database file at a path that a query asks for by the clock.
pub(crate) fn show_account<S: Start, W: Write, E: Write>(
    rt: &HostRuntime,
    start: S,
    path: &str,
    asked: &AskedQuery<'_>,
    output: &mut Watched<W>,
    errors: &mut Watched<E>,
) -> Status
    ensures { IsAccountDone ⟦<CopyFrom<S> as Disk>⟧ IsAsRead (image_at S.Start) W.contents E.contents output.old
        output.new errors.old errors.new result asked.now }
{
    match moment(rt) {
        Ok(now) => {
            let query = asked.at(now);
            let reading = DatabaseQuestion::Account(&query);
            read_in_file(rt, start, path, &reading, output, errors)
        }
        Err(error) => reported(Err(Failure::at(Place::Clock, error)), &NO_PATHS, errors),
    }
}
