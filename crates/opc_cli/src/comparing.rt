//! `opcmds diff`: two policies, each of a file or of a database.
ghost use Rattle.sqlite.specs.WalFiles.{image_at};
ghost use Rattle.opc_store_file.specs.Copies.{IsAsRead};
ghost use Rattle.opc_cli.specs.Compares.{IsOtherSide, IsSideFrom, IsSideIn};
ghost use Rattle.opc_cli.specs.Words.{AreCompared, AreComparedWith};
ghost use Rattle.opc_cli_questions.specs.Sides.{IsMade};

use crate::reading::not_read;
use opc_cli_failures::failure::Failure;
use opc_cli_failures::status::Status;
use opc_cli_questions::comparing::{compare_with, side_refused};
use opc_cli_questions::sides::{PolicySide, side_at, side_on};
use opc_cli_tasks::question::Comparison;
use opc_cli_tasks::source::NamedPolicy;
use opc_io::watched::Watched;
use opc_store::store::Store;
use opc_store_file::copy::CopyFrom;
use sqlite::{Start, Wary};
use sqlite_disk::Disk;
use std::io::Write;

/// The policy of the database file at a path. Neither the file nor its log is made or changed.
fn side_in<S: Start>(rt: &HostRuntime, start: S, path: &str) -> Result<PolicySide, Failure>
    ensures side { IsSideIn ⟦<CopyFrom<S> as Disk>⟧ IsAsRead (image_at S.Start) result }
    ensures made { IsMade result }
{
    match Store::open_to_read(rt, path, start) {
        Ok(mut tables) => side_on(rt.alloc(), &mut tables),
        Err(refused) => Err(not_read(rt, path, refused)),
    }
}

/// The policy that is named.
fn side_from<S: Start>(
    rt: &HostRuntime,
    start: S,
    named: &NamedPolicy<'_>,
) -> Result<PolicySide, Failure>
    ensures side { IsSideFrom ⟦<CopyFrom<S> as Disk>⟧ IsAsRead (image_at S.Start) result named.now }
    ensures other { IsOtherSide named.now result }
{
    match *named {
        NamedPolicy::File(path) => side_at(rt.alloc(), rt, path),
        NamedPolicy::Database(path) => side_in(rt, start, path),
    }
}

/// Compares a policy with the one that is named, and prints what changes.
fn compare_with_named<W: Write, E: Write>(
    rt: &HostRuntime,
    old: PolicySide,
    compared: &Comparison<'_>,
    output: &mut Watched<W>,
    errors: &mut Watched<E>,
) -> Status
    ensures { AreComparedWith W.contents E.contents output.old output.new errors.old errors.new result
        compared.now old }
{
    // What `start` states is known of one file alone.
    let new = side_from(rt, Wary, &compared.new);
    compare_with(rt.alloc(), old, new, compared, output, errors)
}

/// Compares two policies: prints what changes from the old to the new one, and returns whether rows differ.
pub(crate) fn compare<S: Start, W: Write, E: Write>(
    rt: &HostRuntime,
    start: S,
    compared: &Comparison<'_>,
    output: &mut Watched<W>,
    errors: &mut Watched<E>,
) -> Status
    ensures { AreCompared W.contents E.contents output.old output.new errors.old errors.new result
        ⟦<CopyFrom<S> as Disk>⟧ IsAsRead (image_at S.Start) compared.now }
{
    match side_from(rt, start, &compared.old) {
        Ok(old) => compare_with_named(rt, old, compared, output, errors),
        Err(failure) => side_refused(failure, &compared.old, errors),
    }
}
