//! The outcome of a whole operation over a database file, and what a crash or a fault of the disk leaves at a request;
//! each law as what a call without a body ensures.
ghost use Rattle.opc_cli.specs.Kept.{
  ExportsLeaveTheFile,
  FirstImportsAreKept,
  FirstPoliciesAreKept,
  ImportsAreKept,
  RefusedPoliciesChangeNothing,
  RunsAreKept,
};
ghost use Rattle.opc_cli.specs.Reads.{AccountsAreShown, AnswersAreOfTheExport};
ghost use Rattle.opc_cli.specs.Shut.{RequestsAreLeftWhole, ShutTablesGiveUp, ShutTablesStay};

use sqlite::Alter;
use sqlite_disk::Disk;
use std::io::Write;

/// A script without a bad line, run over a database file, leaves in it the state that its requests lead to.
pub fn runs_are_kept<D: Disk, W: Write>()
    ensures { RunsAreKept D.Disk W.contents }
{}

/// A first policy that is named is taken before the script is run: the file is left with the state that the policy and
/// then the requests lead to. A policy that is refused leaves the state that was there, and nothing is run or printed.
pub fn first_policies_are_kept<D: Disk, W: Write>()
    ensures taken { FirstPoliciesAreKept D.Disk W.contents }
    ensures refused { RefusedPoliciesChangeNothing D.Disk W.contents }
{}

/// An import that succeeds leaves in the file the state with its rows: at a console as one request, whose lines are
/// printed, and without one as a first policy.
pub fn imports_are_kept<D: Disk, W: Write>()
    ensures at_console { ImportsAreKept D.Disk W.contents }
    ensures first { FirstImportsAreKept D.Disk W.contents }
{}

/// An export leaves in the file the state that was there, and writes its policy file.
pub fn exports_leave_the_file<D: Disk, W: Write>()
    ensures { ExportsLeaveTheFile D.Disk W.contents }
{}

/// The account of a file is printed as the query shows it, and the tables that were read represent the state that the
/// file holds.
pub fn accounts_are_shown<D: Disk, W: Write>()
    ensures { AccountsAreShown D.Disk W.contents }
{}

/// A question over a file is answered as by the policy file that an export of it writes, and the tables that were read
/// represent the state that the file holds.
pub fn answers_are_of_the_export<D: Disk, W: Write>()
    ensures { AnswersAreOfTheExport D.Disk W.contents }
{}

/// Whatever happens to a request, a crash, or a fault of the disk that closes the tables, leaves those of the state
/// before it or of the state after it, as a whole, and the next opening finds that state.
pub fn requests_are_left_whole<D: Disk>()
    ensures { RequestsAreLeftWhole D.Disk }
{}

/// Once a fault of the disk has closed the tables, they stay closed, each request that some state refuses is aborted,
/// and no request adds anything to what a crash leaves.
pub fn closed_tables_stay_as_they_are<S: Alter>()
    ensures stay { ShutTablesStay S.Store }
    ensures give_up { ShutTablesGiveUp S.Store }
{}
