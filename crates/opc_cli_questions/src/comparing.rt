//! Two policies are compared, and what changes is reported.
ghost use Rattle.std.specs.Prelude.{◌≡◌};
ghost use Rattle.opc_cli_failures.specs.Statuses.{status_of};
ghost use Rattle.opc_cli_questions.specs.Compared.{IsComparedWith, refused_status};
ghost use Rattle.opc_cli_questions.specs.Reported.{IsFaultReported};

use crate::difference_printing::print_difference;
use crate::sides::PolicySide;
use opc_cli_failures::failure::{Failure, NO_PATHS, Paths, reported};
use opc_cli_failures::status::Status;
use opc_cli_tasks::question::Comparison;
use opc_cli_tasks::source::NamedPolicy;
use opc_io::watched::Watched;
use std::alloc::Global;
use std::io::Write;

/// The file that messages name.
fn paths_of<'a>(named: &NamedPolicy<'a>) -> Paths<'a> {
    let (database, policy) = match *named {
        NamedPolicy::File(path) => (None, Some(path)),
        NamedPolicy::Database(path) => (Some(path), None),
    };
    Paths {
        database,
        policy,
        socket: None,
        log: None,
        policies: None,
    }
}

/// A row that is refused is bad input, since another status says that rows differ.
fn refused_status(status: Status) -> Status
    ensures { result ≡ refused_status status }
{
    match status {
        Status::Refused => Status::BadInput,
        Status::Done | Status::BadInput | Status::Failed => status,
    }
}

/// Reports why a policy was not read or its rows not applied.
pub fn side_refused<E: Write>(
    failure: Failure,
    named: &NamedPolicy<'_>,
    errors: &mut Watched<E>,
) -> Status
    ensures status { result ≡ refused_status (status_of failure.fault) }
    ensures reported { IsFaultReported E.contents errors.old errors.new failure.fault }
{
    refused_status(reported(Err(failure), &paths_of(named), errors))
}

/// Compares a policy with the new one, if that was read, and prints what changes.
pub fn compare_with<W: Write, E: Write>(
    alloc: Global,
    old: PolicySide,
    new: Result<PolicySide, Failure>,
    compared: &Comparison<'_>,
    output: &mut Watched<W>,
    errors: &mut Watched<E>,
) -> Status
    ensures { IsComparedWith W.contents E.contents output.old output.new errors.old errors.new result
        compared.now.form old new }
{
    match new {
        Ok(new) => {
            let end = print_difference(alloc, compared.form, old, new, &mut output.inner);
            reported(end, &NO_PATHS, errors)
        }
        Err(failure) => side_refused(failure, &compared.new, errors),
    }
}
