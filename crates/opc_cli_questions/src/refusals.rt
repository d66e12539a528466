//! Which row of a policy file is refused, and why.
ghost use Rattle.std.specs.Prelude.{◌≡◌, IfSome};
ghost use Rattle.opc_cli_questions.specs.Refusals.{IsRefusalOf, IsRefusedRow, TellsOf};

use crate::policy_file::row_reason;
use opc_check::problem::{RowProblem, refusal};
use opc_cli_failures::failure::{Failure, Place};
use opc_cli_failures::reason::Reason;
use opc_names::name::ConsoleName;
use opc_policy_members::policy::{Policy, RefusedAt};
use opc_policy_members::row::Row;
use opc_terms::fault::{Fault, Subject};
use std::alloc::Global;
use std::str;

/// The first row that is refused after those that are stored, if there is one and no allocation fails. It applies the
/// rows up to that one once more, since a refusal returns only a fault.
fn first_refused(alloc: Global, stored: &[Row], rows: &[Row]) -> Option<RowProblem>
    ensures { IfSome result (λ problem. IsRefusedRow stored.now rows.now problem) }
{
    // Named for the prover, which otherwise cannot infer the types of a row's console and of a fault's name.
    let _nowhere: Option<ConsoleName> = None;
    let _nobody: Option<Subject> = None;
    let Ok(mut policy) = Policy::of_rows(alloc, stored) else {
        return None;
    };
    let (at, fault) = match policy.take_all(alloc, rows) {
        Ok(()) => return None,
        Err(RefusedAt { at, fault }) => (at, fault),
    };
    let row = rows.get(at)?;
    match fault {
        // (without memory, the row is not reported)
        Fault::NoMemory => None,
        fault => refusal(alloc, &policy, stored, rows, row, at as u64 + 1, fault).ok(),
    }
}

/// Why that row of a text is refused, if there is one and no allocation fails.
fn refused_reason(alloc: Global, text: &[u8], stored: &[Row], rows: &[Row]) -> Option<Reason>
    ensures { IfSome result (λ reason. IsRefusalOf text.now stored.now rows.now reason) }
{
    let problem = first_refused(alloc, stored, rows)?;
    let text = str::from_utf8(text).ok()?;
    row_reason(alloc, text, problem).ok()
}

/// The fault of the rows of a text that are refused over what is stored, with the row whose fault it is, if that is
/// found.
pub fn refused(
    alloc: Global,
    place: Place,
    text: &[u8],
    stored: &[Row],
    rows: &[Row],
    fault: Fault,
) -> Failure
    ensures fault { result.fault ≡ fault }
    ensures cause { TellsOf text.now stored.now rows.now result.cause }
{
    let reason = match fault {
        Fault::Exists(_) | Fault::Missing(_) => refused_reason(alloc, text, stored, rows),
        // No other fault is that of a row.
        _ => None,
    };
    let cause = match reason {
        Some(reason) => Some((place, reason)),
        None => None,
    };
    Failure { fault, cause }
}
