//! `opcmds import` and `opcmds export`: a written policy into the tables of a file, and out of them.
ghost use Rattle.opc_state.specs.Changes.{IsKept};
ghost use Rattle.opc_machine.specs.Inputs.{input_of};
ghost use Rattle.opc_cli_program.specs.Imports.{IsExport, IsFirstPolicy, IsImport, IsOneStep};

use crate::printing::{print_answer, print_text};
use crate::refusals::{FirstPolicy, not_imported, not_taken};
use opc_cli_failures::failure::{Failure, Place};
use opc_cli_failures::status::Status;
use opc_cli_questions::policy_file::{PolicyText, place_of, read_rows};
use opc_cli_tasks::work::Import;
use opc_gate::gate::Gate;
use opc_gate::request::{Answer, Request};
use opc_import::write::write_policy;
use opc_io::sink::Sink;
use opc_policy_members::row::Row;
use opc_rows::Rows;
use opc_state::tables::Tables;
use opc_terms::fault::Fault;
use std::alloc::Global;
use std::io::Read;

/// Puts the policy file on the input into these tables, at this time, and returns them.
pub fn import_on<T: Tables, R: Read, K: Sink>(
    alloc: Global,
    tables: T,
    moment: u64,
    import: &Import<'_>,
    input: &mut R,
    output: &mut K,
) -> (Result<Status, Failure>, T)
    ensures sure { T.meaning.is_sure result.1 → T.meaning.is_sure tables }
    ensures imports { IsImport T.meaning tables result.1 result.0 K.held K.has_failed
        output.old output.new (R.remaining input.old) moment import.now }
{
    let mut gate = Gate::over(tables);
    let end = import_over(alloc, &mut gate, moment, import, input, output);
    (end, gate.into_tables())
}

fn import_over<T: Tables, R: Read, K: Sink>(
    alloc: Global,
    gate: &mut Gate<T>,
    moment: u64,
    import: &Import<'_>,
    input: &mut R,
    output: &mut K,
) -> Result<Status, Failure>
    ensures sure { T.meaning.is_sure gate.new → T.meaning.is_sure gate.old }
    ensures imports { IsImport T.meaning gate.old gate.new result K.held K.has_failed
        output.old output.new (R.remaining input.old) moment import.now }
{
    // The place is made at each use, since the borrow checker does not cover copies of such an enum.
    let PolicyText { bytes, rows } = read_rows(alloc, place_of(import.file), input)?;
    let Some(console) = import.console else {
        let policy = FirstPolicy::Imported(place_of(import.file));
        return take_first(alloc, gate, policy, &bytes, &rows);
    };
    let request = Request::Import {
        console,
        batch: import.batch,
        rows: Rows::of(rows),
    };
    let place = place_of(import.file);
    handle_alone(alloc, gate, moment, place, &bytes, &request, output)
}

/// Takes the rows of a first policy, which stand in this text.
pub(crate) fn take_first<T: Tables>(
    alloc: Global,
    gate: &mut Gate<T>,
    policy: FirstPolicy,
    text: &[u8],
    rows: &[Row],
) -> Result<Status, Failure>
    ensures sure { T.meaning.is_sure gate.new → T.meaning.is_sure gate.old }
    ensures takes { IsFirstPolicy T.meaning gate.old gate.new result rows.now }
{
    match gate.bootstrap(alloc, rows) {
        Ok(()) => Ok(Status::Done),
        Err(fault) => Err(not_taken(alloc, gate, policy, text, rows, fault)),
    }
}

/// Has the request of an import handled, whose text comes from this place, and prints its answer.
fn handle_alone<T: Tables, K: Sink>(
    alloc: Global,
    gate: &mut Gate<T>,
    moment: u64,
    place: Place,
    text: &[u8],
    request: &Request,
    output: &mut K,
) -> Result<Status, Failure>
    ensures sure { T.meaning.is_sure gate.new → T.meaning.is_sure gate.old }
    ensures handles { IsOneStep T.meaning gate.old gate.new result K.held K.has_failed
        output.old output.new moment (input_of request.now) }
{
    let answer = gate.handle(alloc, moment, request);
    match &answer {
        Answer::Refused { fault, .. } => {
            Err(not_imported(alloc, gate, place, text, request, *fault))
        }
        Answer::Done { .. } => print_answer(&answer, output),
    }
}

/// Writes the policy of these tables as a policy file, and returns them.
pub fn export_on<T: Tables, K: Sink>(
    alloc: Global,
    tables: T,
    output: &mut K,
) -> (Result<Status, Failure>, T)
    ensures sure { T.meaning.is_sure result.1 → T.meaning.is_sure tables }
    ensures kept { IsKept T.meaning tables result.1 }
    ensures exports { IsExport T.meaning tables result.1 result.0 K.held K.has_failed
        output.old output.new }
{
    let mut gate = Gate::over(tables);
    let end = export_over(alloc, &mut gate, output);
    (end, gate.into_tables())
}

fn export_over<T: Tables, K: Sink>(
    alloc: Global,
    gate: &mut Gate<T>,
    output: &mut K,
) -> Result<Status, Failure>
    ensures sure { T.meaning.is_sure gate.new → T.meaning.is_sure gate.old }
    ensures kept { IsKept T.meaning gate.old gate.new }
    ensures exports { IsExport T.meaning gate.old gate.new result K.held K.has_failed
        output.old output.new }
{
    let rows = gate.export(alloc).map_err(Failure::of_gate)?;
    let Ok(text) = write_policy(alloc, rows.as_slice()) else {
        return Err(Failure::from(Fault::NoMemory));
    };
    print_text(output, text.as_str())
}
