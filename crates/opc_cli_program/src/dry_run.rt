//! `opcmds import --dry-run`: what an import would change. It is done over a copy of the tables.
ghost use Rattle.std.specs.Prelude.{◌≡◌, [], IfOk, string_bytes};
ghost use Rattle.std.specs.Option.{option_map};
ghost use Rattle.opc_state.specs.Changes.{IsKept};
ghost use Rattle.opc_state.specs.State.{State};
ghost use Rattle.opc_machine.specs.Inputs.{input_of};
ghost use Rattle.opc_cli_questions.specs.Sides.{IsSideOn};
ghost use Rattle.opc_cli_program.specs.DryRuns.{
  IsBatchTried,
  IsChangeWritten,
  IsDryRun,
  IsDryRunNow,
  IsFirstTried,
  IsKeptBatch,
  IsTriedOver,
  kept_text,
};

use crate::import::take_first;
use crate::printing::print_answer;
use crate::refusals::{FirstPolicy, not_imported};
use crate::wall_clock::WallClock;
use opc_board::line::Line;
use opc_check::form::Form;
use opc_cli_failures::failure::{Failure, Place};
use opc_cli_failures::status::Status;
use opc_cli_questions::difference_printing::print_difference;
use opc_cli_questions::policy_file::{PolicyText, place_of, read_rows};
use opc_cli_questions::printing::print_text;
use opc_cli_questions::sides::{PolicySide, side_of};
use opc_cli_tasks::work::Import;
use opc_gate::gate::Gate;
use opc_gate::request::{Answer, Request};
use opc_io::watched::Watched;
use opc_policy_members::row::Row;
use opc_rows::Rows;
use opc_state::tables::Tables;
use opc_terms::fault::Fault;
use std::alloc::{AllocError, Global};
use std::io::{Read, Write};

/// The stored policy.
fn stored_side<T: Tables>(alloc: Global, gate: &mut Gate<T>) -> Result<PolicySide, Failure>
    ensures kept { IsKept T.meaning gate.old gate.new }
    ensures side { T.meaning.is_sure gate.new → (s : State) → T.meaning.represents gate.old s
        → IsSideOn s result }
{
    match gate.export(alloc) {
        Ok(rows) => side_of(alloc, rows),
        Err(fault) => Err(Failure::of_gate(fault)),
    }
}

/// Prints what changed since then.
fn show_change<T: Tables, W: Write>(
    alloc: Global,
    gate: &mut Gate<T>,
    before: PolicySide,
    output: &mut W,
) -> Result<Status, Failure>
    ensures kept { IsKept T.meaning gate.old gate.new }
    ensures shown { T.meaning.is_sure gate.new → (s : State) → T.meaning.represents gate.old s
        → IsChangeWritten W.contents output.old output.new before s [] result }
{
    let after = stored_side(alloc, gate)?;
    print_difference(alloc, Form::Text, before, after, output)?;
    Ok(Status::Done)
}

/// What an answer says before that it is kept: which batch is. A batch that was kept before has another answer.
fn kept_batch(lines: &[Line]) -> Option<&str>
    ensures { IsKeptBatch lines.now (option_map (λ batch. batch.now) result) }
{
    match lines {
        [line] => line.text.as_str().strip_suffix(" KEPT"),
        // The answer to an import is one line.
        _ => None,
    }
}

fn kept_text(alloc: Global, batch: &str) -> Result<String, AllocError>
    ensures { IfOk result (λ text. string_bytes text ≡ kept_text batch.now) }
{
    format!(in alloc; "{batch} WOULD BE KEPT\n")
}

/// Prints what a batch changed, and that it would be kept.
fn show_batch<T: Tables, W: Write>(
    alloc: Global,
    gate: &mut Gate<T>,
    before: PolicySide,
    batch: &str,
    output: &mut W,
) -> Result<Status, Failure>
    ensures kept { IsKept T.meaning gate.old gate.new }
    ensures shown { T.meaning.is_sure gate.new → (s : State) → T.meaning.represents gate.old s
        → IsChangeWritten W.contents output.old output.new before s (kept_text batch.now) result }
{
    show_change(alloc, gate, before, output)?;
    let Ok(text) = kept_text(alloc, batch) else {
        return Err(Failure::from(Fault::NoMemory));
    };
    print_text(text.as_str(), output)?;
    Ok(Status::Done)
}

/// Has the request of an import handled, whose text comes from this place, and prints what it changed.
fn try_batch<T: Tables, W: Write>(
    alloc: Global,
    gate: &mut Gate<T>,
    moment: u64,
    place: Place,
    text: &[u8],
    request: &Request,
    output: &mut Watched<W>,
) -> Result<Status, Failure>
    ensures sure { T.meaning.is_sure gate.new → T.meaning.is_sure gate.old }
    ensures tried { IsTriedOver T.meaning gate.old gate.new W.contents output.old output.new result
        (IsBatchTried T.meaning gate.old gate.new W.contents output.old output.new result moment
        (input_of request.now)) }
{
    let before = stored_side(alloc, gate)?;
    let answer = gate.handle(alloc, moment, request);
    match &answer {
        Answer::Refused { fault, .. } => {
            Err(not_imported(alloc, gate, place, text, request, *fault))
        }
        Answer::Done { lines, .. } => match kept_batch(lines.as_slice()) {
            Some(batch) => show_batch(alloc, gate, before, batch, &mut output.inner),
            None => print_answer(&answer, output),
        },
    }
}

/// Takes the rows of a first policy, which stand in this text, and prints what they changed.
fn try_first<T: Tables, W: Write>(
    alloc: Global,
    gate: &mut Gate<T>,
    place: Place,
    text: &[u8],
    rows: &[Row],
    output: &mut Watched<W>,
) -> Result<Status, Failure>
    ensures sure { T.meaning.is_sure gate.new → T.meaning.is_sure gate.old }
    ensures tried { IsTriedOver T.meaning gate.old gate.new W.contents output.old output.new result
        (IsFirstTried T.meaning gate.old gate.new W.contents output.old output.new result rows.now) }
{
    let before = stored_side(alloc, gate)?;
    take_first(alloc, gate, FirstPolicy::Imported(place), text, rows)?;
    show_change(alloc, gate, before, &mut output.inner)
}

fn dry_run_over<T: Tables, R: Read, W: Write>(
    alloc: Global,
    gate: &mut Gate<T>,
    moment: u64,
    import: &Import<'_>,
    input: &mut R,
    output: &mut Watched<W>,
) -> Result<Status, Failure>
    ensures sure { T.meaning.is_sure gate.new → T.meaning.is_sure gate.old }
    ensures tried { IsDryRun T.meaning gate.old gate.new W.contents output.old output.new result
        (R.remaining input.old) moment import.now }
{
    // The place is made at each use, since the borrow checker does not cover copies of such an enum.
    let PolicyText { bytes, rows } = read_rows(alloc, place_of(import.file), input)?;
    let Some(console) = import.console else {
        let place = place_of(import.file);
        return try_first(alloc, gate, place, &bytes, &rows, output);
    };
    let request = Request::Import {
        console,
        batch: import.batch,
        rows: Rows::of(rows),
    };
    let place = place_of(import.file);
    try_batch(alloc, gate, moment, place, &bytes, &request, output)
}

/// Imports the policy file on the input into these tables, at this time, and prints what that changed. They are a copy
/// that is let go.
fn dry_run_on<T: Tables, R: Read, W: Write>(
    alloc: Global,
    tables: T,
    moment: u64,
    import: &Import<'_>,
    input: &mut R,
    output: &mut Watched<W>,
) -> (Result<Status, Failure>, T)
    ensures sure { T.meaning.is_sure result.1 → T.meaning.is_sure tables }
    ensures tried { IsDryRun T.meaning tables result.1 W.contents output.old output.new result.0
        (R.remaining input.old) moment import.now }
{
    let mut gate = Gate::over(tables);
    let end = dry_run_over(alloc, &mut gate, moment, import, input, output);
    (end, gate.into_tables())
}

/// The same at the time of the clock.
pub fn dry_run_now<H: AllocGlobal + WallClock, T: Tables, R: Read, W: Write>(
    rt: &H,
    tables: T,
    import: &Import<'_>,
    input: &mut R,
    output: &mut Watched<W>,
) -> (Result<Status, Failure>, T)
    ensures sure { T.meaning.is_sure result.1 → T.meaning.is_sure tables }
    ensures tried { IsDryRunNow T.meaning tables result.1 W.contents output.old output.new result.0 H.shows_moment
        (R.remaining input.old) import.now }
{
    match rt.moment_now() {
        Ok(moment) => dry_run_on(rt.alloc(), tables, moment, import, input, output),
        Err(error) => (Err(Failure::at(Place::Clock, error)), tables),
    }
}
