//! What changes from one policy to another: each part is made and written before the next one.
ghost use Rattle.std.specs.Prelude.{◌≡◌, ◌≤◌, ℕ, List, IfErr, OnOk, length};
ghost use Rattle.std.specs.Io.KnownBytes.{Appends};
ghost use Rattle.opc_answers_diff.specs.Consoles.{console_changes};
ghost use Rattle.opc_answers_diff.specs.Sections.{IsCompared};
ghost use Rattle.opc_cli_failures.specs.Statuses.{IsFailure};
ghost use Rattle.opc_cli_questions.specs.Differences.{
  AreCommandsListed,
  ArePairsListed,
  AreSections,
  IsDifference,
  IsListed,
  IsPairListed,
  Listed,
  consoles_of,
  consoles_shown,
  ending,
  logon_listed,
  logon_shown,
  logons_listed,
  rows_shown,
  status_of,
};
ghost use Rattle.opc_cli_questions.specs.Printed.{IsWritten};

use crate::difference::{consoles_shown, ending, logon_shown, pair_shown, rows_shown};
use crate::printing::{no_memory, print_text};
use crate::sides::PolicySide;
use opc_answers_diff::compared::Compared;
use opc_answers_diff::consoles::{console_changes, names_of_both};
use opc_answers_diff::gains::Gains;
use opc_answers_diff::row_changes::{RowChange, row_changes};
use opc_check::form::Form;
use opc_cli_failures::failure::Failure;
use opc_cli_failures::status::Status;
use opc_names::name::ConsoleName;
use std::alloc::Global;
use std::io::Write;

fn print_rows<W: Write>(
    alloc: Global,
    form: Form,
    changes: &[RowChange],
    output: &mut W,
) -> Result<(), Failure>
    ensures text { OnOk result (Appends (W.contents output.old) (W.contents output.new)
        (rows_shown form changes.now)) }
    ensures fails { IfErr result (λ failure. IsFailure failure.fault) }
{
    let Ok(text) = rows_shown(alloc, form, changes) else {
        return Err(no_memory());
    };
    print_text(text.as_str(), output)
}

/// Prints what is decided at two places, one of each side.
fn print_pair<W: Write>(
    alloc: Global,
    form: Form,
    compared: &Compared,
    gains: &mut Gains,
    at: usize,
    other_at: usize,
    output: &mut W,
) -> Result<(), Failure>
    requires compared { IsCompared compared.now }
    requires within { at ≤ length compared.now.patterns.items }
    requires other_within { other_at ≤ length compared.now.others.items }
    ensures text { OnOk result ((listed : Listed) × IsPairListed form compared.now at other_at listed
        × IsListed (W.contents output.old) (W.contents output.new) gains.old gains.new listed) }
    ensures fails { IfErr result (λ failure. IsFailure failure.fault) }
{
    let Ok(text) = pair_shown(alloc, form, compared, gains, at, other_at) else {
        return Err(no_memory());
    };
    print_text(text.as_str(), output)
}

/// Prints what is decided at a place of the old policy, and at each of the new one. Where nothing can be, nothing is
/// looked for.
fn print_pairs<W: Write>(
    alloc: Global,
    form: Form,
    compared: &Compared,
    gains: &mut Gains,
    at: usize,
    output: &mut W,
) -> Result<(), Failure>
    requires compared { IsCompared compared.now }
    requires within { at ≤ length compared.now.patterns.items }
    ensures text { OnOk result ((listed : Listed) × ArePairsListed form compared.now at listed
        × IsListed (W.contents output.old) (W.contents output.new) gains.old gains.new listed) }
    ensures fails { IfErr result (λ failure. IsFailure failure.fault) }
{
    let end = compared.others.len();
    let mut other_at = compared.next_at(at, 0);
    while other_at < end {
        print_pair(alloc, form, compared, gains, at, other_at, output)?;
        other_at = compared.next_at(at, other_at + 1);
    }
    print_pair(alloc, form, compared, gains, at, end, output)
}

/// Prints what is decided at each place of the old policy, and at each of the new one.
fn print_commands<W: Write>(
    alloc: Global,
    form: Form,
    compared: &Compared,
    gains: &mut Gains,
    output: &mut W,
) -> Result<(), Failure>
    requires { IsCompared compared.now }
    ensures text { OnOk result ((listed : Listed) × AreCommandsListed form compared.now listed
        × IsListed (W.contents output.old) (W.contents output.new) gains.old gains.new listed) }
    ensures fails { IfErr result (λ failure. IsFailure failure.fault) }
{
    let end = compared.patterns.len();
    for at in 0..end {
        print_pairs(alloc, form, compared, gains, at, output)?;
    }
    print_pairs(alloc, form, compared, gains, end, output)
}

fn print_logon<W: Write>(
    alloc: Global,
    form: Form,
    compared: &Compared,
    gains: &mut Gains,
    console: &ConsoleName,
    output: &mut W,
) -> Result<(), Failure>
    requires { IsCompared compared.now }
    ensures text { OnOk result (IsListed (W.contents output.old) (W.contents output.new) gains.old gains.new
        (logon_shown form compared.now console.now, logon_listed compared.now console.now)) }
    ensures fails { IfErr result (λ failure. IsFailure failure.fault) }
{
    let Ok(text) = logon_shown(alloc, form, compared, gains, console) else {
        return Err(no_memory());
    };
    print_text(text.as_str(), output)
}

/// Prints who logs on at these consoles, one after another.
fn print_logons_at<W: Write>(
    alloc: Global,
    form: Form,
    compared: &Compared,
    gains: &mut Gains,
    consoles: &[ConsoleName],
    output: &mut W,
) -> Result<(), Failure>
    requires { IsCompared compared.now }
    ensures text { OnOk result (IsListed (W.contents output.old) (W.contents output.new) gains.old gains.new
        (logons_listed form compared.now consoles.now)) }
    ensures fails { IfErr result (λ failure. IsFailure failure.fault) }
{
    for console in consoles {
        print_logon(alloc, form, compared, gains, console, output)?;
    }
    Ok(())
}

/// Prints who logs on at the consoles of either side.
fn print_logons<W: Write>(
    alloc: Global,
    form: Form,
    compared: &Compared,
    gains: &mut Gains,
    output: &mut W,
) -> Result<(), Failure>
    requires { IsCompared compared.now }
    ensures text { OnOk result (IsListed (W.contents output.old) (W.contents output.new) gains.old gains.new
        (logons_listed form compared.now (consoles_of compared.now))) }
    ensures fails { IfErr result (λ failure. IsFailure failure.fault) }
{
    let old = compared.before.board.rows();
    let new = compared.after.board.rows();
    let Ok(consoles) = names_of_both(alloc, old.consoles.as_slice(), new.consoles.as_slice()) else {
        return Err(no_memory());
    };
    print_logons_at(alloc, form, compared, gains, consoles.as_slice(), output)
}

/// Prints the consoles that let in something else without a logon.
fn print_consoles<W: Write>(
    alloc: Global,
    form: Form,
    compared: &Compared,
    output: &mut W,
) -> Result<(), Failure>
    ensures text { OnOk result (Appends (W.contents output.old) (W.contents output.new)
        (consoles_shown form (console_changes compared.now.before.board compared.now.after.board))) }
    ensures fails { IfErr result (λ failure. IsFailure failure.fault) }
{
    let (old, new) = (&compared.before.board, &compared.after.board);
    let Ok(changes) = console_changes(alloc, old, new) else {
        return Err(no_memory());
    };
    let Ok(text) = consoles_shown(alloc, form, changes.as_slice()) else {
        return Err(no_memory());
    };
    print_text(text.as_str(), output)
}

fn print_ending<W: Write>(
    alloc: Global,
    form: Form,
    rows: usize,
    gains: &Gains,
    output: &mut W,
) -> Result<(), Failure>
    ensures text { OnOk result (Appends (W.contents output.old) (W.contents output.new)
        (ending form rows gains.now.more.keys gains.now.less.keys)) }
    ensures fails { IfErr result (λ failure. IsFailure failure.fault) }
{
    let Ok(text) = ending(alloc, form, rows, gains) else {
        return Err(no_memory());
    };
    print_text(text.as_str(), output)
}

/// Prints what so many rows change.
fn print_sections<W: Write>(
    alloc: Global,
    form: Form,
    compared: &Compared,
    rows: usize,
    output: &mut W,
) -> Result<(), Failure>
    requires { IsCompared compared.now }
    ensures text { OnOk result ((text : List ℕ) × AreSections form compared.now rows text
        × Appends (W.contents output.old) (W.contents output.new) text) }
    ensures fails { IfErr result (λ failure. IsFailure failure.fault) }
{
    let mut gains = Gains::new(alloc);
    print_commands(alloc, form, compared, &mut gains, output)?;
    print_logons(alloc, form, compared, &mut gains, output)?;
    print_consoles(alloc, form, compared, output)?;
    print_ending(alloc, form, rows, &gains, output)
}

fn status_of(changes: &[RowChange]) -> Status
    ensures { result ≡ status_of changes.now }
{
    match changes {
        [] => Status::Done,
        [_, ..] => Status::Refused,
    }
}

/// Prints what changes from one policy to another, as text or as JSON, and returns whether rows differ. The sections of
/// two places are in memory at a time.
pub fn print_difference<W: Write>(
    alloc: Global,
    form: Form,
    old: PolicySide,
    new: PolicySide,
    output: &mut W,
) -> Result<Status, Failure>
    ensures { IsWritten W.contents output.old output.new (IsDifference form old new) result }
{
    let Ok(changes) = row_changes(alloc, old.rows.as_slice(), new.rows.as_slice()) else {
        return Err(no_memory());
    };
    let rows = changes.as_slice();
    print_rows(alloc, form, rows, output)?;
    let Ok(compared) = Compared::of(alloc, old.room, new.room) else {
        return Err(no_memory());
    };
    print_sections(alloc, form, &compared, rows.len(), output)?;
    Ok(status_of(rows))
}
