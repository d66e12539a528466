//! A policy file, checked.
ghost use Rattle.std.specs.Prelude.{◌++◌, IfOk};
ghost use Rattle.opc_check.specs.Checked.{IsFound, finding_after, finding_by, finding_of, finding_read, told, unless_refused};
ghost use Rattle.opc_check.specs.Counted.{header_line};
ghost use Rattle.opc_check.specs.Lines.{problem_lines};
ghost use Rattle.opc_check.specs.Problems.{problems_of};
ghost use Rattle.opc_check.specs.Refusals.{refusals_of};
ghost use Rattle.opc_check.specs.RowLines.{row_lines};
ghost use Rattle.opc_check.specs.Unread.{header_text};

use crate::counted::{bad_line, header_line, refused_line};
use crate::form::Form;
use crate::judge;
use crate::lines::problem_lines;
use crate::problem::RowProblem;
use crate::reading::Reading;
use crate::refusing::{Refused, refused_of};
use crate::row_lines::row_lines;
use crate::unread::header_text;
use opc_names::name::ConsoleName;
use opc_policy_members::policy::Policy;
use opc_policy_members::row::Row;
use std::alloc::{AllocError, Global};

/// What is found in a text: lines about what is bad, or rows that can be loaded, with the policy that they make.
#[derive(Drop)]
pub enum Checked {
    Bad(String),
    Taken(Vec<Row>, Policy),
}

/// The lines of what is bad in a text, with the last that counts them.
fn with_last(
    alloc: Global,
    form: Form,
    text: &str,
    problems: &[RowProblem],
    last: &str,
) -> Result<Checked, AllocError>
    ensures { IfOk result (IsFound
        (told (problem_lines form (row_lines text.now) (problems_of problems.now) ++ last.now))) }
{
    let lines = row_lines(alloc, text)?;
    let mut told = problem_lines(alloc, form, &lines, problems)?;
    told.push_str(last)?;
    Ok(Checked::Bad(told))
}

/// What is found in rows that can all be read, by which of them are refused.
fn after_refusing(
    alloc: Global,
    form: Form,
    text: &str,
    rows: Vec<Row>,
    refused: Refused,
) -> Result<Checked, AllocError>
    ensures { IfOk result (IsFound (finding_after form (row_lines text.now) rows.items refused)) }
{
    // Named for the prover, which otherwise cannot infer the type of a row's console.
    let _nowhere: Option<ConsoleName> = None;
    let Refused {
        policy,
        count,
        problems,
    } = refused;
    if count == 0 {
        return Ok(Checked::Taken(rows, policy));
    }
    let last = refused_line(alloc, form, count, rows.len())?;
    with_last(alloc, form, text, &problems, last.as_str())
}

/// Checks the rows of a text all of which can be read.
fn check_rows(alloc: Global, form: Form, text: &str, rows: Vec<Row>) -> Result<Checked, AllocError>
    ensures { IfOk result (IsFound
        (unless_refused form (row_lines text.now) rows.items (refusals_of rows.items))) }
{
    // Named for the prover, which otherwise cannot infer the type of a row's console.
    let _nowhere: Option<ConsoleName> = None;
    let refused = refused_of(alloc, &rows)?;
    after_refusing(alloc, form, text, rows, refused)
}

fn check_reading(
    alloc: Global,
    form: Form,
    text: &str,
    reading: Reading,
) -> Result<Checked, AllocError>
    ensures { IfOk result (IsFound (finding_read form (row_lines text.now) reading)) }
{
    // Named for the prover, which otherwise cannot infer the type of a row's console.
    let _nowhere: Option<ConsoleName> = None;
    let Reading {
        rows,
        judged,
        bad,
        problems,
    } = reading;
    if bad == 0 {
        return check_rows(alloc, form, text, rows);
    }
    let last = bad_line(alloc, form, bad as usize, judged as usize)?;
    with_last(alloc, form, text, &problems, last.as_str())
}

/// Checks what stands in the place of the header.
fn check_header(alloc: Global, form: Form, text: &str) -> Result<Checked, AllocError>
    ensures { IfOk result (IsFound (told (header_line form (header_text text.now)))) }
{
    let words = header_text(alloc, text)?;
    Ok(Checked::Bad(header_line(alloc, form, words.as_str())?))
}

fn check_found(
    alloc: Global,
    form: Form,
    text: &str,
    found: Option<Reading>,
) -> Result<Checked, AllocError>
    ensures { IfOk result (IsFound (finding_by form text.now found)) }
{
    match found {
        Some(reading) => check_reading(alloc, form, text, reading),
        None => check_header(alloc, form, text),
    }
}

/// Checks a text as a policy file.
pub fn check(alloc: Global, text: &str, form: Form) -> Result<Checked, AllocError>
    ensures { IfOk result (IsFound (finding_of form text.now)) }
{
    // Named for the prover, which otherwise cannot infer the type of a row's console.
    let _nowhere: Option<ConsoleName> = None;
    let found = judge(alloc, text)?;
    check_found(alloc, form, text, found)
}
