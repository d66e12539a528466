//! The rows of a policy file, judged one after another.
ghost use Rattle.std.specs.Prelude.{◌≡◌, IfOk, Some};
ghost use Rattle.std.specs.Option.{option_map};
ghost use Rattle.opc_check.specs.Judged.{File, file_below, file_of, judged_from};
ghost use Rattle.opc_check.specs.Problems.{IsReading, IsReadingOf, first_bad, problem_of};

use crate::excess::without_excess;
use crate::problem::RowProblem;
use crate::reading::Reading;
use csv::StringRecord;
use opc_import::each::EachRecord;
use opc_import::extent::extent_of;
use opc_import::kind::MOST_ROWS;
use opc_names::name::ConsoleName;
use std::alloc::{AllocError, Global};
use std::str;

fn judge_each(alloc: Global, mut each: EachRecord<'_>) -> Result<Reading, AllocError>
    ensures { IfOk result (IsReading (record {
      width = each.entry.width;
      rows = judged_from each.entry.width 1 each.entry.records;
    })) }
{
    // Named for the prover, which otherwise cannot infer the type of a row's console.
    let _nowhere: Option<ConsoleName> = None;
    let width = each.width;
    let mut reading = Reading::new(alloc);
    let mut line = StringRecord::new(alloc);
    for number in 1..MOST_ROWS + 2 {
        if !each.take_into(&mut line)? {
            return Ok(reading);
        }
        let meaning = each.row_of(number, &line);
        reading.add(alloc, width, number, &line, meaning)?;
    }
    // Row 10,001 is one too many, and those after it are not judged.
    Ok(reading)
}

fn judge_below(alloc: Global, each: Option<EachRecord<'_>>) -> Result<Option<Reading>, AllocError>
    ensures { IfOk result (IsReadingOf (file_below each.entry)) }
{
    match each {
        Some(each) => Ok(Some(judge_each(alloc, each)?)),
        None => Ok(None),
    }
}

/// Judges the rows of a text as it stands.
fn judge_all(alloc: Global, text: &str) -> Result<Option<Reading>, AllocError>
    ensures { IfOk result (IsReadingOf (file_of text.now)) }
{
    let each = EachRecord::of(alloc, text)?;
    judge_below(alloc, each)
}

/// Judges each row of a policy file by itself; a text without a header has no rows to judge. No record takes more
/// memory than its first ten fields.
pub fn judge(alloc: Global, text: &str) -> Result<Option<Reading>, AllocError>
    ensures { IfOk result (IsReadingOf (file_of text.now)) }
{
    if extent_of(text.as_bytes()).len() == text.len() {
        return judge_all(alloc, text);
    }
    let bytes = without_excess(alloc, text.as_bytes())?;
    match str::from_utf8(&bytes) {
        Ok(part) => judge_all(alloc, part),
        // What is cut out of a text between commas and line ends is a text, so this never happens. No clause states it.
        Err(_) => judge_all(alloc, text),
    }
}

fn first_of(reading: Reading) -> Option<RowProblem>
    ensures { (file : File) → IsReading file reading → option_map problem_of result ≡ first_bad (Some file) }
{
    let mut problems = reading.problems;
    if problems.is_empty() {
        return None;
    }
    Some(problems.remove(0))
}

/// The first bad row of a policy file, if the text has a header and a bad row. `read_policy` returns a number and a
/// column alone, so this reads the record again, to show the field to whoever must mend it.
pub fn first_bad(alloc: Global, text: &str) -> Result<Option<RowProblem>, AllocError>
    ensures { IfOk result (λ found. option_map problem_of found ≡ first_bad (file_of text.now)) }
{
    match judge(alloc, text)? {
        Some(reading) => Ok(first_of(reading)),
        None => Ok(None),
    }
}
