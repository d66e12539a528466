//! The lines of a policy file on which its rows begin.
ghost use Rattle.std.specs.Prelude.{◌≡◌, ◌==◌, ◌+◌, ◌<◌, ◌^◌, IfOk, if◌then◌else◌, slice_get, string_bytes, take};
ghost use Rattle.csv.specs.Machine.{line_feed};
ghost use Rattle.opc_import.specs.CsvBytes.{state_of};
ghost use Rattle.opc_check.specs.RowLines.{begins, most_numbered, record_lines, row_lines, row_place};

use crate::unread::without_mark;
use opc_import::csv_bytes::BytePlace;
use opc_import::kind::MOST_ROWS;
use std::alloc::{AllocError, Global};

/// The header, the rows that a file may have, and the first that is one too many.
const MOST_NUMBERED: usize = MOST_ROWS as usize + 2;

/// Whether a record begins with a byte.
fn begins(place: BytePlace, byte: u8) -> bool
    ensures { result ≡ begins (state_of place) byte }
{
    match place {
        BytePlace::RecordStart | BytePlace::AfterReturn => byte != b'\r' && byte != b'\n',
        BytePlace::FieldStart | BytePlace::Plain | BytePlace::Quoted | BytePlace::AfterQuote => {
            false
        }
    }
}

/// The line of what follows a byte on a line.
fn line_past(line: u64, byte: u8) -> u64
    requires { line < 2 ^ 63 }
    ensures { result ≡ (if byte == line_feed then line + 1 else line) }
{
    if byte == b'\n' { line + 1 } else { line }
}

/// The lines on which the records of a text without a byte order mark begin.
fn record_lines(alloc: Global, text: &[u8]) -> Result<Vec<u64>, AllocError>
    ensures { IfOk result (λ lines. lines.items ≡ take most_numbered (record_lines text.now)) }
{
    let mut lines = Vec::new(alloc);
    let mut place = BytePlace::RecordStart;
    let mut line = 1;
    for byte in text {
        if begins(place, *byte) {
            if lines.len() == MOST_NUMBERED {
                return Ok(lines);
            }
            lines.push(line)?;
        }
        place = place.step(*byte).place;
        line = line_past(line, *byte);
    }
    Ok(lines)
}

/// The lines on which the header and the rows of a policy file begin: of each one more than the line feeds before it.
pub fn row_lines(alloc: Global, text: &str) -> Result<Vec<u64>, AllocError>
    ensures { IfOk result (λ lines. lines.items ≡ row_lines text.now) }
{
    record_lines(alloc, without_mark(text).as_bytes())
}

/// The line of a row among those of its file.
pub fn line_of(lines: &[u64], row: u64) -> Option<u64>
    ensures { result ≡ slice_get lines.now row }
{
    lines.get(row as usize).copied()
}

/// A row, with the line on which it begins, if that is known.
pub fn row_place(alloc: Global, row: u64, line: Option<u64>) -> Result<String, AllocError>
    ensures { IfOk result (λ text. string_bytes text ≡ row_place row line) }
{
    match line {
        Some(line) => format!(in alloc; "row {row}, line {line}"),
        None => format!(in alloc; "row {row}"),
    }
}
