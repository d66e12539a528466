//! Policy files, written.
ghost use Rattle.std.specs.Prelude.{◌≡◌, ◌≤◌, IfOk, Ok, OnOk, length, string_bytes};
ghost use Rattle.std.specs.List.{All};
ghost use Rattle.csv.specs.Records.{fields_of};
ghost use Rattle.opc_import.specs.Files.{policy_of};
ghost use Rattle.opc_import.specs.Kinds.{most_rows};
ghost use Rattle.opc_import.specs.Lines.{AddsLine, IsFresh, csv_text, policy_text};
ghost use Rattle.opc_import.specs.Rows.{IsValid};

use crate::line::{fill, fill_header};
use csv::{ByteRecord, Writer, WriterBuilder};
use opc_policy_members::row::Row;
use std::alloc::{AllocError, Global};

// Writes a record as a line.
fn put_line(writer: &mut Writer<Vec<u8>>, line: &ByteRecord) -> Result<(), AllocError>
    requires { IsFresh writer.old }
    ensures { OnOk result (AddsLine writer.old writer.new (fields_of line.now)) }
{
    match writer.write_byte_record(line) {
        Ok(()) => Ok(()),
        Err(_) => Err(AllocError),
    }
}

// The bytes of the file that has these rows.
fn lines_of(alloc: Global, rows: &[Row]) -> Result<Vec<u8>, AllocError>
    ensures text { IfOk result (λ bytes. bytes.items ≡ csv_text rows.now) }
    ensures valid { OnOk result (All IsValid rows.now) }
{
    let mut writer = WriterBuilder::new().from_writer(Vec::new(alloc));
    let mut line = ByteRecord::new(alloc);
    fill_header(&mut line)?;
    put_line(&mut writer, &line)?;
    for row in rows {
        fill(&mut line, row)?;
        put_line(&mut writer, &line)?;
    }
    writer.into_inner().map_err(|_| AllocError)
}

/// The policy file that has these rows. A file of at most 10,000 rows reads back as they are.
pub fn write_policy(alloc: Global, rows: &[Row]) -> Result<String, AllocError>
    ensures text { IfOk result (λ text. string_bytes text ≡ policy_text rows.now) }
    ensures reads_back { length rows.now ≤ most_rows
        → IfOk result (λ text. policy_of (string_bytes text) ≡ Ok rows.now) }
{
    let bytes = lines_of(alloc, rows)?;
    let Ok(text) = String::from_utf8(bytes) else {
        // Each field is ASCII text.
        unreachable!()
    };
    Ok(text)
}
