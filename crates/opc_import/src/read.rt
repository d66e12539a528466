//! Policy files, read.
ghost use Rattle.std.specs.Prelude.{◌≡◌, ◌≢◌, IfOk, IfErr, Ok, Err};
ghost use Rattle.opc_import.specs.Files.{policy_of};

use crate::column::width_of;
use crate::extent::extent_of;
use crate::fault::ImportFault;
use crate::kind::{MOST_ROWS, row_of};
use crate::records::Records;
use csv::StringRecord;
use opc_names::name::ConsoleName;
use opc_policy_members::row::Row;
use opc_terms::fault::Why;
use std::alloc::Global;

const BAD_HEADER: ImportFault = ImportFault::Row {
    row: 0,
    why: Why::Header,
};

/// The rows of a policy file, or its first fault.
pub fn read_policy(alloc: Global, text: &str) -> Result<Vec<Row>, ImportFault>
    ensures ok { IfOk result (λ rows. policy_of text.now ≡ Ok rows.items) }
    ensures err { IfErr result (λ fault. fault ≢ ImportFault.NoMemory → policy_of text.now ≡ Err fault) }
{
    let mut records = Records::of(alloc, extent_of(text.as_bytes()));
    let mut line = StringRecord::new(alloc);
    if !records.take_into(&mut line)? {
        return Err(BAD_HEADER);
    }
    let Some(width) = width_of(&line) else {
        return Err(BAD_HEADER);
    };
    // Named for the prover, which otherwise cannot infer the type of a row's console.
    let _nowhere: Option<ConsoleName> = None;
    let mut rows = Vec::new(alloc);
    for number in 1..MOST_ROWS + 2 {
        if !records.take_into(&mut line)? {
            return Ok(rows);
        }
        match row_of(width, number, &line) {
            Ok(row) => rows.push(row)?,
            Err(why) => return Err(ImportFault::Row { row: number, why }),
        }
    }
    // Row 10,001 is a fault, so the loop never ends by itself.
    unreachable!()
}
