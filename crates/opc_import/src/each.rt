//! The records of a policy file below its header, one after another.
ghost use Rattle.std.specs.Prelude.{◌≡◌, IfOk};
ghost use Rattle.csv.specs.Reading.{default_config, records, strip_bom};
ghost use Rattle.csv.specs.Records.{fields_of};
ghost use Rattle.opc_import.specs.Each.{below};
ghost use Rattle.opc_import.specs.Kinds.{row_of};
ghost use Rattle.opc_import.specs.Records.{TakesFirst};

use crate::column::width_of;
use crate::kind::row_of;
use crate::records::Records;
use csv::StringRecord;
use opc_policy_members::row::Row;
use opc_terms::fault::Why;
use std::alloc::{AllocError, Global};

/// What is left of a policy file below its header, and how many fields its rows have. Each record is read whole, even
/// one with more fields than any row.
#[derive(Drop)]
pub struct EachRecord<'a> {
    records: Records<'a>,
    pub width: usize,
}

impl<'a> EachRecord<'a> {
    /// The records below the header of a text, if its first record is one.
    pub fn of(alloc: Global, text: &'a str) -> Result<Option<EachRecord<'a>>, AllocError>
        ensures { IfOk result (λ found. found ≡ below (records default_config (strip_bom text.now))) }
    {
        let mut records = Records::of(alloc, text.as_bytes());
        let mut line = StringRecord::new(alloc);
        if !records.take_into(&mut line)? {
            return Ok(None);
        }
        match width_of(&line) {
            Some(width) => Ok(Some(EachRecord { records, width })),
            None => Ok(None),
        }
    }

    /// Takes the first of the records that are left, if there is one.
    pub fn take_into(&mut self, line: &mut StringRecord) -> Result<bool, AllocError>
        ensures taken { IfOk result (λ found. TakesFirst self.old.records found (fields_of line.new) self.new.records) }
        ensures width { self.new.width ≡ self.old.width }
    {
        self.records.take_into(line)
    }

    /// The row that a record is, as the data record of this number, or what is wrong with it first.
    pub fn row_of(&self, number: u32, line: &StringRecord) -> Result<Row, Why>
        ensures { result ≡ row_of self.now.width number (fields_of line.now) }
    {
        row_of(self.width, number, line)
    }
}
