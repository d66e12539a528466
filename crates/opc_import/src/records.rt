//! The records of a text, one after the other.
ghost use Rattle.std.specs.Prelude.{◌≡◌, ℕ, List, IfOk};
ghost use Rattle.csv.specs.Reading.{default_config, records, strip_bom};
ghost use Rattle.csv.specs.Records.{fields_of};
ghost use Rattle.opc_import.specs.Records.{IsPlainReader, TakesFirst, records_left};

use csv::{Reader, ReaderBuilder, StringRecord};
use std::alloc::{AllocError, Global};
use std::marker::Model;

/// What is left of a text, as records. Once an allocation has failed, nothing is left.
#[derive(Drop)]
pub(crate) struct Records<'a> {
    reader: Reader<&'a [u8]>,
}

impl<'a> Model for Records<'a> {
    ghost Value = { List (List (List ℕ)) };

    ghost view = { λ s. records_left s.reader };

    ghost invariant = { λ s. IsPlainReader s.reader };
}

impl<'a> Records<'a> {
    pub(crate) fn of(alloc: Global, text: &'a [u8]) -> Records<'a>
        ensures { result ≡ records default_config (strip_bom text.now) }
    {
        let reader = ReaderBuilder::new()
            .has_headers(false)
            // Lengths are not checked here: a row of another length is `Columns`, with its number.
            .flexible(true)
            .from_reader(alloc, text);
        Records { reader }
    }

    /// Takes the first of the records that are left, if there is one.
    pub(crate) fn take_into(&mut self, row: &mut StringRecord) -> Result<bool, AllocError>
        ensures { IfOk result (λ found. TakesFirst self.old found (fields_of row.new) self.new) }
    {
        // Records are read as text, so that no field is tested by itself. What is cut out of a text at commas, quotes
        // and line ends is a text, of any length, and a slice can be read: the only failure is that of an allocation.
        // No clause states that it is a text; that fault would be reported as E90, too.
        let Ok(found) = self.reader.read_record(row) else {
            return Err(AllocError);
        };
        Ok(found)
    }
}
