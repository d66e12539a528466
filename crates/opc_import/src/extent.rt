//! How much of a policy file is read: a record with more fields than any row is not read to its end.
ghost use Rattle.std.specs.Prelude.{◌≡◌, ◌≤◌, length, take};
ghost use Rattle.std.specs.List.{AllByRecursion};
ghost use Rattle.csv.specs.Reading.{default_config, records, strip_bom};
ghost use Rattle.opc_import.specs.Extent.{AreReadAlike};
ghost use Rattle.opc_import.specs.Files.{policy_of};

use crate::column::COLUMNS;
use crate::csv_bytes::{ByteEnd, BytePlace, MARK};

// How many bytes of a text without a mark are read: all, or those before the eleventh field of the first record that
// has that many.
fn length_read(text: &[u8]) -> usize
    ensures within { result ≤ length text.now }
    ensures alike { AreReadAlike (take result text.now) text.now }
    ensures few { AllByRecursion (λ fields. length fields ≤ 11) (records default_config (take result text.now)) }
{
    let mut place = BytePlace::RecordStart;
    let mut ended = 0;
    for (at, byte) in text.iter().enumerate() {
        let next = place.step(*byte);
        place = next.place;
        match next.end {
            ByteEnd::Nothing => {}
            ByteEnd::Record => ended = 0,
            ByteEnd::Field => {
                ended += 1;
                if ended == COLUMNS.len() {
                    return at + 1;
                }
            }
        }
    }
    text.len()
}

/// What is read of the bytes of a policy file: all, or those before the eleventh field of the first record that has
/// that many. Such a record is `Columns` or, as the header, `Header`, whatever follows. So it takes no more memory than
/// its ten fields, and the answer is that of the whole file.
pub fn extent_of(text: &[u8]) -> &[u8]
    ensures same { policy_of result.now ≡ policy_of text.now }
    ensures few { AllByRecursion (λ fields. length fields ≤ 11) (records default_config (strip_bom result.now)) }
{
    let start = if text.starts_with(MARK) {
        MARK.len()
    } else {
        0
    };
    let length = length_read(&text[start..]);
    &text[..start + length]
}
