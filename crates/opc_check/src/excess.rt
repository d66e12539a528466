//! A policy file without what its records have past ten fields: a record with more is bad, whatever they are.
ghost use Rattle.std.specs.Prelude.{◌≡◌, ◌≤◌, ◌++◌, IfOk, OnOk, length};
ghost use Rattle.std.specs.List.{AllByRecursion};
ghost use Rattle.csv.specs.Reading.{default_config, records, strip_bom};
ghost use Rattle.csv.specs.declared.parser.State.TheVariants as state;
ghost use Rattle.opc_check.specs.Excess.{AreToldAlike, ended_after, is_kept, kept};

use opc_import::column::COLUMNS;
use opc_import::csv_bytes::{ByteEnd, BytePlace, MARK};
use std::alloc::{AllocError, Global};

// Whether a byte is kept if this many fields of its record have ended before it, ten at most.
fn is_kept(end: ByteEnd, ended: usize) -> bool
    ensures { result ≡ is_kept end ended }
{
    match end {
        ByteEnd::Record => true,
        ByteEnd::Field | ByteEnd::Nothing => ended < COLUMNS.len(),
    }
}

// How many have ended after it, ten at most.
fn ended_after(end: ByteEnd, ended: usize) -> usize
    ensures { result ≡ ended_after end ended }
{
    match end {
        ByteEnd::Field if ended < COLUMNS.len() => ended + 1,
        ByteEnd::Field | ByteEnd::Nothing => ended,
        ByteEnd::Record => 0,
    }
}

// Adds the bytes that are kept of a text without a mark.
fn keep(bytes: &mut Vec<u8>, text: &[u8]) -> Result<(), AllocError>
    ensures { OnOk result (bytes.new.items ≡ bytes.old.items ++ kept state.StartRecord 0 text.now) }
{
    let mut place = BytePlace::RecordStart;
    let mut ended = 0;
    for byte in text {
        let next = place.step(*byte);
        if is_kept(next.end, ended) {
            bytes.push(*byte)?;
        }
        place = next.place;
        ended = ended_after(next.end, ended);
    }
    Ok(())
}

/// The bytes of a policy file without those past the tenth field of a record, so that a record takes no more memory
/// than its ten fields. What is reported of it is what is reported of the whole file.
pub(crate) fn without_excess(alloc: Global, text: &[u8]) -> Result<Vec<u8>, AllocError>
    ensures alike { IfOk result (λ bytes. AreToldAlike bytes.items text.now) }
    ensures few { IfOk result (λ bytes.
        AllByRecursion (λ fields. length fields ≤ 11) (records default_config (strip_bom bytes.items))) }
{
    let start = if text.starts_with(MARK) {
        MARK.len()
    } else {
        0
    };
    let mut bytes = Vec::from_slice(alloc, MARK)?;
    keep(&mut bytes, &text[start..])?;
    Ok(bytes)
}
