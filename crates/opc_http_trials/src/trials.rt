//! Exchanges that succeed, that are cut off, and whose reader or writer fails.
use crate::message::bytes_of;
use crate::room::{ABORTED, TrialExchange, TrialRoom};
use crate::spans::Spans;
use anyhow::{Result, bail};
use opc_http::LinkFault;
use opc_io_failing::reader::FailingReader;
use opc_io_failing::writer::FailingWriter;
use opc_state::tables::Tables;
use std::alloc::Global;
use std::str;

/// The outcome of a request, in one of the ways of sending it.
pub(crate) fn exchanged<T: Tables + Drop>(
    alloc: Global,
    room: &mut TrialRoom<T>,
    moment: u64,
    text: &str,
) -> Result<String> {
    let (way, request) = match text.split_once(' ') {
        Some((way, request)) if is_way(way) => (way, request),
        _ => ("", text),
    };
    let bytes = bytes_of(alloc, request)?;
    let bytes = bytes.as_slice();
    match way {
        "CUT" => cut(alloc, room, moment, bytes),
        "DRIP" => drip(alloc, room, moment, bytes),
        "READS" => failing_reads(alloc, room, moment, bytes),
        "WRITES" => failing_writes(alloc, room, moment, bytes),
        _ => served(alloc, &asked(alloc, room, moment, bytes)?),
    }
}

fn is_way(word: &str) -> bool {
    matches!(word, "CUT" | "DRIP" | "READS" | "WRITES")
}

fn never_failing(bytes: &[u8]) -> FailingReader<'_> {
    FailingReader::new(bytes, usize::MAX, usize::MAX)
}

fn one_byte_a_write(alloc: Global, writes: usize) -> FailingWriter {
    FailingWriter::new(alloc, 1, writes)
}

/// An exchange in which nothing fails.
fn asked<T: Tables + Drop>(
    alloc: Global,
    room: &mut TrialRoom<T>,
    moment: u64,
    bytes: &[u8],
) -> Result<TrialExchange> {
    let writer = FailingWriter::new(alloc, usize::MAX, usize::MAX);
    room.exchange(alloc, moment, never_failing(bytes), writer)
}

/// The outcome of an exchange, and the whole response.
fn served(alloc: Global, outcome: &TrialExchange) -> Result<String> {
    let response = str::from_utf8(outcome.written.as_slice())?.replace(alloc, "\r", "\\r")?;
    Ok(format!(in alloc; "{}\n{response}\n", outcome.words)?)
}

fn drip<T: Tables + Drop>(
    alloc: Global,
    room: &mut TrialRoom<T>,
    moment: u64,
    bytes: &[u8],
) -> Result<String> {
    let reader = FailingReader::by_bytes(bytes, usize::MAX);
    let writer = one_byte_a_write(alloc, usize::MAX);
    served(alloc, &room.exchange(alloc, moment, reader, writer)?)
}

fn cut<T: Tables + Drop>(
    alloc: Global,
    room: &mut TrialRoom<T>,
    moment: u64,
    bytes: &[u8],
) -> Result<String> {
    let first = asked(alloc, room, moment, &[])?;
    let mut spans = Spans::after(served(alloc, &first)?);
    for length in 1..bytes.len() {
        let outcome = asked(alloc, room, moment, &bytes[..length])?;
        let response = if outcome.written.as_slice() == first.written.as_slice() {
            "the same response"
        } else {
            "another response"
        };
        spans.add(
            alloc,
            length,
            format!(in alloc; "{}, {response}", outcome.words)?,
        )?;
    }
    spans.ended(alloc)
}

fn failing_reads<T: Tables + Drop>(
    alloc: Global,
    room: &mut TrialRoom<T>,
    moment: u64,
    bytes: &[u8],
) -> Result<String> {
    let mut spans = Spans::after(String::new(alloc));
    for reads in 0..bytes.len() + 1 {
        let reader = FailingReader::by_bytes(bytes, reads);
        let writer = one_byte_a_write(alloc, usize::MAX);
        let outcome = room.exchange(alloc, moment, reader, writer)?;
        let response = if outcome.written.is_empty() {
            "nothing written"
        } else {
            "a response"
        };
        spans.add(
            alloc,
            reads,
            format!(in alloc; "{}, {response}", outcome.words)?,
        )?;
    }
    spans.ended(alloc)
}

/// An exchange whose writer may fail, after which the account has this many rows, unless the request is aborted. If the
/// allocation for the response fails, nothing is written, and the request stays done.
fn written_to<T: Tables + Drop>(
    alloc: Global,
    room: &mut TrialRoom<T>,
    moment: u64,
    bytes: &[u8],
    writer: FailingWriter,
    rows: usize,
) -> Result<TrialExchange> {
    let (outcome, written) = room.tried(alloc, moment, never_failing(bytes), writer)?;
    if matches!(outcome, Err(LinkFault::NoMemory { handled: true })) {
        if !written.is_empty() {
            bail!("a part of a response that was not built");
        }
        if room.account_length(alloc)? != rows {
            bail!("a request that did not stay done");
        }
    }
    TrialExchange::of(alloc, outcome, written)
}

fn failing_writes<T: Tables + Drop>(
    alloc: Global,
    room: &mut TrialRoom<T>,
    moment: u64,
    bytes: &[u8],
) -> Result<String> {
    let before = room.account_length(alloc)?;
    let whole = asked(alloc, room, moment, bytes)?;
    let rows = room.account_length(alloc)?.saturating_sub(before);
    let mut spans = Spans::after(served(alloc, &whole)?);
    for writes in 0..whole.written.len() + 1 {
        let writer = one_byte_a_write(alloc, writes);
        let after = rows_after(before, rows, writes.saturating_add(2));
        let outcome = written_to(alloc, room, moment, bytes, writer, after)?;
        let response = if outcome.written.as_slice() == &whole.written.as_slice()[..writes] {
            "a byte of the response for each write"
        } else {
            "other bytes"
        };
        let words = format!(in alloc; "{}, {response}", outcome.words)?;
        spans.add(alloc, writes, words)?;
    }
    // Each exchange brings the same number of rows, unless it is aborted.
    let after = rows_after(before, rows, whole.written.len().saturating_add(3));
    let full = FailingWriter::new(alloc, 0, usize::MAX);
    let outcome = written_to(alloc, room, moment, bytes, full, after)?;
    if room.account_length(alloc)? != after {
        bail!(ABORTED);
    }
    let printed = spans.ended(alloc)?;
    Ok(format!(in alloc;
        "{printed}taking nothing: {}\nrows for each: {rows}\n",
        outcome.words
    )?)
}

/// How many rows the account has after this many exchanges that each add the same number.
fn rows_after(before: usize, rows: usize, exchanges: usize) -> usize {
    before.saturating_add(rows.saturating_mul(exchanges))
}
