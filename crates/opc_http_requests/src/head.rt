//! The head of a request, read from a source.
ghost use Rattle.std.specs.Prelude.{
  ◌≡◌,
  ◌≤◌,
  [],
  length,
  IfOk,
  IfSome,
  OnOk,
  MatchOption,
  if◌then◌else◌,
  vec_len,
  true,
};
ghost use Rattle.std.specs.Io.KnownBytes.{Consumes};
ghost use Rattle.httparse.specs.Spans.{IsRequestWithin};
ghost use Rattle.opc_io.specs.Reads.{ReadsInto, TakesAtMost, is_read};
ghost use Rattle.opc_http_requests.specs.Head.{FoundHead, MayLook, NoHead, Starts, StartsWithin};

use httparse::Status;
use httparse::spans::{HeaderSpan, RequestSpans, parse_request};
use opc_io::source::{Source, SourceFault, read_more};

/// The most bytes that a head may take.
pub const HEAD_LIMIT: usize = 8192;

/// What some bytes are, as the start of a request.
#[derive(Clone, Copy)]
pub(crate) enum Start {
    Whole(RequestSpans),
    Part,
    Never,
}

fn start_of(buf: &[u8], headers: &mut [HeaderSpan]) -> Start
    requires { length headers.old ≡ 32 }
    ensures start { Starts buf.now headers.new result }
    ensures room { length headers.new ≡ 32 }
    ensures within { StartsWithin buf.now headers.new result }
{
    match parse_request(buf, headers) {
        Ok(Status::Complete(spans)) => Start::Whole(spans),
        Ok(Status::Partial) => Start::Part,
        Err(_) => Start::Never,
    }
}

/// Reads until the head of a request is there, in at most `HEAD_LIMIT` bytes; `None` if there is none. It reads on only
/// if what it read is no whole head and may become one. A read takes a block, so the last one may bring up to 1,023
/// bytes of what follows the head.
pub fn read_head<S: Source>(
    source: &mut S,
    buf: &mut Vec<u8>,
    headers: &mut [HeaderSpan],
) -> Result<Option<RequestSpans>, SourceFault>
    requires empty { buf.old.items ≡ [] }
    requires room { length headers.old ≡ 32 }
    ensures taken { OnOk result (Consumes (S.left source.old) (S.left source.new) buf.new.items) }
    ensures few { OnOk result (vec_len buf.new ≤ 8192) }
    ensures most { TakesAtMost 8192 (S.left source.old) (S.left source.new) }
    ensures reads { ReadsInto S.left S.gives MayLook source.old [] source.new buf.new.items result }
    ensures failed { S.has_failed source.new ≡ (if is_read result then true else S.has_failed source.old) }
    ensures within { IfOk result (λ found. IfSome found (IsRequestWithin buf.new.items headers.new)) }
    ensures found { IfOk result (λ found. IfSome found (FoundHead buf.new.items buf.new.items headers.new)) }
    ensures head { IfOk result (λ found. IfSome (S.left source.old) (λ all.
        MatchOption found (NoHead all) (FoundHead all buf.new.items headers.new))) }
{
    for _turn in 0..HEAD_LIMIT + 1 {
        match start_of(buf.as_slice(), headers) {
            Start::Whole(spans) => return Ok(Some(spans)),
            Start::Part => {}
            Start::Never => return Ok(None),
        }
        if buf.len() == HEAD_LIMIT {
            return Ok(None);
        }
        if read_more(source, buf, HEAD_LIMIT)? == 0 {
            return Ok(None);
        }
    }
    // Each turn before the last takes at least one byte, and the buffer is full after `HEAD_LIMIT` bytes.
    unreachable!()
}
