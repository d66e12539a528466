//! The body of a request, read from a source.
ghost use Rattle.std.specs.Prelude.{◌≡◌, ◌<◌, ◌-◌, IfOk, if◌then◌else◌, false, true, vec_len};
ghost use Rattle.opc_io.specs.Reads.{ReadsInto, TakesAtMost, is_read};
ghost use Rattle.opc_http_requests.specs.Bodies.{MayFill, ReadsTo};

use opc_io::source::{Source, SourceFault, read_more};

/// Reads until `buf` has this many bytes, and no further; returns whether it has them before the source ends.
pub fn read_to<S: Source>(
    source: &mut S,
    buf: &mut Vec<u8>,
    length: usize,
) -> Result<bool, SourceFault>
    ensures reads { IfOk result (λ whole. ReadsTo length whole (S.left source.old) (S.left source.new) buf.old.items
        buf.new.items) }
    ensures most { TakesAtMost (length - vec_len buf.old) (S.left source.old) (S.left source.new) }
    ensures blocks { ReadsInto S.left S.gives (MayFill length) source.old buf.old.items
        source.new buf.new.items result }
    ensures failed { S.has_failed source.new ≡ (if is_read result then true else S.has_failed source.old) }
{
    while buf.len() < length {
        if read_more(source, buf, length)? == 0 {
            return Ok(false);
        }
    }
    Ok(true)
}
