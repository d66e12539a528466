//! A whole request to `decide`, read from a source.
ghost use Rattle.std.specs.Prelude.{
  ◌≡◌,
  ◌≤◌,
  ◌+◌,
  ◌-◌,
  ◌++◌,
  [],
  IfOk,
  IfSome,
  drop,
  if◌then◌else◌,
  true,
  vec_len,
};
ghost use Rattle.opc_io.specs.Reads.{ReadsOnly, TakesAtMost, is_read};
ghost use Rattle.opc_http_requests.specs.Bodies.{MayFill};
ghost use Rattle.opc_http_requests.specs.Messages.{StopsAtMessage};
ghost use Rattle.opc_http_questions.specs.Questions.{MayReadQuestion, PutsOnly, planned, question_length};

use crate::id::id_in;
use crate::plan::{QuestionPlan, plan_in};
use crate::question::{DecideRequest, HttpQuestion};
use httparse::spans::{EMPTY_HEADER_SPAN, RequestSpans};
use opc_board::text::KeptText;
use opc_http_requests::ask::MOST_FIELDS;
use opc_http_requests::body::read_to;
use opc_http_requests::head::read_head;
use opc_http_requests::origins::Origins;
use opc_http_requests::refusal::{HttpRefusal, InvalidPart};
use opc_io::source::{Source, SourceFault};
use std::alloc::Global;

// Reads the body that is planned, after the head that `buf` begins with, of a request with this id.
fn read_planned<S: Source>(
    alloc: Global,
    source: &mut S,
    buf: &mut Vec<u8>,
    spans: &RequestSpans,
    plan: QuestionPlan,
    id: Option<KeptText>,
) -> Result<DecideRequest, SourceFault>
    requires head { spans.now.len ≤ vec_len buf.old }
    requires short { spans.now.len ≤ 8192 }
    requires few { plan.length ≤ 65536 }
    ensures asked { IfOk result (λ request. (request.id ≡ id) × IfSome (S.left source.old) (λ left.
        planned (drop spans.now.len (buf.old.items ++ left)) plan ≡ request.question)) }
    ensures most { TakesAtMost (spans.now.len + plan.length - vec_len buf.old) (S.left source.old) (S.left source.new) }
    ensures reads { ReadsOnly S.left S.gives (MayFill (spans.now.len + plan.length)) source.old
        buf.old.items source.new }
    ensures failed { S.has_failed source.new ≡ (if is_read result then true else S.has_failed source.old) }
{
    let end = spans.len + plan.length as usize;
    if !read_to(source, buf, end)? {
        return Ok(DecideRequest {
            id,
            question: Err(HttpRefusal::BadRequest(InvalidPart::CutShort)),
        });
    }
    match Vec::from_slice(alloc, &buf[spans.len..end]) {
        Ok(body) => Ok(DecideRequest {
            id,
            question: Ok(HttpQuestion::new(plan.route, body)),
        }),
        Err(_) => Err(SourceFault::NoMemory),
    }
}

/// Reads a request, or finds the first refusal, as the requests to the gate are read. Nothing but the bytes of its head
/// and its body decides what a request is. Its id is known if its head is there, also if it is refused by that.
pub fn read_question<S: Source>(
    alloc: Global,
    origins: Origins,
    source: &mut S,
) -> Result<DecideRequest, SourceFault>
    ensures asked { IfOk result (λ request. IfSome (S.left source.old) (λ all. PutsOnly origins all request)) }
    ensures stops { IfSome (S.left source.old) (λ all.
        StopsAtMessage (question_length origins) all (S.left source.new)) }
    ensures most { TakesAtMost 73728 (S.left source.old) (S.left source.new) }
    ensures reads { ReadsOnly S.left S.gives (MayReadQuestion origins) source.old [] source.new }
    ensures failed { S.has_failed source.new ≡ (if is_read result then true else S.has_failed source.old) }
{
    let mut buf = Vec::new(alloc);
    let mut headers = [EMPTY_HEADER_SPAN; MOST_FIELDS];
    let Some(spans) = read_head(source, &mut buf, &mut headers)? else {
        return Ok(DecideRequest {
            id: None,
            question: Err(HttpRefusal::BadRequest(InvalidPart::Head)),
        });
    };
    let id = id_in(alloc, buf.as_slice(), &headers, &spans)?;
    let plan = match plan_in(origins, buf.as_slice(), &headers, &spans) {
        Ok(plan) => plan,
        Err(refusal) => {
            return Ok(DecideRequest {
                id,
                question: Err(refusal),
            });
        }
    };
    read_planned(alloc, source, &mut buf, &spans, plan, id)
}
