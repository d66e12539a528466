//! A decision point: what serves one client of `decide` after another.
ghost use Rattle.std.specs.Prelude.{◌≡◌, IfOk};
ghost use Rattle.opc_decide_present.specs.Present.{IsDecided};
ghost use Rattle.opc_http_questions.specs.Questions.{MayReadQuestion};
ghost use Rattle.opc_http_serve.specs.Logging.{IsLineLogged};
ghost use Rattle.opc_http_decide.specs.DecideExchanges.{IsPointExchange, IsSent};
ghost use Rattle.opc_http_decide.specs.DecideLines.{IsToldLine};
ghost use Rattle.opc_http_decide.specs.DecideResponses.{IsAnswerAt, IsResponseTo};

use crate::configuration::configuration_text;
use crate::response::{ToldResponse, answered_told, id_field, refused_told};
use crate::telling::{configuration_told, log_told};
use http::StatusCode;
use opc_board::text::KeptText;
use opc_decide_present::decider::{DecidedAnswer, Decider};
use opc_decide_present::files::PolicyPlace;
use opc_decide_present::present::PresentPolicy;
use opc_http::{LinkFault, Served, respond};
use opc_http_questions::ask::read_question;
use opc_http_questions::question::{DecideRequest, HttpQuestion};
use opc_http_questions::routes::DecideRoute;
use opc_http_requests::origins::Origins;
use opc_http_serve::exchanges::Exchanges;
use opc_io::sink::Sink;
use opc_io::source::{Source, SourceFault};
use std::alloc::{AllocError, Global};

/// The policy that is there, the URL before the paths at which questions about it are asked, and where exchanges are
/// logged, if they are.
#[derive(Drop)]
pub struct DecisionPoint<'a, P, L> {
    pub policy: P,
    pub base: &'a str,
    pub log: Option<L>,
}

/// The answer to a question.
fn answer<F: PolicyPlace, D: Decider>(
    alloc: Global,
    policy: &mut PresentPolicy<F, D>,
    base: &str,
    question: &HttpQuestion,
) -> Result<DecidedAnswer, AllocError>
    ensures decider { policy.new.1 ≡ policy.old.1 }
    ensures answer { IfOk result (IsAnswerAt base.now (IsDecided F.finds F.reads D.refuses D.answers policy.old.0
        policy.old.1) question.now.route question.now.body) }
{
    match question.route() {
        DecideRoute::Ask(kind) => policy.decide(alloc, kind, question.body()),
        DecideRoute::Configuration => Ok(DecidedAnswer {
            status: StatusCode::OK,
            body: KeptText::from(configuration_text(alloc, base)?),
            told: configuration_told(alloc)?,
        }),
    }
}

/// The response to a request.
fn response<F: PolicyPlace, D: Decider>(
    alloc: Global,
    policy: &mut PresentPolicy<F, D>,
    base: &str,
    request: &DecideRequest,
) -> Result<ToldResponse, AllocError>
    ensures decider { policy.new.1 ≡ policy.old.1 }
    ensures response { IfOk result (λ made. IsResponseTo base.now (IsDecided F.finds F.reads D.refuses D.answers
        policy.old.0 policy.old.1) request.now made.response.status made.response.bytes.items made.told) }
{
    let id = id_field(alloc, &request.id)?;
    match &request.question {
        Ok(question) => {
            let decision = answer(alloc, policy, base, question)?;
            answered_told(alloc, decision, id.as_str())
        }
        Err(refusal) => refused_told(alloc, refusal, id.as_str()),
    }
}

/// Writes the response to a request, and then its line to the log.
fn respond_to<F: PolicyPlace, D: Decider, L: Sink, K: Sink>(
    alloc: Global,
    point: &mut DecisionPoint<'_, PresentPolicy<F, D>, L>,
    request: &DecideRequest,
    sink: &mut K,
    moment: u64,
) -> Result<Served, LinkFault>
    ensures decider { point.new.policy.1 ≡ point.old.policy.1 }
    ensures base { point.new.base.now ≡ point.old.base.now }
    ensures sent { IsSent (IsResponseTo point.old.base.now (IsDecided F.finds F.reads D.refuses D.answers
        point.old.policy.0 point.old.policy.1) request.now)
        (λ told. IsLineLogged L.held L.has_failed (IsToldLine moment told)) (K.held sink.old) (K.held sink.new)
        point.old.log point.new.log result }
{
    match response(alloc, &mut point.policy, point.base, request) {
        Ok(made) => {
            let served = respond(sink, &made.response, false);
            log_told(alloc, &mut point.log, moment, made.told.as_str());
            served
        }
        Err(_) => Err(LinkFault::NoMemory { handled: false }),
    }
}

impl<F: PolicyPlace, D: Decider, L: Sink> Exchanges for DecisionPoint<'_, PresentPolicy<F, D>, L> {
    type Routes = Origins;

    ghost may_read = { λ origins. MayReadQuestion origins };

    ghost exchanged = { λ origins old left moment _ held before after result new. IsPointExchange F.finds F.reads
        D.refuses D.answers L.held L.has_failed origins old left moment (held before) (held after) result new };

    fn serve_one<S: Source, K: Sink>(
        &mut self,
        alloc: Global,
        routes: &Origins,
        source: &mut S,
        sink: &mut K,
        moment: u64,
    ) -> Result<Served, LinkFault> {
        match read_question(alloc, *routes, source) {
            Ok(request) => respond_to(alloc, self, &request, sink, moment),
            Err(SourceFault::Read) => Err(LinkFault::Read),
            Err(SourceFault::NoMemory) => Err(LinkFault::NoMemory { handled: false }),
        }
    }
}
