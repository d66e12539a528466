//! The log entry of an exchange, if one is requested.
ghost use Rattle.std.specs.Bool.{then_some};
ghost use Rattle.std.specs.Prelude.{◌≡◌, ◌&&◌, IfOk, None, Ok, Some, if◌then◌else◌, length, true};
ghost use Rattle.opc_machine.specs.Inputs.{input_of};
ghost use Rattle.opc_machine.specs.Machine.{user_acting};
ghost use Rattle.opc_gate.specs.Handling.{IsHandled};
ghost use Rattle.opc_http.specs.Told.{IsNumbered, has_row, status_in};
ghost use Rattle.opc_http.specs.Trails.{IsFollowed};
ghost use Rattle.opc_state.specs.Asked.{Loads};
ghost use Rattle.opc_state.specs.Changes.{IsKept};
ghost use Rattle.opc_state.specs.State.{State};

use crate::exchanging::{LinkFault, Served};
use crate::trail::Trail;
use opc_board::text::KeptText;
use opc_gate::gate::Gate;
use opc_http_log::entry::LogEntry;
use opc_http_requests::refusal::HttpRefusal;
use opc_io::sink::Sink;
use opc_machine::request::{Answer, Request};
use opc_names::name::UserId;
use opc_policy_folder::fault::PolicyFault;
use opc_state::tables::Tables;
use opc_terms::fault::Fault;
use opc_terms::rule::Rule;
use opc_terms::store_fault::StoreFault;
use std::alloc::Global;

/// The outcome of an exchange, and its log entry, if one was requested.
#[derive(Drop)]
pub struct Exchanged {
    pub served: Result<Served, LinkFault>,
    pub entry: Option<LogEntry>,
}

/// A request that was handled.
#[derive(Drop)]
pub(crate) struct Answered {
    /// For whom its console acted before it, if that was requested and could be loaded.
    pub(crate) user: Result<Option<UserId>, StoreFault>,
    pub(crate) answer: Answer,
    /// The number of its row of the account, if that was requested, it has one, and the number could be loaded.
    pub(crate) row: Result<Option<u64>, StoreFault>,
    /// What became of the policy.
    pub(crate) policy: Result<Option<KeptText>, PolicyFault>,
}

fn status_in(served: &Result<Served, LinkFault>) -> Option<u16>
    ensures { result ≡ status_in served.now }
{
    match served {
        Ok(served) => Some(served.status),
        Err(_) => None,
    }
}

// For whom the console of a request acts, if that is to be logged.
fn acting_user<T: Tables>(
    alloc: Global,
    gate: &mut Gate<T>,
    request: &Request,
    is_told: bool,
) -> Result<Option<UserId>, StoreFault>
    ensures kept { IsKept T.meaning gate.old gate.new }
    ensures user { is_told ≡ true → T.meaning.is_sure gate.new → (s : State) → T.meaning.represents gate.old s
        → IfOk result (λ u. u ≡ user_acting s (input_of request.now)) }
{
    if is_told {
        gate.acting_user(alloc, request)
    } else {
        Ok(None)
    }
}

// Whether the account gets a row for an answer: for a refusal, and for what only a warning let pass.
fn has_row(answer: &Answer) -> bool
    ensures { result ≡ has_row answer.now }
{
    match answer {
        Answer::Done {
            rule: Some(Rule::Profile { warned, .. }),
            ..
        } => *warned,
        // Only a profile can warn.
        Answer::Done { .. } => false,
        // A request that is aborted has no row.
        Answer::Refused { fault, .. } => *fault != Fault::NoMemory && *fault != Fault::Store,
    }
}

/// The number of the row that the account got for an answer, if it got one and that is to be logged.
pub fn row_of<T: Tables>(
    alloc: Global,
    gate: &mut Gate<T>,
    answer: &Answer,
    is_told: bool,
) -> Result<Option<u64>, StoreFault>
    ensures { Loads T.meaning gate.old gate.new result
        (λ s row. row ≡ (if is_told && has_row answer.now then Some (length s.account) else None)) }
{
    if is_told && has_row(answer) {
        Ok(Some(gate.account_length(alloc)?))
    } else {
        Ok(None)
    }
}

// Handles a request and lets the trail follow it, before its response. Returns for whom its console acted before it, and
// which row of the account is its own, if that is to be logged: the answer states neither, so one call of the gate loads
// the user before the request, and one the number of the row after it.
pub(crate) fn answer<T: Tables, K: Sink, R: Trail>(
    alloc: Global,
    gate: &mut Gate<T>,
    sink: &K,
    moment: u64,
    request: &Request,
    trail: &mut R,
) -> Answered
    ensures sure { T.meaning.is_sure gate.new → T.meaning.is_sure gate.old }
    ensures handled { T.meaning.is_sure gate.new → (s : State) → T.meaning.represents gate.old s
        → IsHandled T.meaning gate.old gate.new s moment (input_of request.now) result.answer }
    ensures user { R.tells trail.old ≡ true → T.meaning.is_sure gate.new → (s : State)
        → T.meaning.represents gate.old s → IfOk result.user (λ u. u ≡ user_acting s (input_of request.now)) }
    ensures row { R.tells trail.old ≡ true → T.meaning.is_sure gate.new → (s : State)
        → T.meaning.represents gate.old s
        → IfOk result.row (IsNumbered T.meaning gate.new s moment (input_of request.now) result.answer) }
    ensures stays { R.stays trail.old trail.new }
    ensures followed { T.meaning.is_sure gate.new → (s : State) → T.meaning.represents gate.old s
        → IsFollowed R.follows T.meaning gate.new s moment request.now result.answer (K.held sink.now) result.policy
        trail.old trail.new }
{
    let is_told = trail.is_told();
    let user = acting_user(alloc, gate, request, is_told);
    let answer = gate.handle(alloc, moment, request);
    let row = row_of(alloc, gate, &answer, is_told);
    let policy = trail.follow(alloc, gate, sink, moment, request, &answer);
    Answered {
        user,
        answer,
        row,
        policy,
    }
}

// The outcome of an exchange whose request was answered, with its entry if it is to be logged.
pub(crate) fn told_answer(
    is_told: bool,
    moment: u64,
    request: Request,
    answered: Answered,
    served: Result<Served, LinkFault>,
) -> Exchanged
    ensures served { result.served ≡ served }
    ensures entry { result.entry ≡ then_some is_told (record {
      moment = moment;
      request = Some request;
      user = answered.user;
      reply = Some (Ok answered.answer);
      row = answered.row;
      policy = answered.policy;
      status = status_in served;
    }) }
{
    let entry = LogEntry {
        moment,
        request: Some(request),
        user: answered.user,
        reply: Some(Ok(answered.answer)),
        row: answered.row,
        policy: answered.policy,
        status: status_in(&served),
    };
    Exchanged {
        served,
        entry: is_told.then_some(entry),
    }
}

// The outcome of an exchange without an answer, with its entry if it is to be logged.
pub(crate) fn told(
    is_told: bool,
    moment: u64,
    reply: Option<Result<Answer, HttpRefusal>>,
    served: Result<Served, LinkFault>,
) -> Exchanged
    ensures served { result.served ≡ served }
    ensures entry { result.entry ≡ then_some is_told (record {
      moment = moment;
      request = None;
      user = Ok None;
      reply = reply;
      row = Ok None;
      policy = Ok None;
      status = status_in served;
    }) }
{
    let entry = LogEntry {
        moment,
        request: None,
        user: Ok(None),
        reply,
        row: Ok(None),
        policy: Ok(None),
        status: status_in(&served),
    };
    Exchanged {
        served,
        entry: is_told.then_some(entry),
    }
}
