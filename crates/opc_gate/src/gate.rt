//! The gate.
ghost use Rattle.std.specs.Prelude.{◌≡◌, ◌≢◌, ◌≤◌, ◌⊎◌, [], None, Ok, Err, length, true, ℕ};
ghost use Rattle.std.specs.Prelude.{IfErr, IfOk, IfSome, OnErr, OnOk};
ghost use Rattle.opc_terms.specs.declared.fault.Fault.TheVariants as why;
ghost use Rattle.std.specs.Option.{option_and_then};
ghost use Rattle.opc_terms.specs.Faults.{store_fault};
ghost use Rattle.opc_board.specs.Invariants.{console_at};
ghost use Rattle.opc_board.specs.Texts.{text_or};
ghost use Rattle.opc_state.specs.Asked.{Answers, Loads};
ghost use Rattle.opc_state.specs.Invariants.{IsKeyed};
ghost use Rattle.opc_state.specs.PolicyFile.{rows_of};
ghost use Rattle.opc_state.specs.State.{State};
ghost use Rattle.opc_state_cache.specs.Cache.{IsRight};
ghost use Rattle.opc_state_cache.specs.Flags.{unknown};
ghost use Rattle.opc_gate_imports.specs.RowEdits.{HaveNothingNew, IsBootstrap};
ghost use Rattle.opc_machine.specs.Bootstrap.{bootstrapped};
ghost use Rattle.opc_machine.specs.Inputs.{Input, console_of, input_of};
ghost use Rattle.opc_machine.specs.Rulings.{acting_user};
ghost use Rattle.opc_machine.specs.Machine.{IsAborted, account_row, is_warned, outcome as outcome_of, user_acting};
ghost use Rattle.opc_gate.specs.Handling.{IsDecision, IsHandled, IsNothingWhereSame, is_accounted};
ghost use Rattle.opc_machine.specs.Effects.{IsOutcome};

use crate::console::{acting_user_at, console_of, console_on};
use opc_account_length::length::account_length_from;
use opc_board::rows::ConsoleRow;
use opc_board::text::KeptText;
use opc_gate_admin::administration::admin_on;
use opc_gate_commands::command::{command_on, event_on};
use opc_gate_imports::bootstrap::bootstrap;
use opc_gate_imports::import::import_on;
use opc_gate_listings::account::account_on;
use opc_gate_listings::profiles::profiles_on;
use opc_gate_rulings::ruling::acting_user_on;
use opc_machine::outcome::Outcome;
use opc_machine::request::{Answer, Request};
use opc_names::name::{Name, NameKind, UserId};
use opc_policy_members::row::Row;
use opc_state::account::AccountRow;
use opc_state::change::Change;
use opc_state::tables::Tables;
use opc_state_cache::cached::Cached;
use opc_terms::fault::Fault;
use opc_terms::rule::Rule;
use opc_terms::store_fault::StoreFault;
use std::alloc::{AllocError, Global};
use std::marker::Model;

/// An answer, and what must be written before it is given.
#[derive(Drop)]
struct Decision {
    answer: Answer,
    change: Change,
}

fn is_warned(rule: &Option<Rule>) -> bool
    ensures { result ≡ is_warned rule.now }
{
    match rule {
        Some(Rule::Profile { warned, .. }) => *warned,
        // Only a profile can warn.
        _ => false,
    }
}

fn is_accounted(outcome: &Outcome) -> bool
    ensures { result ≡ is_accounted outcome.now }
{
    match outcome {
        Outcome::Done(effect) => is_warned(&effect.rule),
        Outcome::Refused(_) => true,
    }
}

// For whom the console of a request acts, if the account gets a row for the outcome of the request. The row has only
// the name: a user is loaded for it only at an unattended AUTO console, to see whether its own user is stored.
fn user_accounted_on<T: Tables>(
    tables: &mut T,
    alloc: Global,
    console: &Option<ConsoleRow>,
    outcome: &Outcome,
) -> Result<Option<UserId>, StoreFault>
    ensures { Loads T.meaning tables.old tables.new result
        (λ s u. is_accounted outcome.now ≡ true → u ≡ option_and_then (acting_user s) console.now) }
{
    match console {
        Some(console) if is_accounted(outcome) => acting_user_on(tables, alloc, console),
        // No row is written, or the request names no console that is there.
        _ => Ok(None),
    }
}

// The text of a name, or what stands for none.
fn name_or<K: NameKind<8>>(
    alloc: Global,
    none: &str,
    name: &Option<Name<K, 8>>,
) -> Result<KeptText, AllocError>
    ensures { IfOk result (λ text. text ≡ text_or none.now name.now) }
{
    match name {
        Some(name) => KeptText::new(alloc, name.text()),
        None => KeptText::new(alloc, none),
    }
}

// A row of the account for a request.
fn account_row(
    alloc: Global,
    moment: u64,
    request: &Request,
    user: Option<UserId>,
    code: &str,
    rule: &Option<Rule>,
) -> Result<AccountRow, AllocError>
    ensures { IfOk result (λ row. (s : State) → user ≡ user_acting s (input_of request.now)
        → row ≡ account_row s moment (input_of request.now) code.now rule.now) }
{
    Ok(AccountRow {
        moment,
        console: name_or(alloc, "*", &console_of(request))?,
        user: name_or(alloc, "-", &user)?,
        code: KeptText::new(alloc, code)?,
        rule: KeptText::from(Rule::text_or_none(alloc, rule.as_ref())?),
    })
}

// The answer and the change, by the outcome of a request.
fn decide(
    alloc: Global,
    moment: u64,
    request: &Request,
    user: Option<UserId>,
    outcome: Outcome,
) -> Result<Decision, AllocError>
    ensures decides { (s : State) → IsOutcome s (outcome_of s (input_of request.now)) outcome
        → (is_accounted outcome ≡ true → user ≡ user_acting s (input_of request.now))
        → IfOk result (λ d. IsDecision s moment (input_of request.now) d.answer d.change) }
    ensures idle { (s : State) → IsOutcome s (outcome_of s (input_of request.now)) outcome
        → IfOk result (λ d. IsNothingWhereSame s d.change) }
{
    match outcome {
        Outcome::Done(effect) => {
            let account = if is_warned(&effect.rule) {
                Some(account_row(alloc, moment, request, user, "WARN", &effect.rule)?)
            } else {
                None
            };
            Ok(Decision {
                answer: Answer::Done {
                    lines: effect.lines,
                    rule: effect.rule,
                },
                change: Change {
                    edits: effect.edits,
                    account,
                },
            })
        }
        Outcome::Refused(refusal) => Ok(Decision {
            answer: Answer::Refused {
                fault: refusal.fault,
                rule: refusal.rule,
            },
            change: Change {
                edits: Vec::new(alloc),
                account: Some(account_row(
                    alloc,
                    moment,
                    request,
                    user,
                    refusal.fault.code(),
                    &refusal.rule,
                )?),
            },
        }),
    }
}

fn aborted(fault: StoreFault) -> Answer
    ensures aborts { IsAborted result }
    ensures reported { result ≡ Answer.Refused (store_fault fault) None }
{
    Answer::Refused {
        fault: Fault::from(fault),
        rule: None,
    }
}

// The outcome of a request, given the row of its console; writes nothing.
fn outcome_on<T: Tables>(
    tables: &mut T,
    alloc: Global,
    console: Option<ConsoleRow>,
    request: &Request,
) -> Result<Outcome, StoreFault>
    ensures { Loads T.meaning tables.old tables.new result
        (λ s o. console ≡ option_and_then (console_at s.board) (console_of (input_of request.now))
        → IfSome (console_of (input_of request.now)) (λ _. IsKeyed s)
        → IsOutcome s (outcome_of s (input_of request.now)) o) }
{
    match request {
        Request::Command { text, .. } => command_on(tables, alloc, console, text.as_str()),
        Request::Admin { op, .. } => admin_on(tables, alloc, console, op),
        Request::ListProfiles { class, .. } => profiles_on(tables, alloc, console, *class),
        Request::ListAccount { from, count, .. } => {
            account_on(tables, alloc, console, *from, *count)
        }
        Request::Import { batch, rows, .. } => import_on(tables, alloc, console, *batch, rows),
        Request::Event(event) => event_on(tables, alloc, event),
    }
}

// Loads what a request needs, and decides; writes nothing.
fn decision_on<T: Tables>(
    tables: &mut T,
    alloc: Global,
    moment: u64,
    request: &Request,
) -> Result<Decision, StoreFault>
    ensures decides { Loads T.meaning tables.old tables.new result
        (λ s d. IsDecision s moment (input_of request.now) d.answer d.change) }
    ensures idle { Answers T.meaning tables.old tables.new result
        (λ s d. IsNothingWhereSame s d.change) }
{
    let console = console_on(tables, request)?;
    let outcome = outcome_on(tables, alloc, console, request)?;
    let user = user_accounted_on(tables, alloc, &console, &outcome)?;
    Ok(decide(alloc, moment, request, user, outcome)?)
}

// Writes the change of a decision, and then answers.
fn committed<T: Tables>(tables: &mut T, alloc: Global, decision: Decision) -> Answer
    ensures sure { T.meaning.is_sure tables.new → T.meaning.is_sure tables.old }
    ensures handled { T.meaning.is_sure tables.new → (s : State) → T.meaning.represents tables.old s → (moment : ℕ)
        → (r : Input)
        → IsDecision s moment r decision.answer decision.change → IsNothingWhereSame s decision.change
        → IsHandled T.meaning tables.old tables.new s moment r result }
{
    let Decision { answer, change } = decision;
    if change.is_nothing() {
        return answer;
    }
    match tables.commit(alloc, &change) {
        Ok(()) => answer,
        Err(fault) => aborted(fault),
    }
}

fn handle<T: Tables>(tables: &mut T, alloc: Global, moment: u64, request: &Request) -> Answer
    ensures sure { T.meaning.is_sure tables.new → T.meaning.is_sure tables.old }
    ensures handled { T.meaning.is_sure tables.new → (s : State) → T.meaning.represents tables.old s
        → IsHandled T.meaning tables.old tables.new s moment (input_of request.now) result }
{
    match decision_on(tables, alloc, moment, request) {
        Ok(decision) => committed(tables, alloc, decision),
        Err(fault) => aborted(fault),
    }
}

/// The gate over the tables that keep its state.
#[derive(Drop)]
pub struct Gate<T: Tables> {
    tables: T,
    /// How many rows the account had when it was last counted, or 0.
    rows: u64,
}

impl<T: Tables> Model for Gate<T> {
    ghost Value = { T };

    ghost view = { λ gate. gate.tables };
}

impl<T: Tables> Gate<Cached<T>> {
    /// A gate over these tables, with a cache of which profile decides, and of the flags of the state. If its
    /// allocation fails (E90), the tables are returned. With its cache, which is empty, the gate represents each state
    /// that the tables represent.
    pub fn new(alloc: Global, store: T) -> Result<Self, (Fault, T)>
        ensures made { IfOk result (λ gate.
            (gate.tables ≡ store) × (gate.recent ≡ []) × (gate.flags ≡ unknown)) }
        ensures represents { IfOk result
            (λ gate. (s : State) → T.meaning.represents store s → ⟦<Cached<T> as Tables>⟧.meaning.represents gate s) }
        ensures refused { IfErr result (λ back. (back.0 ≡ why.NoMemory) × (back.1 ≡ store)) }
    {
        match Cached::new(alloc, store) {
            Ok(tables) => Ok(Gate { tables, rows: 0 }),
            Err(back) => Err(back),
        }
    }

    /// How many names are cached, at most 256. Each has the pattern that decides it in every state that the gate
    /// represents, or none if none decides.
    pub fn cached(&self) -> u32
        ensures count { result ≡ length self.now.recent }
        ensures most { result ≤ 256 }
        ensures right { (s : State) → ⟦<Cached<T> as Tables>⟧.meaning.represents self.now s
            → IsRight s.policy self.now.recent }
    {
        self.tables.cached()
    }

    /// The tables without the cache, as they are.
    pub fn into_store(self) -> T
        ensures { result ≡ self.tables }
    {
        self.tables.into_tables()
    }
}

impl<T: Tables> Gate<T> {
    /// A gate over these tables without a cache, which a program that handles one request and ends would not profit
    /// from.
    pub fn over(tables: T) -> Self
        ensures { result ≡ tables }
    {
        Gate { tables, rows: 0 }
    }

    /// The tables, as they are.
    pub fn into_tables(self) -> T
        ensures { result ≡ self }
    {
        self.tables
    }

    /// Takes the rows of a first policy, all of them or none, if no user is stored. A crash leaves the state before or
    /// after it, as a whole; once it is acknowledged, only the state after it. Rows that bring nothing new write
    /// nothing.
    pub fn bootstrap(&mut self, alloc: Global, rows: &[Row]) -> Result<(), Fault>
        ensures sure { T.meaning.is_sure self.new → T.meaning.is_sure self.old }
        ensures done { T.meaning.is_sure self.new → (s : State) → T.meaning.represents self.old s
            → OnOk result (IsBootstrap T.meaning self.new s rows.now) }
        ensures refused { T.meaning.is_sure self.new → (s : State) → T.meaning.represents self.old s
            → IfErr result (λ f. f ≢ why.NoMemory → f ≢ why.Store → bootstrapped rows.now s ≡ Err f) }
        ensures unchanged { T.meaning.is_sure self.new → (s : State) → T.meaning.represents self.old s
            → OnErr result (T.meaning.represents self.new s) }
        ensures crash { T.meaning.is_sure self.new → (s : State) → T.meaning.represents self.old s → (left : State)
            → T.meaning.may_leave self.new left
            → T.meaning.may_leave self.old left ⊎ (bootstrapped rows.now s ≡ Ok left) }
        ensures idle { T.meaning.is_sure self.new → (s : State) → T.meaning.represents self.old s
            → HaveNothingNew rows.now s
            → (left : State) → T.meaning.may_leave self.new left → T.meaning.may_leave self.old left }
    {
        bootstrap(&mut self.tables, alloc, rows)
    }

    /// The policy and the consoles, as the rows of a policy file. A bootstrap of new tables with them makes the same
    /// policy, and the same authorities and modes.
    pub fn export(&mut self, alloc: Global) -> Result<Vec<Row>, Fault>
        ensures rows { Loads T.meaning self.old self.new result
            (λ s rows. rows.items ≡ rows_of s.policy s.board.consoles) }
        ensures fault { IfErr result (λ f. (f ≡ why.NoMemory) ⊎ (f ≡ why.Store)) }
    {
        Ok(self.tables.written(alloc)?)
    }

    /// For whom the console of a request acts, as the account would have it.
    pub fn acting_user(
        &mut self,
        alloc: Global,
        request: &Request,
    ) -> Result<Option<UserId>, StoreFault>
        ensures { Loads T.meaning self.old self.new result (λ s user. user ≡ user_acting s (input_of request.now)) }
    {
        acting_user_at(&mut self.tables, alloc, request)
    }

    /// How many rows the account has: the number of the last one. It is one query if at most one row was added since the
    /// last call.
    pub fn account_length(&mut self, alloc: Global) -> Result<u64, StoreFault>
        ensures { Loads T.meaning self.old self.new result (λ s count. count ≡ length s.account) }
    {
        let rows = account_length_from(&mut self.tables, alloc, self.rows)?;
        self.rows = rows;
        Ok(rows)
    }

    /// Answers a request. The answer and the state that the tables represent afterwards are a step of the access
    /// machine. A crash leaves the state before it or the state after it, as a whole; once a change is acknowledged,
    /// only the state after it.
    pub fn handle(&mut self, alloc: Global, moment: u64, request: &Request) -> Answer
        ensures sure { T.meaning.is_sure self.new → T.meaning.is_sure self.old }
        ensures handled { T.meaning.is_sure self.new → (s : State) → T.meaning.represents self.old s
            → IsHandled T.meaning self.old self.new s moment (input_of request.now) result }
    {
        handle(&mut self.tables, alloc, moment, request)
    }
}
