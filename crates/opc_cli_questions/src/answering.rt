//! Answers by the policy and the board of tables.
ghost use Rattle.std.specs.Prelude.{◌≡◌, IfErr, IfOk, IsErrAnd, None, Ok, string_bytes};
ghost use Rattle.std.specs.Option.{option_copied};
ghost use Rattle.opc_cli_questions.specs.Checks.{noted};
ghost use Rattle.opc_cli_failures.specs.Statuses.{IsFailure};
ghost use Rattle.opc_cli_questions.specs.Printed.{IsWritten, answered};
ghost use Rattle.opc_state.specs.Asked.{Loads};
ghost use Rattle.opc_cli_questions.specs.Answers.{
  IsAnsweredOver,
  IsRowsAnswer,
  about_on,
  ask_on,
  exported_rows,
  on_board,
};

use crate::answer::print_ask;
use crate::check_answer::noted;
use crate::kinds::kind_on;
use crate::may::print_asked_may;
use crate::printing::{PrintedAnswer, print};
use crate::sheet::print_rows_sheet;
use opc_answers::question::{About, Question};
use opc_cli_failures::failure::Failure;
use opc_cli_failures::status::Status;
use opc_cli_tasks::question::{Ask, MayQuestion, PolicyCheck, PolicyQuestion};
use opc_names::name::ConsoleName;
use opc_policy_members::row::Row;
use opc_state::tables::Tables;
use opc_terms::fault::Fault;
use opc_terms::store_fault::StoreFault;
use std::alloc::Global;
use std::io::Write;

/// A command with the kind of the unit on the board, if --as does not give the kind.
fn about_on<'a, T: Tables>(tables: &mut T, about: &About<'a>) -> Result<About<'a>, StoreFault>
    ensures { Loads T.meaning tables.old tables.new result (λ s on. on ≡ about_on s about.now) }
{
    match *about {
        About::Command { text, kind } => {
            let kind = kind_on(tables, text, kind)?;
            Ok(About::Command { text, kind })
        }
        About::Access {
            class,
            resource,
            level,
        } => Ok(About::Access {
            class,
            resource,
            level,
        }),
    }
}

fn ask_on<'a, T: Tables>(tables: &mut T, ask: &Ask<'a>) -> Result<Ask<'a>, StoreFault>
    ensures { Loads T.meaning tables.old tables.new result (λ s asked. asked ≡ ask_on s ask.now) }
{
    match about_on(tables, &ask.question.about) {
        Ok(about) => Ok(Ask {
            question: Question {
                about,
                console: ask.question.console,
                asks: ask.question.asks,
            },
            form: ask.form,
        }),
        Err(fault) => Err(fault),
    }
}

/// The question, with the kinds of the units on the board.
fn on_board<'a, T: Tables>(
    tables: &mut T,
    question: &PolicyQuestion<'a>,
) -> Result<PolicyQuestion<'a>, StoreFault>
    ensures { Loads T.meaning tables.old tables.new result (λ s asked. asked ≡ on_board s question.now) }
{
    match question {
        PolicyQuestion::Ask(ask) => match ask_on(tables, ask) {
            Ok(ask) => Ok(PolicyQuestion::Ask(ask)),
            Err(fault) => Err(fault),
        },
        // It names no unit. (The borrow checker copies its fields, but not the whole of it.)
        PolicyQuestion::Check(check) => Ok(PolicyQuestion::Check(PolicyCheck {
            form: check.form,
            ..*check
        })),
        // (The same of these fields.)
        PolicyQuestion::May(asked) => Ok(PolicyQuestion::May(MayQuestion {
            form: asked.form,
            ..*asked
        })),
        // (The same.)
        PolicyQuestion::Sheet(name) => Ok(PolicyQuestion::Sheet(*name)),
    }
}

/// The notes on rows that can be loaded.
fn check_answer(
    alloc: Global,
    rows: &[Row],
    check: &PolicyCheck<'_>,
) -> Result<PrintedAnswer, Fault>
    ensures ok { IfOk result (λ answer. answered (string_bytes answer.text) answer.status
        ≡ noted check.now.form (option_copied check.now.allowed) None rows.now) }
    ensures fault { IfErr result (λ fault. IsFailure fault) }
{
    Ok(noted(alloc, check.form, check.allowed, None, rows)?)
}

/// A question about the units on the board, and the rows that answer it.
#[derive(Drop)]
struct LoadedQuestion<'a> {
    question: PolicyQuestion<'a>,
    rows: Vec<Row>,
}

fn loaded<'a, T: Tables>(
    alloc: Global,
    tables: &mut T,
    question: &PolicyQuestion<'a>,
) -> Result<LoadedQuestion<'a>, StoreFault>
    ensures { Loads T.meaning tables.old tables.new result (λ s asking.
        (asking.question ≡ on_board s question.now) × (asking.rows.items ≡ exported_rows s)) }
{
    // Named for the prover, which otherwise cannot infer the type of a row's console.
    let _nowhere: Option<ConsoleName> = None;
    match on_board(tables, question) {
        Ok(question) => {
            let rows = tables.written(alloc)?;
            Ok(LoadedQuestion { question, rows })
        }
        Err(fault) => Err(fault),
    }
}

/// Prints an answer that was made; of none its fault is returned.
fn print_made<W: Write>(
    made: Result<PrintedAnswer, Fault>,
    output: &mut W,
) -> Result<Status, Failure>
    ensures ok { IfOk made (λ answer. IsWritten W.contents output.old output.new
        (λ other. Ok (answered (string_bytes answer.text) answer.status) ≡ other) result) }
    ensures fault { IfErr made (λ fault. IsErrAnd result (λ failure. failure.fault ≡ fault)) }
    ensures silent { IfErr made (λ _. output.new ≡ output.old) }
{
    match made {
        Ok(answer) => print(&answer, output),
        Err(fault) => Err(Failure::from(fault)),
    }
}

/// Prints the answer of loaded rows.
fn print_asked<W: Write>(
    alloc: Global,
    asking: &LoadedQuestion<'_>,
    output: &mut W,
) -> Result<Status, Failure>
    ensures { IsWritten W.contents output.old output.new
        (IsRowsAnswer asking.now.question asking.now.rows.items) result }
{
    let rows = asking.rows.as_slice();
    match &asking.question {
        PolicyQuestion::Ask(ask) => print_ask(alloc, rows, ask, output),
        PolicyQuestion::Check(check) => print_made(check_answer(alloc, rows, check), output),
        PolicyQuestion::May(asked) => print_asked_may(alloc, rows, asked, output),
        PolicyQuestion::Sheet(name) => print_rows_sheet(alloc, name, rows, output),
    }
}

/// Answers a question by the policy and the board of tables, prints the answer, and returns its status. The tables are
/// not changed.
pub fn answer_on<T: Tables, W: Write>(
    alloc: Global,
    tables: &mut T,
    question: &PolicyQuestion<'_>,
    output: &mut W,
) -> Result<Status, Failure>
    ensures { IsAnsweredOver T.meaning W.contents tables.old tables.new output.old output.new result question.now }
{
    match loaded(alloc, tables, question) {
        Ok(asking) => print_asked(alloc, &asking, output),
        Err(fault) => Err(Failure::of_gate(Fault::from(fault))),
    }
}
