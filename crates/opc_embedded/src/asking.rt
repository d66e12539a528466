//! Answers to questions about policies that are given as bytes.
ghost use Rattle.std.specs.Prelude.{◌≡◌, Some};
ghost use Rattle.std.specs.Option.{ForSome};
ghost use Rattle.opc_cli_words.specs.Reading.{words_after};
ghost use Rattle.opc_embedded.specs.Answers.{
  AreAnswered,
  IsAnsweredHere,
  IsDiffAnswered,
  IsMemoryReported,
  IsTaskAnswered,
};
ghost use Rattle.opc_cli_questions.specs.FileAnswers.{IsAnsweredByFile};
ghost use Rattle.opc_embedded.specs.Kept.{IsMadeBy};
ghost use Rattle.opc_embedded.specs.Replies.{IsAsked, IsReply, status_told};

use crate::comparing::compare_texts;
use crate::reply::Reply;
use crate::room::answer_kept;
use crate::texts::{GivenFile, PolicyTexts};
use crate::unanswered::{Unanswered, not_answered};
use crate::words::words_in;
use opc_answers::room::Room;
use opc_cli_failures::failure::{Failure, NO_PATHS};
use opc_cli_failures::status::Status;
use opc_cli_questions::file_answer::answer_by_file;
use opc_cli_tasks::question::{Comparison, PolicyQuestion};
use opc_cli_tasks::source::{NamedPolicy, PolicySource};
use opc_cli_tasks::task::Task;
use opc_cli_words::words::read_words;
use opc_io::watched::Watched;
use opc_terms::fault::Fault;
use std::alloc::Global;
use std::io::Write;
use std::str;

/// The most bytes of a question.
const QUESTION_LIMIT: usize = 65_536;

fn answer_by_text<W: Write, E: Write>(
    alloc: Global,
    texts: &PolicyTexts<'_>,
    question: &PolicyQuestion<'_>,
    output: &mut Watched<W>,
    errors: &mut Watched<E>,
) -> Status
    ensures { IsAnsweredByFile W.contents E.contents output.old output.new errors.old errors.new result
        question.now (Some texts.now.policy.now) }
{
    let files = GivenFile {
        bytes: texts.policy,
    };
    let mut input = texts.policy;
    answer_by_file(alloc, &files, None, question, &mut input, output, errors)
}

/// Answers a question by what is kept of the policy, or else by its text.
fn answer_given<W: Write, E: Write>(
    alloc: Global,
    texts: &PolicyTexts<'_>,
    kept: &mut Option<Room>,
    question: &PolicyQuestion<'_>,
    output: &mut Watched<W>,
    errors: &mut Watched<E>,
) -> Status
    requires { ForSome kept.old (IsMadeBy texts.now.policy.now) }
    ensures same { kept.new ≡ kept.old }
    ensures answered { IsAnsweredByFile W.contents E.contents output.old output.new errors.old errors.new result
        question.now (Some texts.now.policy.now) }
{
    match answer_kept(alloc, kept, question, output, errors) {
        Some(status) => status,
        None => answer_by_text(alloc, texts, question, output, errors),
    }
}

/// Answers a question by the policy that is given, if it names no other.
fn answer_here<W: Write, E: Write>(
    alloc: Global,
    texts: &PolicyTexts<'_>,
    kept: &mut Option<Room>,
    source: PolicySource<'_>,
    question: &PolicyQuestion<'_>,
    output: &mut Watched<W>,
    errors: &mut Watched<E>,
) -> Status
    requires { ForSome kept.old (IsMadeBy texts.now.policy.now) }
    ensures same { kept.new ≡ kept.old }
    ensures answered { IsAnsweredHere W.contents E.contents texts.now.policy.now texts.now.new.now output.old output.new
        errors.old errors.new result source.entry question.now }
{
    match source {
        PolicySource::PolicyFile(None) => {
            answer_given(alloc, texts, kept, question, output, errors)
        }
        PolicySource::PolicyFile(Some(_)) | PolicySource::Database(_) => {
            not_answered(Unanswered::NamesFile, errors)
        }
    }
}

/// Compares the two texts, if neither policy is that of a database.
fn answer_diff<W: Write, E: Write>(
    alloc: Global,
    texts: &PolicyTexts<'_>,
    compared: &Comparison<'_>,
    output: &mut Watched<W>,
    errors: &mut Watched<E>,
) -> Status
    ensures { IsDiffAnswered W.contents E.contents texts.now.policy.now texts.now.new.now output.old output.new
        errors.old errors.new result compared.now.old compared.now.new compared.now.form }
{
    match compared.old {
        NamedPolicy::File(_) => match compared.new {
            NamedPolicy::File(_) => compare_texts(alloc, texts, compared, output, errors),
            NamedPolicy::Database(_) => not_answered(Unanswered::NamesFile, errors),
        },
        NamedPolicy::Database(_) => not_answered(Unanswered::NamesFile, errors),
    }
}

/// Does a task, if it is a question about a policy.
fn answer_task<W: Write, E: Write>(
    alloc: Global,
    texts: &PolicyTexts<'_>,
    kept: &mut Option<Room>,
    task: &Task<'_>,
    output: &mut Watched<W>,
    errors: &mut Watched<E>,
) -> Status
    requires { ForSome kept.old (IsMadeBy texts.now.policy.now) }
    ensures same { kept.new ≡ kept.old }
    ensures answered { IsTaskAnswered W.contents E.contents texts.now.policy.now texts.now.new.now output.old output.new
        errors.old errors.new result task.now }
{
    match task {
        Task::Ask(source, question) => {
            answer_here(alloc, texts, kept, *source, question, output, errors)
        }
        Task::Diff(compared) => answer_diff(alloc, texts, compared, output, errors),
        Task::Account(..)
        | Task::Decide(_)
        | Task::Work(..)
        | Task::DryRun(..)
        | Task::InMemory { .. }
        | Task::Digest
        | Task::Commands => not_answered(Unanswered::OtherTask, errors),
    }
}

/// Answers what arguments ask for, and returns the status. The first is the place of the program's own name.
fn answer_words<W: Write, E: Write>(
    alloc: Global,
    texts: &PolicyTexts<'_>,
    kept: &mut Option<Room>,
    words: &[String],
    output: &mut Watched<W>,
    errors: &mut Watched<E>,
) -> Status
    requires { ForSome kept.old (IsMadeBy texts.now.policy.now) }
    ensures same { kept.new ≡ kept.old }
    ensures answered { AreAnswered W.contents E.contents texts.now.policy.now texts.now.new.now output.old output.new
        errors.old errors.new result (words_after words.now) }
{
    match read_words(alloc, words, output, errors) {
        Ok(task) => answer_task(alloc, texts, kept, &task, output, errors),
        Err(status) => status,
    }
}

fn no_memory<E: Write>(errors: &mut Watched<E>) -> Status
    ensures { IsMemoryReported E.contents errors.old errors.new result }
{
    Failure::from(Fault::NoMemory).report(&NO_PATHS, errors)
}

fn answered(
    alloc: Global,
    texts: &PolicyTexts<'_>,
    kept: &mut Option<Room>,
    question: &[u8],
    output: &mut Watched<Vec<u8>>,
    errors: &mut Watched<Vec<u8>>,
) -> Status
    requires { ForSome kept.old (IsMadeBy texts.now.policy.now) }
    ensures same { kept.new ≡ kept.old }
    ensures reply { IsReply texts.now.policy.now texts.now.new.now output.old output.new errors.old errors.new result
        question.now }
{
    if question.len() > QUESTION_LIMIT {
        return not_answered(Unanswered::TooLong, errors);
    }
    let Ok(text) = str::from_utf8(question) else {
        return not_answered(Unanswered::NotUtf8, errors);
    };
    match words_in(alloc, text) {
        Ok(words) => answer_words(alloc, texts, kept, words.as_slice(), output, errors),
        Err(_) => no_memory(errors),
    }
}

/// The status, or that of a failure if the errors are not whole.
fn whole_status(errors: &Watched<Vec<u8>>, status: Status) -> Status
    ensures { result ≡ status_told errors.now status }
{
    if errors.failed {
        Status::Failed
    } else {
        status
    }
}

/// What `ask` replies, by what is kept of the policy.
pub(crate) fn reply(
    alloc: Global,
    texts: &PolicyTexts<'_>,
    kept: &mut Option<Room>,
    question: &[u8],
) -> Reply
    requires { ForSome kept.old (IsMadeBy texts.now.policy.now) }
    ensures same { kept.new ≡ kept.old }
    ensures asked { IsAsked texts.now.policy.now texts.now.new.now question.now result }
{
    let mut output = Watched::new(Vec::new(alloc));
    let mut errors = Watched::new(Vec::new(alloc));
    let status = answered(alloc, texts, kept, question, &mut output, &mut errors);
    Reply {
        status: whole_status(&errors, status),
        output,
        errors,
    }
}

/// What the program replies to a question, if the policy is on its input, and the files of `diff` are the two texts. The
/// question is the words of `explain`, `who`, `check`, `may`, `diff` or `sheet`, with a NUL between each two.
pub fn ask(alloc: Global, texts: &PolicyTexts<'_>, question: &[u8]) -> Reply
    ensures { IsAsked texts.now.policy.now texts.now.new.now question.now result }
{
    reply(alloc, texts, &mut None, question)
}
