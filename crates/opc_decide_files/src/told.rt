//! What a log tells of an answer.
ghost use Rattle.std.specs.Prelude.{◌≡◌, ◌++◌, [], ◌∷◌, IfOk, OnOk, codes, string_bytes};
ghost use Rattle.std.specs.Option.{option_copied};
ghost use Rattle.serde_json.specs.Find.{as_str};
ghost use Rattle.serde_json.specs.View.{view};
ghost use Rattle.opc_names.specs.Spellings.{class_text, level_text};
ghost use Rattle.opc_board.specs.Texts.{columns};
ghost use Rattle.opc_http_log.specs.Typed.{typed};
ghost use Rattle.opc_decide_files.specs.Told.{
  asked_words,
  decision_told,
  fault_words,
  id_in,
  kind_words,
  or_nothing,
  reply_told,
  reply_words,
  shown_words,
};

use opc_answers::wanted::Wanted;
use opc_board::text::KeptText;
use opc_decide_answers::decision::AccessDecision;
use opc_decide_answers::policy::DecidingPolicy;
use opc_decide_answers::reply::DecideReply;
use opc_decide_present::kind::QuestionKind;
use opc_decide_requests::fault::RequestFault;
use opc_decide_requests::key::RequestKey;
use opc_decide_requests::parts::{object_at, text_at};
use opc_decide_requests::question::AccessQuestion;
use opc_http_log::escape::printable;
use opc_http_log::typed::typed;
use opc_http_log::words::shown;
use opc_names::class::Class;
use opc_names::level::Level;
use opc_names::name::{ConsoleName, Resource, UserId};
use serde_json::Value;
use std::alloc::{AllocError, Global};

/// What stands for nothing.
const NOTHING: &str = "-";

fn console_text(console: &Option<ConsoleName>) -> &str
    ensures { result.now ≡ or_nothing console.now }
{
    match console {
        Some(name) => name.text(),
        None => NOTHING,
    }
}

fn user_text(user: &Option<UserId>) -> &str
    ensures { result.now ≡ or_nothing user.now }
{
    match user {
        Some(id) => id.text(),
        None => NOTHING,
    }
}

/// The text that a value is, if it is not `null`.
fn rule_text(rule: &Value) -> &str
    ensures { result.now ≡ or_nothing (as_str (view rule.now)) }
{
    match rule.as_str() {
        Some(text) => text,
        None => NOTHING,
    }
}

/// What is asked for, in quotes, at most 126 bytes of it, in printable ASCII.
fn shown_words(alloc: Global, words: &[u8]) -> Result<String, AllocError>
    ensures { IfOk result (λ text. string_bytes text ≡ shown_words words.now) }
{
    let text = shown(alloc, words)?;
    let bytes = printable(alloc, text.as_slice())?;
    String::from_utf8_lossy(alloc, bytes.as_slice())
}

/// A command as it was typed, without a password.
fn command_words(alloc: Global, text: &str) -> Result<Vec<u8>, AllocError>
    ensures { IfOk result (λ words. words.items ≡ codes "enter " ++ typed text.now) }
{
    let mut words = Vec::new(alloc);
    words.extend_from_slice(b"enter ")?;
    let command = typed(alloc, text)?;
    words.extend_from_slice(command.as_slice())?;
    Ok(words)
}

/// A LOGON at a console.
fn logon_words(alloc: Global, name: &ConsoleName) -> Result<String, AllocError>
    ensures { IfOk result (λ words. string_bytes words ≡ columns (codes "LOGON" ∷ name.now ∷ [])) }
{
    let name = name.text();
    format!(in alloc; "LOGON {name}")
}

/// A level of access to a resource.
fn access_words(
    alloc: Global,
    class: Class,
    resource: &Resource,
    level: Level,
) -> Result<String, AllocError>
    ensures { IfOk result (λ words. string_bytes words
        ≡ columns (level_text level ∷ class_text class ∷ resource.now ∷ [])) }
{
    let (level, class, resource) = (level.text(), class.text(), resource.text());
    format!(in alloc; "{level} {class} {resource}")
}

fn asked_words(alloc: Global, id: &str, wanted: &Wanted) -> Result<Vec<u8>, AllocError>
    ensures { IfOk result (λ words. words.items ≡ asked_words id.now wanted.now) }
{
    match wanted {
        Wanted::Command(_) => command_words(alloc, id),
        Wanted::Logon(name) => Ok(logon_words(alloc, name)?.into_bytes()),
        Wanted::Access {
            class,
            resource,
            level,
        } => Ok(access_words(alloc, *class, resource, *level)?.into_bytes()),
    }
}

/// The id of the resource of a body.
fn id_in(body: &Value) -> &str
    ensures { result.now ≡ id_in (view body.now) }
{
    let Ok(resource) = object_at(body, body, RequestKey::Resource) else {
        return "";
    };
    match text_at(resource, RequestKey::ResourceId) {
        Ok(id) => id,
        Err(_) => "",
    }
}

/// What is told of a decision.
#[tactic(auto, using(crate::proofs::Rules::as_str_so))]
pub(crate) fn decision_told(
    alloc: Global,
    policy: &DecidingPolicy,
    body: &Value,
    asked: &AccessQuestion,
    decision: &AccessDecision,
) -> Result<KeptText, AllocError>
    ensures { IfOk result (λ told. told ≡ decision_told policy.now (view body.now) asked.now decision.now) }
{
    let words = asked_words(alloc, id_in(body), &asked.wanted)?;
    let words = shown_words(alloc, words.as_slice())?;
    let rule = decision.rule(alloc)?;
    let (console, user) = (console_text(&asked.console), user_text(&asked.actor));
    let (verdict, words, rule) = (decision.word(), words.as_str(), rule_text(&rule));
    let name = policy.name();
    let text = format!(in alloc; "{console} {user} 200 {verdict} {words} {rule} {name}")?;
    Ok(KeptText::from(text))
}

/// What is wrong with a body.
fn fault_words(alloc: Global, why: &RequestFault) -> Result<String, AllocError>
    ensures { IfOk result (λ words. string_bytes words ≡ fault_words why.now) }
{
    match why {
        RequestFault::NoCommand(fault) => {
            let (path, code) = (RequestKey::ResourceId.path(), fault.code());
            format!(in alloc; "{path}: {code}")
        }
        // The others name no place in a command.
        _ => why.text(alloc),
    }
}

fn kind_words(kind: QuestionKind) -> &'static str
    ensures { result.now ≡ kind_words kind }
{
    match kind {
        QuestionKind::Evaluation => "evaluation",
        QuestionKind::Evaluations => "evaluations",
        QuestionKind::SubjectSearch => "subject search",
        QuestionKind::ActionSearch => "action search",
        QuestionKind::ResourceSearch => "resource search",
    }
}

fn reply_words(
    alloc: Global,
    kind: QuestionKind,
    fault: &Option<RequestFault>,
) -> Result<String, AllocError>
    ensures { IfOk result (λ words. string_bytes words ≡ reply_words kind fault.now) }
{
    match fault {
        Some(why) => fault_words(alloc, why),
        None => String::from_str(alloc, kind_words(kind)),
    }
}

/// What is told of a reply of which no more is known than its kind, or what is wrong.
pub(crate) fn reply_told(
    alloc: Global,
    policy: &DecidingPolicy,
    kind: QuestionKind,
    reply: &DecideReply,
) -> Result<KeptText, AllocError>
    ensures { IfOk result (λ told. told ≡ reply_told policy.now kind reply.now) }
{
    let words = reply_words(alloc, kind, &reply.fault)?;
    let words = shown_words(alloc, words.as_str().as_bytes())?;
    let (status, words, name) = (reply.status.as_u16(), words.as_str(), policy.name());
    let text = format!(in alloc; "- - {status} - {words} - {name}")?;
    Ok(KeptText::from(text))
}
