//! Events, as a script has them.
ghost use Rattle.std.specs.Prelude.{◌≡◌, IfOk, MatchOption, None, Some};
ghost use Rattle.opc_cli_script.specs.Reading.{
  ask,
  asked,
  allocate,
  event_by,
  event_in,
  flagged,
  id_in,
  job_in,
  kind_in,
  kinds,
  name_in,
  separated,
  plain_kind,
  started_kind,
};
ghost use Rattle.opc_names.specs.Spellings.{lookup};

use opc_board::event::Event;
use opc_board::rows::UnitKind;
use opc_board::text::KeptText;
use opc_names::name::{Name, NameKind};
use opc_names::reply_id::ReplyId;
use std::alloc::{AllocError, Global};

/// The first word of a text, and what follows the space after it.
pub(crate) fn separated(text: &str) -> Option<(&str, &str)>
    ensures { MatchOption result (separated text.now ≡ None)
        (λ words. separated text.now ≡ Some (words.0.now, words.1.now)) }
{
    text.split_once(' ')
}

/// The name of a kind with this text.
pub(crate) fn name_in<K: NameKind<N>, const N: usize>(text: &str) -> Option<Name<K, N>>
    ensures { result ≡ name_in K.rule text.now }
{
    Name::read(text).ok()
}

fn flagged(text: &str) -> Option<(&str, bool)>
    ensures { MatchOption result (flagged text.now ≡ None) (λ word. flagged text.now ≡ Some (word.0.now, word.1)) }
{
    match separated(text) {
        None => Some((text, true)),
        Some((word, "NONCANCEL")) => Some((word, false)),
        Some(_) => None,
    }
}

fn kind_alone(word: &str) -> Option<UnitKind>
    ensures { result ≡ lookup kinds word.now }
{
    match word {
        "JOB" => Some(UnitKind::Job),
        "TSU" => Some(UnitKind::Tsu),
        // A started task has a member after its word, so `started_kind` reads it; no other word is a kind.
        _ => None,
    }
}

#[tactic(auto, unfolding(crate::specs::Reading::plain_kind))]
fn plain_kind(text: &str) -> Option<(UnitKind, bool)>
    ensures { result ≡ plain_kind text.now }
{
    let (word, cancelable) = flagged(text)?;
    Some((kind_alone(word)?, cancelable))
}

#[tactic(auto, unfolding(crate::specs::Reading::started_kind))]
fn started_kind(text: &str) -> Option<(UnitKind, bool)>
    ensures { result ≡ started_kind text.now }
{
    let (word, cancelable) = flagged(text)?;
    let member = name_in(word)?;
    Some((UnitKind::Stc { member }, cancelable))
}

// The kind of a unit, and whether it is cancelable.
fn kind_in(text: &str) -> Option<(UnitKind, bool)>
    ensures { result ≡ kind_in text.now }
{
    match separated(text) {
        Some(("STC", rest)) => started_kind(rest),
        // Jobs and sessions have no member.
        _ => plain_kind(text),
    }
}

#[tactic(auto, unfolding(crate::specs::Reading::job_in))]
fn job_in(text: &str) -> Option<Event>
    ensures { result ≡ job_in text.now }
{
    let (name, kind) = separated(text)?;
    let name = name_in(name)?;
    let (kind, cancelable) = kind_in(kind)?;
    Some(Event::JobIn {
        name,
        kind,
        cancelable,
    })
}

#[tactic(auto, unfolding(crate::specs::Reading::allocate))]
fn allocate(text: &str) -> Option<Event>
    ensures { result ≡ allocate text.now }
{
    let (device, unit) = separated(text)?;
    Some(Event::Allocate {
        device: name_in(device)?,
        unit: name_in(unit)?,
    })
}

fn id_in(text: &str) -> Option<ReplyId>
    ensures { result ≡ id_in text.now }
{
    match text.as_bytes() {
        [a, b] if a.is_ascii_digit() && b.is_ascii_digit() => {
            ReplyId::new(10 * (*a - b'0') + (*b - b'0'))
        }
        // Anything else is not the number of a reply.
        _ => None,
    }
}

// The parts of an ASK: a number of two digits, and a text that is not empty.
#[tactic(auto, unfolding(crate::specs::Reading::asked))]
fn asked(text: &str) -> Option<(ReplyId, &str)>
    ensures { MatchOption result (asked text.now ≡ None) (λ parts. asked text.now ≡ Some (parts.0, parts.1.now)) }
{
    let (id, reported) = separated(text)?;
    let id = id_in(id)?;
    if reported.is_empty() {
        return None;
    }
    Some((id, reported))
}

fn ask(alloc: Global, text: &str) -> Result<Option<Event>, AllocError>
    ensures { IfOk result (λ event. event ≡ ask text.now) }
{
    match asked(text) {
        Some((id, reported)) => Ok(Some(Event::Ask {
            id,
            text: KeptText::new(alloc, reported)?,
        })),
        None => Ok(None),
    }
}

/// The event that a text is read as.
pub(crate) fn event_in(alloc: Global, text: &str) -> Result<Option<Event>, AllocError>
    ensures { IfOk result (λ event. event ≡ event_in text.now) }
{
    match separated(text) {
        None if text == "RESUME" => Ok(Some(Event::Resume)),
        None => Ok(None),
        Some(("ASK", rest)) => ask(alloc, rest),
        Some((verb, rest)) => Ok(reported(verb, rest)),
    }
}

// The event of a word other than ASK, with the text after it.
fn reported(verb: &str, rest: &str) -> Option<Event>
    ensures { result ≡ event_by verb.now rest.now }
{
    match verb {
        "JOBIN" => job_in(rest),
        "JOBEND" => Some(Event::JobEnd(name_in(rest)?)),
        "ATTACH" => Some(Event::Attach(name_in(rest)?)),
        "ALLOCATE" => allocate(rest),
        "FREE" => Some(Event::Free(name_in(rest)?)),
        // No other word begins an event.
        _ => None,
    }
}
