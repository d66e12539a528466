//! Keys of a JSON object, each read by itself.
ghost use Rattle.std.specs.Prelude.{◌≡◌, Err, MatchResult, Ok};
ghost use Rattle.opc_import.specs.Fields.{digest_of};
ghost use Rattle.opc_names.specs.Spellings.{auths, classes, levels};
ghost use Rattle.opc_terms.specs.Modes.{modes};
ghost use Rattle.serde_json.specs.View.{view};
ghost use Rattle.opc_http_requests.specs.Keys.{
  console_or_every,
  digest_at,
  digest_in,
  digest_or_none,
  entry_at,
  flag_at,
  has_keys,
  member_at,
  members_count,
  missing,
  name_at,
  spelled_at,
  text_at,
  when_at,
};

use crate::body_key::BodyKey;
use crate::refusal::InvalidPart;
use opc_import::field::{read_digest, read_entry_id, read_name};
use opc_names::auth::Auth;
use opc_names::class::Class;
use opc_names::level::Level;
use opc_names::name::{ConsoleName, Name, NameKind};
use opc_terms::entry_id::EntryId;
use opc_terms::mode::Mode;
use serde_json::Value;

fn members_count(value: &Value) -> usize
    ensures { result ≡ members_count (view value.now) }
{
    match value.as_object() {
        Some(map) => map.len(),
        None => 0,
    }
}

// Checks that an object has this many keys.
pub(crate) fn has_keys(value: &Value, count: usize) -> Result<(), InvalidPart>
    ensures { result ≡ has_keys count (view value.now) }
{
    if members_count(value) == count {
        Ok(())
    } else {
        Err(InvalidPart::OtherKeys)
    }
}

// The invalid part of a value without this key.
fn missing(value: &Value, key: BodyKey) -> InvalidPart
    ensures { result ≡ missing key (view value.now) }
{
    if value.is_object() {
        InvalidPart::MissingKey(key)
    } else {
        InvalidPart::Object
    }
}

fn member_at(value: &Value, key: BodyKey) -> Result<&Value, InvalidPart>
    ensures { MatchResult result (λ found. member_at key (view value.now) ≡ Ok (view found.now))
        (λ part. member_at key (view value.now) ≡ Err part) }
{
    match value.get(key.text()) {
        Some(found) => Ok(found),
        None => Err(missing(value, key)),
    }
}

pub(crate) fn text_at(value: &Value, key: BodyKey) -> Result<&str, InvalidPart>
    ensures { MatchResult result (λ text. text_at key (view value.now) ≡ Ok text.now)
        (λ part. text_at key (view value.now) ≡ Err part) }
{
    match member_at(value, key)?.as_str() {
        Some(text) => Ok(text),
        None => Err(InvalidPart::Value(key)),
    }
}

pub(crate) fn flag_at(value: &Value, key: BodyKey) -> Result<bool, InvalidPart>
    ensures { result ≡ flag_at key (view value.now) }
{
    let found = member_at(value, key)?;
    found.as_bool().ok_or(InvalidPart::Value(key))
}

pub(crate) fn name_at<K: NameKind<N>, const N: usize>(
    value: &Value,
    key: BodyKey,
) -> Result<Name<K, N>, InvalidPart>
    ensures { result ≡ name_at K.rule key (view value.now) }
{
    let text = text_at(value, key)?;
    read_name(text).ok_or(InvalidPart::Value(key))
}

pub(crate) fn entry_at(value: &Value, key: BodyKey) -> Result<EntryId, InvalidPart>
    ensures { result ≡ entry_at key (view value.now) }
{
    let text = text_at(value, key)?;
    read_entry_id(text).ok_or(InvalidPart::Value(key))
}

pub(crate) fn class_at(value: &Value, key: BodyKey) -> Result<Class, InvalidPart>
    ensures { result ≡ spelled_at classes key (view value.now) }
{
    let text = text_at(value, key)?;
    Class::read(text).ok_or(InvalidPart::Value(key))
}

pub(crate) fn level_at(value: &Value, key: BodyKey) -> Result<Level, InvalidPart>
    ensures { result ≡ spelled_at levels key (view value.now) }
{
    let text = text_at(value, key)?;
    Level::read(text).ok_or(InvalidPart::Value(key))
}

pub(crate) fn auth_at(value: &Value, key: BodyKey) -> Result<Auth, InvalidPart>
    ensures { result ≡ spelled_at auths key (view value.now) }
{
    let text = text_at(value, key)?;
    Auth::read(text).ok_or(InvalidPart::Value(key))
}

pub(crate) fn mode_at(value: &Value, key: BodyKey) -> Result<Mode, InvalidPart>
    ensures { result ≡ spelled_at modes key (view value.now) }
{
    let text = text_at(value, key)?;
    Mode::read(text).ok_or(InvalidPart::Value(key))
}

fn digest_in(text: &str) -> Option<[u8; 32]>
    ensures { result ≡ digest_in (digest_of text.now) }
{
    read_digest(text)?
}

// A digest is 64 digits, or null for none.
fn digest_or_none(value: &Value) -> Option<Option<[u8; 32]>>
    ensures { result ≡ digest_or_none (view value.now) }
{
    if value.is_null() {
        return Some(None);
    }
    let digest = digest_in(value.as_str()?)?;
    Some(Some(digest))
}

// The only console that an entry is for, or null for every console.
fn console_or_every(value: &Value) -> Option<Option<ConsoleName>>
    ensures { result ≡ console_or_every (view value.now) }
{
    if value.is_null() {
        return Some(None);
    }
    let console = read_name(value.as_str()?)?;
    Some(Some(console))
}

pub(crate) fn digest_at(value: &Value, key: BodyKey) -> Result<Option<[u8; 32]>, InvalidPart>
    ensures { result ≡ digest_at key (view value.now) }
{
    let found = member_at(value, key)?;
    digest_or_none(found).ok_or(InvalidPart::Value(key))
}

pub(crate) fn when_at(value: &Value, key: BodyKey) -> Result<Option<ConsoleName>, InvalidPart>
    ensures { result ≡ when_at key (view value.now) }
{
    let found = member_at(value, key)?;
    console_or_every(found).ok_or(InvalidPart::Value(key))
}
