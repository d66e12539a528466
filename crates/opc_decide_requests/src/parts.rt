//! The parts of a request: objects, and texts in them.
ghost use Rattle.std.specs.Prelude.{◌≡◌, Err, MatchResult, Ok};
ghost use Rattle.std.specs.Option.{option_copied, option_map};
ghost use Rattle.serde_json.specs.View.{view};
ghost use Rattle.opc_decide_requests.specs.Parts.{
  being_object,
  member_of,
  object_at,
  text_at,
  text_if,
  text_in,
};

use crate::fault::RequestFault;
use crate::key::RequestKey;
use serde_json::Value;

/// The value of a key of an element or, if it has none, the one that all elements share.
pub(crate) fn member_of<'a>(
    element: &'a Value,
    shared: &'a Value,
    key: RequestKey,
) -> Option<&'a Value>
    ensures { option_map (λ found. view found.now) result ≡ member_of key (view element.now) (view shared.now) }
{
    match element.get(key.text()) {
        Some(found) => Some(found),
        None => shared.get(key.text()),
    }
}

/// Checks that the value of a key is an object.
pub fn being_object(value: &Value, key: RequestKey) -> Result<(), RequestFault>
    ensures { result ≡ being_object key (view value.now) }
{
    if value.is_object() {
        Ok(())
    } else {
        Err(RequestFault::Invalid(key))
    }
}

/// The object of a key of an element or, if it has none, the one that all elements share.
pub fn object_at<'a>(
    element: &'a Value,
    shared: &'a Value,
    key: RequestKey,
) -> Result<&'a Value, RequestFault>
    ensures { MatchResult result
        (λ found. object_at key (view element.now) (view shared.now) ≡ Ok (view found.now))
        (λ why. object_at key (view element.now) (view shared.now) ≡ Err why) }
{
    let Some(found) = member_of(element, shared, key) else {
        return Err(RequestFault::Missing(key));
    };
    being_object(found, key)?;
    Ok(found)
}

fn text_in(value: &Value, key: RequestKey) -> Result<&str, RequestFault>
    ensures { MatchResult result (λ text. text_in key (view value.now) ≡ Ok text.now)
        (λ why. text_in key (view value.now) ≡ Err why) }
{
    match value.as_str() {
        Some(text) => Ok(text),
        None => Err(RequestFault::Invalid(key)),
    }
}

/// The text of a key.
pub fn text_at(value: &Value, key: RequestKey) -> Result<&str, RequestFault>
    ensures { MatchResult result (λ text. text_at key (view value.now) ≡ Ok text.now)
        (λ why. text_at key (view value.now) ≡ Err why) }
{
    match value.get(key.text()) {
        Some(found) => text_in(found, key),
        None => Err(RequestFault::Missing(key)),
    }
}

/// The text of a key that may be missing.
pub fn text_if(value: &Value, key: RequestKey) -> Result<Option<&str>, RequestFault>
    ensures { MatchResult result (λ text. text_if key (view value.now) ≡ Ok (option_copied text))
        (λ why. text_if key (view value.now) ≡ Err why) }
{
    match value.get(key.text()) {
        Some(found) => Ok(Some(text_in(found, key)?)),
        None => Ok(None),
    }
}
