//! Fields of a record, each read by itself.
ghost use Rattle.std.specs.Prelude.{◌≡◌};
ghost use Rattle.std.specs.List.{list_all};
ghost use Rattle.opc_names.specs.Spellings.{lookup};
ghost use Rattle.opc_import.specs.Fields.{
  activities,
  digest_of,
  entry_id_of,
  flags_of,
  is_lower_digit,
  name_of,
  restrictions,
  user_flags,
  warnings,
  when_of,
};

use opc_names::name::{ConsoleName, Name, NameKind};
use opc_terms::entry_id::EntryId;

/// What a user is.
#[derive(Clone, Copy)]
pub(crate) struct UserFlags {
    pub special: bool,
    pub auditor: bool,
    pub revoked: bool,
}

/// The name of a kind that a field is, if it is one.
pub fn read_name<K: NameKind<N>, const N: usize>(text: &str) -> Option<Name<K, N>>
    ensures { result ≡ name_of K.rule text.now }
{
    Name::read(text).ok()
}

/// The user, the group or `*` that a field is, if it is one.
pub fn read_entry_id(text: &str) -> Option<EntryId>
    ensures { result ≡ entry_id_of text.now }
{
    EntryId::read(text).ok()
}

// Whether a class is active.
pub(crate) fn read_activity(text: &str) -> Option<bool>
    ensures { result ≡ lookup activities text.now }
{
    match text {
        "ACTIVE" => Some(true),
        "INACTIVE" => Some(false),
        // No other text is one of the two.
        _ => None,
    }
}

// Whether a profile has a warning.
pub(crate) fn read_warning(text: &str) -> Option<bool>
    ensures { result ≡ lookup warnings text.now }
{
    match text {
        "" => Some(false),
        "W" => Some(true),
        // No other text is one of the two.
        _ => None,
    }
}

// Whether a user is RESTRICTED.
pub(crate) fn read_restriction(text: &str) -> Option<bool>
    ensures { result ≡ lookup restrictions text.now }
{
    match text {
        "" => Some(false),
        "Y" => Some(true),
        // No other text is one of the two.
        _ => None,
    }
}

// The only console that an entry is for; with an empty text it is for every console.
pub(crate) fn read_when(text: &str) -> Option<Option<ConsoleName>>
    ensures { result ≡ when_of text.now }
{
    if text.is_empty() {
        return Some(None);
    }
    let console = read_name(text)?;
    Some(Some(console))
}

fn flags_of(special: bool, auditor: bool, revoked: bool) -> UserFlags
    ensures { result ≡ flags_of special auditor revoked }
{
    UserFlags {
        special,
        auditor,
        revoked,
    }
}

pub(crate) fn read_user_flags(text: &str) -> Option<UserFlags>
    ensures { result ≡ lookup user_flags text.now }
{
    match text {
        "" => Some(flags_of(false, false, false)),
        "S" => Some(flags_of(true, false, false)),
        "A" => Some(flags_of(false, true, false)),
        "R" => Some(flags_of(false, false, true)),
        "SA" => Some(flags_of(true, true, false)),
        "SR" => Some(flags_of(true, false, true)),
        "AR" => Some(flags_of(false, true, true)),
        "SAR" => Some(flags_of(true, true, true)),
        // Flags in another order, or twice, are refused: each user has one text.
        _ => None,
    }
}

fn is_lower_digit(c: u8) -> bool
    ensures { result ≡ is_lower_digit c }
{
    c.is_ascii_digit() || (b'a' <= c && c <= b'f')
}

fn are_lower_digits(text: &str) -> bool
    ensures { result ≡ list_all is_lower_digit text.now }
{
    text.bytes().all(|c| is_lower_digit(c))
}

/// The SHA-256 that a field of 64 hexadecimal digits is; an empty field is none.
pub fn read_digest(text: &str) -> Option<Option<[u8; 32]>>
    ensures { result ≡ digest_of text.now }
{
    if text.is_empty() {
        return Some(None);
    }
    if !are_lower_digits(text) {
        return None;
    }
    let mut bytes = [0; 32];
    match hex::decode_to_slice(text, &mut bytes) {
        Ok(()) => Some(Some(bytes)),
        Err(_) => None,
    }
}
