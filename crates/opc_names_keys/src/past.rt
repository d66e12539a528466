//! Where a text differs from a sort key, and from which later keys it differs as well.
ghost use Rattle.std.specs.Prelude.{◌≡◌, ◌<◌, ◌++◌, ◌∷◌, [], IfSome, None, false, length, take, true};
ghost use Rattle.std.specs.Cmp.Lexicographic.{slice_cmp};
ghost use Rattle.std.specs.Ordering.{is_lt, nat_cmp};
ghost use Rattle.opc_names_keys.specs.Follows.{FollowsNone, byte_past, follows, stands_for};

use arrayvec::ArrayVec;
use opc_names::bytes::Bytes;
use opc_names::name::Resource;
use opc_names::pattern::SortKey;

/// The byte of `%` in a sort key. Those of `*` and `**` are greater, those of characters less.
const PERCENT: u8 = 128;

/// Whether a byte of a sort key up to that of `%` stands for a character.
fn stands_for(byte: u8, character: u8) -> bool
    ensures { result ≡ stands_for byte character }
{
    if byte == PERCENT {
        character != b'.'
    } else {
        byte == character
    }
}

/// Of the bytes after one that does not stand for a character, the first that stands for it or is one of a `*`.
fn byte_past(byte: u8, character: u8) -> u8
    ensures { result ≡ byte_past byte character }
{
    if byte < character && character < PERCENT {
        character
    } else if byte < PERCENT {
        PERCENT
    } else {
        PERCENT + 1
    }
}

/// Where a text differs from a sort key, if it does so before the key's first `*` or `**`: the place in the key, and a
/// byte. The text differs from each later key as well, up to the one with this byte there.
fn obstacle(key: &[u8], text: &[u8]) -> Option<(usize, u8)>
    ensures none { result ≡ None → follows key.now text.now ≡ true }
    ensures within { IfSome result (λ found. found.0 < length key.now) }
    ensures itself { IfSome result (λ _. follows key.now text.now ≡ false) }
    ensures further { IfSome result (λ found.
        is_lt (slice_cmp nat_cmp key.now (take found.0 key.now ++ found.1 ∷ [])) ≡ true) }
    ensures later { IfSome result (λ found. FollowsNone text.now key.now (take found.0 key.now ++ found.1 ∷ [])) }
{
    let [byte, key @ ..] = key else {
        return None;
    };
    if *byte > PERCENT {
        return None;
    }
    let [character, text @ ..] = text else {
        return None;
    };
    if !stands_for(*byte, *character) {
        return Some((0, byte_past(*byte, *character)));
    }
    let (at, next) = obstacle(key, text)?;
    Some((at + 1, next))
}

/// These bytes and one more.
fn joined(common: &[u8], next: u8) -> Bytes<40>
    requires { length common.now < 40 }
    ensures { result ≡ common.now ++ next ∷ [] }
{
    let mut bytes = ArrayVec::<u8, 40>::new();
    for byte in common {
        bytes.push(*byte);
    }
    bytes.push(next);
    Bytes::copied(bytes.as_slice())
}

/// A name with a period after it, as it follows the sort keys of the patterns that cover it (law
/// `covered_names_follow`).
pub fn with_period(name: &Resource) -> Bytes<40>
    ensures { result ≡ name.now ++ 46 ∷ [] }
{
    joined(name.text().as_bytes(), b'.')
}

/// If a text differs from a sort key before the key's first `*` or `**`: the first later key that it may not differ
/// from.
pub fn key_past(key: &SortKey, text: &[u8]) -> Option<SortKey>
    ensures none { result ≡ None → follows key.now text.now ≡ true }
    ensures itself { IfSome result (λ _. follows key.now text.now ≡ false) }
    ensures further { IfSome result (λ past. is_lt (slice_cmp nat_cmp key.now past) ≡ true) }
    ensures later { IfSome result (λ past. FollowsNone text.now key.now past) }
{
    let key = key.as_slice();
    let (at, next) = obstacle(key, text)?;
    Some(joined(&key[..at], next))
}
