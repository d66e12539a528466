//! What a pattern covers, and where it stands in the order of patterns.
ghost use Rattle.std.specs.Prelude.{◌≡◌, ◌≤◌, ◌↔◌, IsTrue, false, length};
ghost use Rattle.opc_names.specs.Names.{IsPattern};
ghost use Rattle.opc_names.specs.Order.{Before, sort_key, head};
ghost use Rattle.opc_names.specs.Patterns.{tokens, CoversText};
ghost use Rattle.opc_names.specs.Walk.{BeforeAfter, sort_key_after};

use crate::bytes::Bytes;
use crate::cover;
use crate::name::{Pattern, Resource};
use crate::token::{first_token, head_len};
use arrayvec::ArrayVec;

/// The sort key of a pattern: at most 40 bytes, whose order is that of the patterns.
pub type SortKey = Bytes<40>;

impl Pattern {
    /// Whether the pattern covers a resource.
    pub fn covers(&self, resource: &Resource) -> bool
        ensures { IsTrue result ↔ CoversText self.now resource.now }
    {
        let (pattern, name) = (self.text(), resource.text());
        // What a pattern covers begins with its head (law `heads_are_prefixes`), so one comparison of bytes settles
        // most patterns that do not cover the name.
        name.as_bytes().starts_with(self.head().as_bytes()) && cover::covers(pattern, name)
    }

    /// Whether the pattern comes before another one.
    pub fn before(&self, other: &Pattern) -> bool
        ensures { IsTrue result ↔ Before (tokens self.now) (tokens other.now) }
    {
        before_after(false, self.text().as_bytes(), other.text().as_bytes())
    }

    /// Bytes whose order is that of the patterns.
    pub fn sort_key(&self) -> SortKey
        ensures key { result ≡ sort_key self.now }
        ensures short { length result ≤ 40 }
        ensures valid { IsPattern self.now }
    {
        SortKey::copied(key_bytes(self.text().as_bytes()).as_slice())
    }

    /// What every resource that the pattern covers begins with.
    pub fn head(&self) -> &str
        ensures { result.now ≡ head (tokens self.now) }
    {
        let text = self.text();
        &text[..head_len(text.as_bytes())]
    }
}

/// The bytes of a sort key: one for each token, and one more after a last `*` or `**`.
fn key_bytes(text: &[u8]) -> ArrayVec<u8, 40>
    requires { length text.now ≤ 39 }
    ensures key { result.items ≡ sort_key_after false (tokens text.now) }
    ensures short { length result.items ≤ 40 }
{
    let mut bytes = ArrayVec::new();
    let mut opened = false;
    let mut left = text;
    while let Some((token, rest)) = first_token(left) {
        bytes.push(token.key_byte());
        opened = token.is_open();
        left = rest;
    }
    if opened {
        bytes.push(0xff);
    }
    bytes
}

fn before_after(opened: bool, ours: &[u8], theirs: &[u8]) -> bool
    ensures { IsTrue result ↔ BeforeAfter opened (tokens ours.now) (tokens theirs.now) }
{
    match (first_token(ours), first_token(theirs)) {
        (None, None) => false,
        (None, Some(_)) => !opened,
        (Some(_), None) => opened,
        (Some((token, ours)), Some((other, theirs))) => {
            if token == other {
                before_after(token.is_open(), ours, theirs)
            } else {
                token.is_earlier(other)
            }
        }
    }
}
