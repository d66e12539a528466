//! The names of the product: one type, with the kind and the size as parameters.
ghost use Rattle.std.specs.Prelude.{◌≡◌, ◌≤◌, List, ℕ, length, MatchResult, Some, None};
ghost use Rattle.std.specs.Prelude.{nat_eq, refl};
ghost use Rattle.std.specs.Cmp.{partial_equiv_from_equiv};
ghost use Rattle.std.specs.Cmp.Lexicographic.{
  pointwise,
  slice_cmp,
  nat_list_eq_equiv,
  nat_list_cmp_total,
  texts_po,
  texts_ties,
};
ghost use Rattle.std.specs.Cmp.Rules.{hashing};
ghost use Rattle.std.specs.Hash as fed;
ghost use Rattle.std.specs.Ordering.{nat_cmp};
ghost use Rattle.std.specs.Str.{IsAscii};
ghost use Rattle.std.proofs.Common.{lit≤, rules};
ghost use Rattle.opc_names.specs.Names.{
  name_fault,
  user_rule,
  unit_rule,
  group_rule,
  console_rule,
  volume_rule,
  device_rule,
  resource_rule,
  pattern_rule,
};
ghost use Rattle.opc_names.specs.declared.rule.NameRule.{NameRule as Rule};

use crate::bytes::Bytes;
use crate::rule::{Alphabet, NameFault, NameRule};
use std::cmp::Ordering;
use std::hash::{Hash, Hasher};
use std::marker::{Model, PhantomData};
use std::{fmt, str};

/// A kind of name that fits in `N` bytes: a rule of least and most characters and an alphabet, so that one type serves
/// all eight kinds.
pub trait NameKind<const N: usize> {
    ghost rule: { Rule };

    fn rule() -> NameRule
        ensures { result ≡ rule };

    ghost short: { rule.most ≤ N };

    ghost small: { N ≤ 39 };
}

/// A name of one kind, kept in place. Names and patterns compare by their ASCII texts, as a Rust programmer expects.
/// `Pattern::before` is the order by precedence; to sort by it, sort by `sort_key`.
#[derive_where(Clone, Copy)]
pub struct Name<K: NameKind<N>, const N: usize> {
    bytes: Bytes<N>,
    kind: PhantomData<K>,
}

impl<K: NameKind<N>, const N: usize> Model for Name<K, N> {
    ghost use Rattle.std.specs.Prelude.{◌≡◌, List, ℕ, None};
    ghost use Rattle.opc_names.specs.Names.{name_fault};

    ghost Value = { List ℕ };

    ghost view = { λ n. n.bytes };

    ghost invariant = { λ n. name_fault K.rule n.bytes ≡ None };

    ghost inverse = { λ text. record { bytes = text; kind = record {} } };
}

impl<K: NameKind<N>, const N: usize> Name<K, N> {
    /// The name with this text, or the first fault that the text has.
    pub fn read(text: &str) -> Result<Self, NameFault>
        ensures { MatchResult result
            (λ name. (name_fault K.rule text.now ≡ None) × (name ≡ text.now))
            (λ fault. name_fault K.rule text.now ≡ Some fault) }
    {
        match K::rule().fault(text) {
            Some(fault) => Err(fault),
            None => Ok(Self::of(text)),
        }
    }

    /// The name with a text that is known to be one.
    pub(crate) fn of(text: &str) -> Self
        requires { name_fault K.rule text.now ≡ None }
        ensures { result ≡ text.now }
    {
        Name {
            bytes: Bytes::copied(text.as_bytes()),
            kind: PhantomData,
        }
    }

    /// The text of the name, which reads back.
    pub fn text(&self) -> &str
        ensures text { result.now ≡ self.now }
        ensures reads_back { name_fault K.rule self.now ≡ None }
        ensures ascii { IsAscii self.now }
        ensures short { length self.now ≤ N }
    {
        // The one call of `from_utf8_unchecked` in the product. The name's invariant states that the bytes are ASCII,
        // so they are a text. A test at each call would be 8 % of the instructions of `explain`.
        unsafe { str::from_utf8_unchecked(self.bytes.as_slice()) }
    }

    /// The same text as a name of a wider kind: each name of this kind is also one of that kind, as each console name
    /// is a valid user id.
    pub fn as_kind<L: NameKind<M>, const M: usize>(&self) -> Name<L, M>
        requires wider { (text : List ℕ) → name_fault K.rule text ≡ None → name_fault L.rule text ≡ None }
        ensures { result ≡ self.now }
    {
        Name::of(self.text())
    }
}

impl<K: NameKind<N>, const N: usize> PartialEq for Name<K, N> {
    ghost eq = { λ s t. pointwise nat_eq s t };

    ghost laws = { partial_equiv_from_equiv nat_list_eq_equiv };

    fn eq(&self, other: &Self) -> bool {
        self.bytes == other.bytes
    }
}

impl<K: NameKind<N>, const N: usize> Eq for Name<K, N> {
    ghost laws = { nat_list_eq_equiv };
}

impl<K: NameKind<N>, const N: usize> PartialOrd for Name<K, N> {
    ghost partial_cmp = { λ s t. Some (slice_cmp nat_cmp s t) };

    ghost laws = { texts_po };

    fn partial_cmp(&self, other: &Self) -> Option<Ordering> {
        Some(self.cmp(other))
    }
}

impl<K: NameKind<N>, const N: usize> Ord for Name<K, N> {
    ghost cmp = { slice_cmp nat_cmp };

    ghost total = { nat_list_cmp_total };

    ghost matches_partial_cmp = { λ s t. refl };

    ghost matches_eq = { texts_ties };

    fn cmp(&self, other: &Self) -> Ordering {
        self.bytes.cmp(&other.bytes)
    }
}

impl<K: NameKind<N>, const N: usize> Hash for Name<K, N> {
    ghost hash_input = { fed.str };

    ghost respects_eq = { Prim.search (hashing, rules) };

    fn hash<H: Hasher>(&self, state: &mut H) {
        self.text().hash(state);
    }
}

impl<K: NameKind<N>, const N: usize> fmt::Debug for Name<K, N> {
    fn fmt<W: fmt::Write>(&self, f: &mut fmt::Formatter<W>) -> fmt::Result {
        fmt::Debug::fmt(self.text(), f)
    }
}

impl<K: NameKind<N>, const N: usize> fmt::Display for Name<K, N> {
    ghost output = { λ name. Some name };

    fn fmt<W: fmt::Write>(&self, f: &mut fmt::Formatter<W>) -> fmt::Result {
        f.pad(self.text())
    }
}

/// The kind of a user's id.
pub struct UserKind;

impl NameKind<8> for UserKind {
    ghost rule = { user_rule };

    ghost short = { lit≤ tt };

    ghost small = { lit≤ tt };

    fn rule() -> NameRule {
        NameRule {
            least: 1,
            most: 8,
            alphabet: Alphabet::NameCharacters,
        }
    }
}

/// The kind of a unit's name: a job, a started task or a logged-on user.
pub struct UnitNameKind;

impl NameKind<8> for UnitNameKind {
    ghost rule = { unit_rule };

    ghost short = { lit≤ tt };

    ghost small = { lit≤ tt };

    fn rule() -> NameRule {
        NameRule {
            least: 1,
            most: 8,
            alphabet: Alphabet::NameCharacters,
        }
    }
}

/// The kind of a group's name.
pub struct GroupKind;

impl NameKind<8> for GroupKind {
    ghost rule = { group_rule };

    ghost short = { lit≤ tt };

    ghost small = { lit≤ tt };

    fn rule() -> NameRule {
        NameRule {
            least: 1,
            most: 8,
            alphabet: Alphabet::NoDigitFirst,
        }
    }
}

/// The kind of a console's name.
pub struct ConsoleKind;

impl NameKind<8> for ConsoleKind {
    ghost rule = { console_rule };

    ghost short = { lit≤ tt };

    ghost small = { lit≤ tt };

    fn rule() -> NameRule {
        NameRule {
            least: 2,
            most: 8,
            alphabet: Alphabet::NoDigitFirst,
        }
    }
}

/// The kind of a volume's serial.
pub struct VolumeKind;

impl NameKind<8> for VolumeKind {
    ghost rule = { volume_rule };

    ghost short = { lit≤ tt };

    ghost small = { lit≤ tt };

    fn rule() -> NameRule {
        NameRule {
            least: 1,
            most: 6,
            alphabet: Alphabet::NameCharacters,
        }
    }
}

/// The kind of a device's number.
pub struct DeviceKind;

impl NameKind<8> for DeviceKind {
    ghost rule = { device_rule };

    ghost short = { lit≤ tt };

    ghost small = { lit≤ tt };

    fn rule() -> NameRule {
        NameRule {
            least: 4,
            most: 4,
            alphabet: Alphabet::Hexadecimal,
        }
    }
}

/// The kind of a resource's name.
pub struct ResourceKind;

impl NameKind<39> for ResourceKind {
    ghost rule = { resource_rule };

    ghost short = { lit≤ tt };

    ghost small = { lit≤ tt };

    fn rule() -> NameRule {
        NameRule {
            least: 1,
            most: 39,
            alphabet: Alphabet::Qualified,
        }
    }
}

/// The kind of a pattern of resource names, the name of a profile.
pub struct PatternKind;

impl NameKind<39> for PatternKind {
    ghost rule = { pattern_rule };

    ghost short = { lit≤ tt };

    ghost small = { lit≤ tt };

    fn rule() -> NameRule {
        NameRule {
            least: 1,
            most: 39,
            alphabet: Alphabet::Generic,
        }
    }
}

/// A user: 1 to 8 name characters.
pub type UserId = Name<UserKind, 8>;

/// A unit of work: 1 to 8 name characters.
pub type UnitName = Name<UnitNameKind, 8>;

/// A group of users: 1 to 8 name characters, the first not a digit.
pub type GroupName = Name<GroupKind, 8>;

/// A console: 2 to 8 name characters, the first not a digit.
pub type ConsoleName = Name<ConsoleKind, 8>;

/// A volume: 1 to 6 name characters.
pub type Volume = Name<VolumeKind, 8>;

/// A device: four hexadecimal digits in upper case.
pub type Device = Name<DeviceKind, 8>;

/// A resource: 1 to 39 characters, qualifiers of name characters separated by single periods.
pub type Resource = Name<ResourceKind, 39>;

/// A pattern of resources: as a resource, with the generic characters (RACF guide: generic profile names).
pub type Pattern = Name<PatternKind, 39>;
