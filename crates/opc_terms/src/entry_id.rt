//! Whom an entry of an access list is for.
ghost use Rattle.std.specs.Prelude.{◌≡◌, ◌≤◌, List, ℕ, length, MatchResult, Some, None, codes};
ghost use Rattle.std.specs.Prelude.{nat_eq, refl};
ghost use Rattle.std.specs.Cmp.{partial_equiv_from_equiv};
ghost use Rattle.std.specs.Cmp.Lexicographic.{
  pointwise,
  slice_cmp,
  nat_list_eq_equiv,
  nat_list_cmp_total,
  texts_po,
  texts_ties,
};
ghost use Rattle.std.specs.Ordering.{nat_cmp};
ghost use Rattle.std.specs.Str.{IsAscii};
ghost use Rattle.opc_terms.specs.Entries.{entry_fault};

use opc_names::name::UserId;
use opc_names::rule::NameFault;
use std::cmp::Ordering;
use std::fmt;
use std::marker::Model;

/// Whom an entry is for: a user or a group, by name, or everyone, written `*` (RACF guide: the ID of a
/// PERMIT). Ids are in the order of their ASCII texts.
#[derive(Clone, Copy)]
pub struct EntryId {
    name: Option<UserId>,
}

impl Model for EntryId {
    ghost use Rattle.std.specs.Prelude.{◌≢◌, List, ℕ, Some, codes};
    ghost use Rattle.opc_terms.specs.Entries.{entry_text, entry_name, entry_name-entry_text};

    ghost Value = { List ℕ };

    ghost view = { λ e. entry_text e.name };

    ghost invariant = { λ e. e.name ≢ Some (codes "*") };

    ghost inverse = { λ text. record { name = entry_name text } };

    ghost inverse_ok = { λ e h i. record { name = entry_name-entry_text e.name h i } };
}

impl EntryId {
    /// The id of the entry for everyone.
    pub fn everyone() -> Self
        ensures { result ≡ codes "*" }
    {
        EntryId { name: None }
    }

    /// The id with this text, or the first fault that the text has as a name.
    pub fn read(text: &str) -> Result<Self, NameFault>
        ensures { MatchResult result
            (λ id. (entry_fault text.now ≡ None) × (id ≡ text.now))
            (λ fault. entry_fault text.now ≡ Some fault) }
    {
        if text == "*" {
            return Ok(EntryId { name: None });
        }
        let name = UserId::read(text)?;
        Ok(EntryId { name: Some(name) })
    }

    /// The text of the id, which reads back.
    pub fn text(&self) -> &str
        ensures text { result.now ≡ self.now }
        ensures reads_back { entry_fault self.now ≡ None }
        ensures ascii { IsAscii self.now }
        ensures short { length self.now ≤ 8 }
    {
        match &self.name {
            Some(name) => name.text(),
            None => "*",
        }
    }
}

impl From<UserId> for EntryId {
    ghost from_gives = { λ name id. id ≡ name };

    fn from(name: UserId) -> Self {
        EntryId { name: Some(name) }
    }
}

// Not derived: the model of an id is its text, `*` included.
impl PartialEq for EntryId {
    ghost eq = { λ s t. pointwise nat_eq s t };

    ghost laws = { partial_equiv_from_equiv nat_list_eq_equiv };

    fn eq(&self, other: &Self) -> bool {
        self.text() == other.text()
    }
}

impl Eq for EntryId {
    ghost laws = { nat_list_eq_equiv };
}

impl PartialOrd for EntryId {
    ghost partial_cmp = { λ s t. Some (slice_cmp nat_cmp s t) };

    ghost laws = { texts_po };

    fn partial_cmp(&self, other: &Self) -> Option<Ordering> {
        Some(self.cmp(other))
    }
}

impl Ord for EntryId {
    ghost cmp = { slice_cmp nat_cmp };

    ghost total = { nat_list_cmp_total };

    ghost matches_partial_cmp = { λ s t. refl };

    ghost matches_eq = { texts_ties };

    fn cmp(&self, other: &Self) -> Ordering {
        self.text().cmp(other.text())
    }
}

impl fmt::Display for EntryId {
    ghost use Rattle.std.specs.Prelude.{Some};

    ghost output = { λ id. Some id };

    fn fmt<W: fmt::Write>(&self, f: &mut fmt::Formatter<W>) -> fmt::Result {
        f.pad(self.text())
    }
}
