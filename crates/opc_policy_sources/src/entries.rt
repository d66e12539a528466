//! The entries of an access list, by id and condition.
ghost use Rattle.std.specs.Prelude.{◌≡◌, MatchResult, Some, None, find, position};
ghost use Rattle.std.specs.Cmp.Lexicographic.{slice_cmp};
ghost use Rattle.std.specs.Option.{option_cmp, option_copied};
ghost use Rattle.std.specs.Ordering.{nat_cmp, ordering_then};
ghost use Rattle.opc_policy_members.specs.Access.{AreInOrder, entry_level, is_for};

use opc_names::level::Level;
use opc_names::name::ConsoleName;
use opc_policy_members::entries::Entries;
use opc_policy_members::entry::Entry;
use std::cmp::Ordering;

/// The order of an entry and that for an id and a condition: by the ids, and then by the consoles.
fn place_cmp(entry: &Entry, when: Option<&ConsoleName>, id: &str) -> Ordering
    ensures { result ≡ ordering_then (slice_cmp nat_cmp entry.now.id id.now)
        (option_cmp (slice_cmp nat_cmp) entry.now.when (option_copied when.entry)) }
{
    entry.id.text().cmp(id).then(entry.when.as_ref().cmp(&when))
}

/// The place of the entry for an id and a condition, if there is one.
fn place_of(entries: &[Entry], when: Option<&ConsoleName>, id: &str) -> Result<usize, usize>
    requires { AreInOrder entries.now }
    ensures { MatchResult result
        (λ at. position (is_for (option_copied when.entry) id.now) entries.now ≡ Some at)
        (λ _. find (is_for (option_copied when.entry) id.now) entries.now ≡ None) }
{
    entries.binary_search_by(|entry| place_cmp(entry, when, id))
}

/// The level of the entry for an id and a condition.
fn level_among(entries: &[Entry], when: Option<&ConsoleName>, id: &str) -> Option<Level>
    requires { AreInOrder entries.now }
    ensures { result ≡ entry_level entries.now (option_copied when.entry) id.now }
{
    match place_of(entries, when, id) {
        Ok(at) => Some(entries[at].level),
        Err(_) => None,
    }
}

/// The same. The access list may be long, and is in order.
pub(crate) fn level_at(entries: &Entries, when: Option<&ConsoleName>, id: &str) -> Option<Level>
    ensures { result ≡ entry_level entries.now (option_copied when.entry) id.now }
{
    level_among(entries.as_slice(), when, id)
}
