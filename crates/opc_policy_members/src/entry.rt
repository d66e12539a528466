//! Entries of an access list.
ghost use Rattle.std.specs.Prelude.{◌≡◌};

use opc_names::level::Level;
use opc_names::name::ConsoleName;
use opc_terms::entry_id::EntryId;
use std::cmp::Ordering;

/// One entry of an access list: at every console, or at one console alone.
#[derive(Clone, Copy)]
pub struct Entry {
    pub id: EntryId,
    pub when: Option<ConsoleName>,
    pub level: Level,
}

impl Entry {
    ghost use Rattle.std.specs.Cmp.Lexicographic.{slice_cmp};
    ghost use Rattle.std.specs.Option.{option_copied, option_cmp};
    ghost use Rattle.std.specs.Ordering.{nat_cmp, ordering_then};
    ghost use Rattle.opc_policy_members.specs.Access.{entry_cmp};

    /// The order of ids, and then that of consoles.
    pub(crate) fn place_cmp(&self, other: &Entry) -> Ordering
        ensures { result ≡ entry_cmp self.now other.now }
    {
        self.id.cmp(&other.id).then(self.when.cmp(&other.when))
    }

    /// Where it stands relative to the entry for an id and this console alone or, if none is given, every console.
    pub(crate) fn place_cmp_for(&self, when: Option<&ConsoleName>, id: &str) -> Ordering
        ensures { result ≡ ordering_then (slice_cmp nat_cmp self.now.id id.now)
            (option_cmp (slice_cmp nat_cmp) self.now.when (option_copied when.entry)) }
    {
        self.id.text().cmp(id).then(self.when.as_ref().cmp(&when))
    }
}
