//! Whether a profile is the same on both sides.
ghost use Rattle.std.specs.Prelude.{◌≡◌, true};
ghost use Rattle.std.specs.Option.{option_copied};

use opc_policy_members::entry::Entry;
use opc_policy_members::profile::Profile;

fn is_same_entry(one: &Entry, other: &Entry) -> bool
    ensures { result ≡ true → one.now ≡ other.now }
{
    one.id == other.id && one.when == other.when && one.level == other.level
}

/// Whether both are the same entries.
fn are_same_entries(one: &[Entry], other: &[Entry]) -> bool
    ensures { result ≡ true → one.now ≡ other.now }
{
    let mut left = other;
    for entry in one {
        let [first, more @ ..] = left else {
            return false;
        };
        if !is_same_entry(entry, first) {
            return false;
        }
        left = more;
    }
    left.is_empty()
}

/// Whether all but the entries is the same.
fn is_same_head(one: &Profile, other: &Profile) -> bool
    ensures class { result ≡ true → one.now.class ≡ other.now.class }
    ensures pattern { result ≡ true → one.now.pattern ≡ other.now.pattern }
    ensures owner { result ≡ true → one.now.owner ≡ other.now.owner }
    ensures uacc { result ≡ true → one.now.uacc ≡ other.now.uacc }
    ensures warning { result ≡ true → one.now.warning ≡ other.now.warning }
{
    if one.class != other.class || one.pattern != other.pattern {
        return false;
    }
    one.owner == other.owner && one.uacc == other.uacc && one.warning == other.warning
}

fn is_same_profile(one: &Profile, other: &Profile) -> bool
    ensures { result ≡ true → one.now ≡ other.now }
{
    is_same_head(one, other) && are_same_entries(one.entries.as_slice(), other.entries.as_slice())
}

/// Whether one and the same profile decides on both sides, or none does.
pub(crate) fn is_unchanged(one: Option<&Profile>, other: Option<&Profile>) -> bool
    ensures { result ≡ true → option_copied one.entry ≡ option_copied other.entry }
{
    match (one, other) {
        (Some(one), Some(other)) => is_same_profile(one, other),
        (None, None) => true,
        // A profile decides on one side alone.
        _ => false,
    }
}
