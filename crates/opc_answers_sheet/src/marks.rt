//! Marks of names, by which most users of whom an access list says nothing are passed over: one of 64 places for each
//! name, in one number for all.
ghost use Rattle.std.specs.Prelude.{◌≡◌, ◌<◌, map};
ghost use Rattle.opc_answers_sheet.specs.Marks.{
  marked,
  marks_in,
  marks_of,
  meet,
  place_after,
  stirred,
  with_mark,
};

use opc_answers::members::UserWithGroups;
use opc_names::name::GroupName;
use opc_policy_members::entry::Entry;

/// The place after one more byte of a name.
fn stirred(place: u32, byte: u8) -> u32
    requires { place < 64 }
    ensures value { result ≡ stirred place byte }
    ensures within { result < 64 }
{
    (place * 37 + u32::from(byte)) % 64
}

/// The place of a name, by its bytes.
fn place_of(name: &str) -> u32
    ensures value { result ≡ place_after 0 name.now }
    ensures within { result < 64 }
{
    let bytes = name.as_bytes();
    let mut place = 0;
    for byte in bytes {
        place = stirred(place, *byte);
    }
    place
}

fn with_mark(marks: u64, name: &str) -> u64
    ensures { result ≡ with_mark marks name.now }
{
    marks | 1 << place_of(name)
}

fn with_groups(marks: u64, groups: &[GroupName]) -> u64
    ensures { result ≡ marked marks groups.now }
{
    let mut all = marks;
    for group in groups {
        all = with_mark(all, group.text());
    }
    all
}

/// The marks of a user and of the user's groups.
pub(crate) fn marks_of(member: &UserWithGroups) -> u64
    ensures { result ≡ marks_of member.now }
{
    with_groups(
        with_mark(0, member.user.id.text()),
        member.groups.as_slice(),
    )
}

/// The marks of the names in an access list.
pub(crate) fn marks_in(entries: &[Entry]) -> u64
    ensures { result ≡ marks_in entries.now }
{
    let mut marks = 0;
    for entry in entries {
        marks = with_mark(marks, entry.id.text());
    }
    marks
}

/// Whether marks share a place.
pub(crate) fn meet(marks: u64, other: u64) -> bool
    ensures { result ≡ meet marks other }
{
    marks & other != 0
}
