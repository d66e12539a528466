//! Where rows stand in an export.
ghost use Rattle.std.specs.Prelude.{◌≡◌, ◌≤◌, length};
ghost use Rattle.opc_answers_diff.specs.RowChanges.{place_of};

use opc_names::bytes::Bytes;
use opc_names::class::Class;
use opc_names::name::{ConsoleName, GroupName, UserId};
use opc_names::pattern::SortKey;
use opc_policy_members::row::Row;

/// Where a row stands in an export: by its kind and by what it defines.
#[derive(Clone, Copy, PartialEq, Eq, PartialOrd, Ord)]
pub enum RowPlace {
    Class(Class),
    Group(GroupName),
    User(UserId),
    Connect(UserId, GroupName),
    Console(ConsoleName),
    Profile(Class, SortKey),
    Permit(Class, SortKey, Bytes<8>, Option<ConsoleName>),
}

/// The bytes of the id of an entry.
fn id_bytes(text: &str) -> Bytes<8>
    requires { length text.now ≤ 8 }
    ensures { result ≡ text.now }
{
    Bytes::copied(text.as_bytes())
}

/// Where a row stands.
pub(crate) fn place_of(row: &Row) -> RowPlace
    ensures { result ≡ place_of row.now }
{
    match *row {
        Row::Class { class, .. } => RowPlace::Class(class),
        Row::Group { name } => RowPlace::Group(name),
        Row::User(user) => RowPlace::User(user.id),
        Row::Connect { user, group } => RowPlace::Connect(user, group),
        Row::Console { name, .. } => RowPlace::Console(name),
        Row::Profile { class, pattern, .. } => RowPlace::Profile(class, pattern.sort_key()),
        Row::Permit {
            class,
            pattern,
            id,
            when,
            ..
        } => RowPlace::Permit(class, pattern.sort_key(), id_bytes(id.text()), when),
    }
}
