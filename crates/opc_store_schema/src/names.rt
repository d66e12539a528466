//! The names of the tables and of the indexes.
ghost use Rattle.std.specs.Prelude.{◌≡◌, ◌&&◌, is_some};
ghost use Rattle.std.specs.List.{list_any};
ghost use Rattle.sqlite_schema.specs.Names.{same_name};
ghost use Rattle.opc_store_schema.specs.Ours.{is_ours, has_our_name};

use sqlite_schema::names::same_name;
use sqlite_schema::schema::Schema;

const NAMES: [&str; 20] = [
    "meta",
    "classes",
    "consoles",
    "units",
    "devices",
    "replies",
    "answered",
    "log",
    "messages",
    "board",
    "account",
    "batches",
    "grp",
    "usr",
    "connects",
    "profiles",
    "entries",
    "consoles_by_user",
    "consoles_by_authority",
    "devices_by_unit",
];

fn is_among(name: &[u8], names: &[&str]) -> bool
    ensures { result ≡ list_any (λ n. same_name name.now n.now) names.now }
{
    names.iter().any(|other| same_name(name, other.as_bytes()))
}

fn is_ours(name: &[u8]) -> bool
    ensures { result ≡ is_ours name.now }
{
    is_among(name, &NAMES)
}

fn has_our_table(schema: &Schema) -> bool
    ensures { result ≡ list_any (λ t. is_ours t.name) schema.now.tables }
{
    schema
        .tables
        .as_slice()
        .iter()
        .any(|table| is_ours(table.name.as_slice()))
}

fn has_our_index(schema: &Schema) -> bool
    ensures { result ≡ list_any (λ i. is_ours i.name) schema.now.indexes }
{
    schema
        .indexes
        .as_slice()
        .iter()
        .any(|index| is_ours(index.name.as_slice()))
}

// What the database cannot read of a table, and the table itself, are listed among the views. A trigger cannot be
// distinguished from an index there, so it counts, too.
fn has_ours_unread(schema: &Schema) -> bool
    ensures { result ≡ list_any (λ v. is_some v.foreign && is_ours v.name) schema.now.views }
{
    schema.views.as_slice().iter().any(|view| view.foreign.is_some()
        && is_ours(view.name.as_slice()))
}

/// Whether a table or an index has the name of one of ours, in any case of its letters.
pub fn has_our_name(schema: &Schema) -> bool
    ensures { result ≡ has_our_name schema.now }
{
    has_our_table(schema) || has_our_index(schema) || has_ours_unread(schema)
}
