//! The table of access lists.
ghost use Rattle.std.specs.Prelude.{◌≡◌, ◌≢◌, [], ◌∷◌, ◌++◌, List, Option, ℕ, IfOk, OnOk, map, take, false, Some};
ghost use Rattle.std.specs.List.{AllByRecursion, list_any};
ghost use Rattle.std.specs.Option.{option_copied};
ghost use Rattle.sqlite.specs.Held.{state};
ghost use Rattle.sqlite.specs.State.{HasCleanDisk};
ghost use Rattle.opc_store_sql.specs.Steps.{Stays, Looks};
ghost use Rattle.opc_policy_members.specs.Profiles.{of_class, with_permission};
ghost use Rattle.opc_state.specs.Changes.{with_profiles};
ghost use Rattle.opc_state.specs.Loads.{access_list, has_entry, level_for};
ghost use Rattle.opc_state.specs.Members.{without_permission};
ghost use Rattle.opc_store_schema.specs.Asked.{Finds, Makes};
ghost use Rattle.opc_store_schema.specs.Contents.{Contents};
ghost use Rattle.opc_store_schema.specs.Made.{IsMade};
ghost use Rattle.opc_store_schema.specs.Represented.{entry_row, or_empty};
ghost use Rattle.opc_store_schema.specs.State.{IsNamed, IsAccessList};
ghost use Rattle.opc_store_profiles.specs.Lists.{HaveLists};
ghost use Rattle.sqlite.specs.Order.{column};
ghost use Rattle.sqlite.specs.declared.types.Value.TheVariants.{Text};
ghost use Rattle.opc_names.specs.declared.class.Class.{Class as TheClass};
ghost use Rattle.opc_policy_members.specs.declared.entry.Entry.{Entry as TheEntry};

use crate::levels::{level_in, rank_of};
use opc_names::class::Class;
use opc_names::level::Level;
use opc_names::name::{ConsoleName, Pattern, UserId};
use opc_policy_members::entries::Entries;
use opc_policy_members::entry::Entry;
use opc_store_schema::columns::text_at;
use opc_store_schema::faults::unreadable;
use opc_store_schema::queries::read;
use opc_store_schema::there::is_there_on;
use opc_store_sql::{put, run};
use opc_terms::entry_id::EntryId;
use opc_terms::store_fault::StoreFault;
use sqlite::{Alter, Connection, Error, Row, Transaction, params};
use std::alloc::Global;

/// The console at which an entry counts, as its column holds it: an empty text if it counts at every console.
fn console_text(when: Option<&ConsoleName>) -> &str
    ensures text { result.now ≡ or_empty (option_copied when.entry) }
    ensures named { option_copied when.entry ≢ Some [] }
{
    match when {
        Some(name) => name.text(),
        None => "",
    }
}

fn insert_entry<S: Alter>(
    tx: &mut Transaction<'_, S>,
    class: Class,
    pattern: &Pattern,
    entry: &Entry,
) -> Result<(), Error>
    ensures same_reference { tx.new.conn.ghost_name ≡ tx.old.conn.ghost_name }
    ensures stays { Stays S.Store tx.old.conn.now tx.new.conn.now result }
    ensures named { OnOk result (IsNamed entry.now) }
    ensures added { HasCleanDisk (state S.Store tx.new.conn.now)
        → OnOk result ((c : Contents) → IsMade c (state S.Store tx.old.conn.now).now
        → IsMade (record c { entries = entry_row class pattern.now entry.now ∷ c.entries })
        (state S.Store tx.new.conn.now).now) }
{
    run(
        tx,
        "INSERT INTO entries VALUES (?1, ?2, ?3, ?4, ?5)",
        params![
            class.text(),
            pattern.text(),
            entry.id.text(),
            console_text(entry.when.as_ref()),
            rank_of(entry.level)
        ],
    )?;
    Ok(())
}

pub(crate) fn insert_entries<S: Alter>(
    tx: &mut Transaction<'_, S>,
    class: Class,
    pattern: &Pattern,
    entries: &[Entry],
) -> Result<(), Error>
    ensures same_reference { tx.new.conn.ghost_name ≡ tx.old.conn.ghost_name }
    ensures stays { Stays S.Store tx.old.conn.now tx.new.conn.now result }
    ensures named { OnOk result (AllByRecursion IsNamed entries.now) }
    ensures added { HasCleanDisk (state S.Store tx.new.conn.now)
        → OnOk result ((c : Contents) → IsMade c (state S.Store tx.old.conn.now).now
        → IsMade (record c { entries = map (entry_row class pattern.now) entries.now ++ c.entries })
        (state S.Store tx.new.conn.now).now) }
{
    for entry in entries {
        insert_entry(tx, class, pattern, entry)?;
    }
    Ok(())
}

/// An entry of the access list of a profile that is there.
pub fn put_entry<S: Alter>(
    tx: &mut Transaction<'_, S>,
    class: Class,
    pattern: &Pattern,
    entry: &Entry,
) -> Result<(), Error>
    ensures same_reference { tx.new.conn.ghost_name ≡ tx.old.conn.ghost_name }
    ensures stays { Stays S.Store tx.old.conn.now tx.new.conn.now result }
    ensures done { Makes S.Store tx.old.conn.now tx.new.conn.now result
        (λ s. with_profiles (with_permission class pattern.now entry.now s.policy.profiles) s) }
{
    put(
        tx,
        "UPDATE entries SET class = ?1, pattern = ?2, id = ?3, console = ?4, level = ?5 WHERE class = ?1 AND pattern = ?2 AND id = ?3 AND console = ?4",
        "INSERT INTO entries VALUES (?1, ?2, ?3, ?4, ?5)",
        params![
            class.text(),
            pattern.text(),
            entry.id.text(),
            console_text(entry.when.as_ref()),
            rank_of(entry.level)
        ],
    )
}

/// Removes the entry for an id, at a console alone or, if none is given, at every console.
pub fn remove_entry<S: Alter>(
    tx: &mut Transaction<'_, S>,
    class: Class,
    pattern: &Pattern,
    id: &EntryId,
    when: Option<ConsoleName>,
) -> Result<(), Error>
    ensures same_reference { tx.new.conn.ghost_name ≡ tx.old.conn.ghost_name }
    ensures stays { Stays S.Store tx.old.conn.now tx.new.conn.now result }
    ensures done { Makes S.Store tx.old.conn.now tx.new.conn.now result
        (λ s. with_profiles (without_permission class pattern.now id.now when s.policy.profiles) s) }
{
    run(
        tx,
        "DELETE FROM entries WHERE class = ?1 AND pattern = ?2 AND id = ?3 AND console = ?4",
        params![
            class.text(),
            pattern.text(),
            id.text(),
            console_text(when.as_ref())
        ],
    )?;
    Ok(())
}

fn entry_id_in(row: &Row) -> Result<EntryId, StoreFault>
    ensures { (id : List ℕ) → column row.now 2 ≡ Text id → IfOk result (λ v. v ≡ id) }
{
    EntryId::read(text_at(row, 2)?).map_err(|_| unreadable())
}

fn console_in(row: &Row) -> Result<Option<ConsoleName>, StoreFault>
    ensures { (when : Option (List ℕ)) → when ≢ Some [] → column row.now 3 ≡ Text (or_empty when)
        → IfOk result (λ v. v ≡ when) }
{
    let text = text_at(row, 3)?;
    if text.is_empty() {
        return Ok(None);
    }
    match ConsoleName::read(text) {
        Ok(name) => Ok(Some(name)),
        Err(_) => Err(unreadable()),
    }
}

fn entry_in(row: &Row) -> Result<Entry, StoreFault>
    ensures { (class : TheClass) → (pattern : List ℕ) → (e : TheEntry) → IsNamed e → row.now ≡ entry_row class pattern e
        → IfOk result (λ v. v ≡ e) }
{
    Ok(Entry {
        id: entry_id_in(row)?,
        when: console_in(row)?,
        level: level_in(row, 4)?,
    })
}

/// The entries of some rows, in their order.
pub fn entries_in(alloc: Global, rows: &[Row]) -> Result<Entries, StoreFault>
    ensures { (class : TheClass) → (pattern : List ℕ) → (entries : List TheEntry) → IsAccessList entries
        → rows.now ≡ map (entry_row class pattern) entries → IfOk result (λ v. v ≡ entries) }
{
    // Named for the prover, which otherwise cannot infer the type of an entry's console.
    let _nowhere: Option<ConsoleName> = None;
    let mut entries = Entries::new(alloc);
    for row in rows {
        entries.set(entry_in(row)?)?;
    }
    Ok(entries)
}

/// The access list of the profile of a class and a pattern. A profile that is not defined has none.
pub fn access_list_on<S: Alter>(
    alloc: Global,
    conn: &mut Connection<S>,
    class: Class,
    pattern: &Pattern,
) -> Result<Entries, StoreFault>
    requires { conn.old.in_transaction ≡ false }
    ensures mode { conn.new.in_transaction ≡ false }
    ensures looks { Looks S.Store conn.old conn.new result }
    ensures found { Finds S.Store conn.old conn.new result (λ s v. v ≡ access_list s.policy class pattern.now) }
{
    let rows = read(
        conn,
        "SELECT class, pattern, id, console, level FROM entries WHERE class = ?1 AND pattern = ?2 ORDER BY id, console",
        params![class.text(), pattern.text()],
    )?;
    entries_in(alloc, rows.as_slice())
}

/// Its first entries, at most as many as requested.
pub fn entries_on<S: Alter>(
    alloc: Global,
    conn: &mut Connection<S>,
    class: Class,
    pattern: &Pattern,
    most: u32,
) -> Result<Entries, StoreFault>
    requires { conn.old.in_transaction ≡ false }
    ensures mode { conn.new.in_transaction ≡ false }
    ensures looks { Looks S.Store conn.old conn.new result }
    ensures found { Finds S.Store conn.old conn.new result
        (λ s v. v ≡ take most (access_list s.policy class pattern.now)) }
{
    let rows = read(
        conn,
        "SELECT class, pattern, id, console, level FROM entries WHERE class = ?1 AND pattern = ?2 ORDER BY id, console LIMIT ?3",
        params![class.text(), pattern.text(), most],
    )?;
    entries_in(alloc, rows.as_slice())
}

/// The rows of the access lists of a class, in the order of their patterns.
pub(crate) fn entry_rows_on<S: Alter>(
    conn: &mut Connection<S>,
    class: Class,
) -> Result<Vec<Row>, StoreFault>
    requires { conn.old.in_transaction ≡ false }
    ensures mode { conn.new.in_transaction ≡ false }
    ensures looks { Looks S.Store conn.old conn.new result }
    ensures found { Finds S.Store conn.old conn.new result
        (λ s v. HaveLists v.items (of_class class s.policy.profiles)) }
{
    read(
        conn,
        "SELECT class, pattern, id, console, level FROM entries WHERE class = ?1 ORDER BY pattern, id, console",
        params![class.text()],
    )
}

/// The level of its entry for an id, at one console or, if none is given, at every console.
pub fn level_for_on<S: Alter>(
    conn: &mut Connection<S>,
    class: Class,
    pattern: &Pattern,
    id: &EntryId,
    when: Option<ConsoleName>,
) -> Result<Option<Level>, StoreFault>
    requires { conn.old.in_transaction ≡ false }
    ensures mode { conn.new.in_transaction ≡ false }
    ensures looks { Looks S.Store conn.old conn.new result }
    ensures found { Finds S.Store conn.old conn.new result
        (λ s v. v ≡ level_for s.policy class pattern.now id.now when) }
{
    let at = when.as_ref();
    let rows = read(
        conn,
        "SELECT class, pattern, id, console, level FROM entries WHERE class = ?1 AND pattern = ?2 AND id = ?3 AND console = ?4 ORDER BY id, console",
        params![class.text(), pattern.text(), id.text(), console_text(at)],
    )?;
    match rows.as_slice().get(0) {
        Some(row) => Ok(Some(level_in(row, 4)?)),
        None => Ok(None),
    }
}

/// Whether an access list has an entry for a user.
pub fn has_entry_on<S: Alter>(conn: &mut Connection<S>, user: &UserId) -> Result<bool, StoreFault>
    requires { conn.old.in_transaction ≡ false }
    ensures mode { conn.new.in_transaction ≡ false }
    ensures looks { Looks S.Store conn.old conn.new result }
    ensures found { Finds S.Store conn.old conn.new result
        (λ s v. v ≡ list_any (has_entry user.now) s.policy.profiles) }
{
    is_there_on(
        conn,
        "SELECT id FROM entries WHERE id = ?1 LIMIT 1",
        params![user.text()],
    )
}
