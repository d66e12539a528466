//! The table of profiles.
ghost use Rattle.std.specs.Prelude.{◌≡◌, ◌≢◌, ◌∷◌, ◌++◌, ℕ, List, IfOk, OnOk, None, map, false, true, Some};
ghost use Rattle.std.specs.List.{AllByRecursion, list_any};
ghost use Rattle.std.specs.Option.{option_map};
ghost use Rattle.std.specs.Str.{bytes_eq};
ghost use Rattle.sqlite.specs.Held.{state};
ghost use Rattle.sqlite.specs.State.{HasCleanDisk};
ghost use Rattle.opc_store_sql.specs.Steps.{Stays, Looks};
ghost use Rattle.opc_names.specs.Names.{IsPattern};
ghost use Rattle.opc_policy_members.specs.Profiles.{of_class, profile_of, with_definition};
ghost use Rattle.opc_state.specs.Changes.{with_profiles};
ghost use Rattle.opc_state.specs.Loads.{bare};
ghost use Rattle.opc_state.specs.Members.{without_profile};
ghost use Rattle.opc_store_schema.specs.Asked.{Finds, Makes};
ghost use Rattle.opc_store_schema.specs.Made.{IsMade};
ghost use Rattle.opc_store_schema.specs.Represented.{Represents, contents_of, definition_row, profile_row};
ghost use Rattle.opc_store_schema.specs.Changes.{Becomes};
ghost use Rattle.sqlite.specs.Order.{column};
ghost use Rattle.sqlite.specs.declared.types.Value.{Value as TheValue};
ghost use Rattle.sqlite.specs.declared.types.Value.TheVariants.{Text};
ghost use Rattle.opc_names.specs.Spellings.{class_text};
ghost use Rattle.opc_names.specs.declared.class.Class.{Class as TheClass};
ghost use Rattle.opc_policy_members.specs.declared.profile.Profile.{Profile as TheProfile};
ghost use Rattle.opc_store_profiles.specs.Keys.{AreKeyed, IsKeyed, has_keys_of, is_blob, is_text};

use crate::entries::{access_list_on, entry_rows_on, insert_entries};
use crate::levels::{level_in, rank_of};
use crate::lists::whole_in;
use opc_names::class::Class;
use opc_names::laws::keys_order_patterns;
use opc_names::name::{Pattern, UserId};
use opc_policy_members::entries::Entries;
use opc_policy_members::profile::Profile;
use opc_store_schema::columns::{name_in, text_at, value_in};
use opc_store_schema::faults::unreadable;
use opc_store_schema::queries::read;
use opc_store_schema::there::is_there_on;
use opc_store_sql::run;
use opc_terms::store_fault::StoreFault;
use sqlite::types::ValueRef;
use sqlite::{Alter, Connection, Error, Row, Transaction, params};
use std::alloc::Global;

/// Sets all columns of a profile except its access list, and returns how many there were.
fn update_profile<S: Alter>(tx: &mut Transaction<'_, S>, profile: &Profile) -> Result<usize, Error>
    ensures same_reference { tx.new.conn.ghost_name ≡ tx.old.conn.ghost_name }
    ensures stays { Stays S.Store tx.old.conn.now tx.new.conn.now result }
    ensures valid { IsPattern profile.now.pattern }
    ensures set { HasCleanDisk (state S.Store tx.new.conn.now)
        → IfOk result (λ found. found ≢ 0
        → Becomes (λ s. with_profiles (with_definition profile.now s.policy.profiles) s)
        (state S.Store tx.old.conn.now).now (state S.Store tx.new.conn.now).now) }
    ensures missed { HasCleanDisk (state S.Store tx.new.conn.now)
        → IfOk result (λ found. found ≡ 0 → (s : _) → Represents (state S.Store tx.old.conn.now).now s
        → (profile_of s.policy.profiles profile.now.class profile.now.pattern ≡ None)
        × Represents (state S.Store tx.new.conn.now).now s) }
{
    let key = profile.pattern.sort_key();
    run(
        tx,
        "UPDATE profiles SET class = ?1, pattern = ?2, owner = ?3, uacc = ?4, warning = ?5, skey = ?6, head = ?7 WHERE class = ?1 AND pattern = ?2",
        params![
            profile.class.text(),
            profile.pattern.text(),
            profile.owner.text(),
            rank_of(profile.uacc),
            profile.warning,
            key.as_slice(),
            profile.pattern.head()
        ],
    )
}

/// Inserts a profile, whose access list is still to come.
fn insert_profile<S: Alter>(tx: &mut Transaction<'_, S>, profile: &Profile) -> Result<(), Error>
    ensures same_reference { tx.new.conn.ghost_name ≡ tx.old.conn.ghost_name }
    ensures stays { Stays S.Store tx.old.conn.now tx.new.conn.now result }
    ensures added { HasCleanDisk (state S.Store tx.new.conn.now)
        → OnOk result ((s : _) → Represents (state S.Store tx.old.conn.now).now s
        → IsMade (record (contents_of s) { profiles = profile_row profile.now ∷ map profile_row s.policy.profiles })
        (state S.Store tx.new.conn.now).now) }
{
    let key = profile.pattern.sort_key();
    run(
        tx,
        "INSERT INTO profiles VALUES (?1, ?2, ?3, ?4, ?5, ?6, ?7)",
        params![
            profile.class.text(),
            profile.pattern.text(),
            profile.owner.text(),
            rank_of(profile.uacc),
            profile.warning,
            key.as_slice(),
            profile.pattern.head()
        ],
    )?;
    Ok(())
}

/// Upserts a profile, which keeps the access list of the one that is there.
pub fn put_profile<S: Alter>(tx: &mut Transaction<'_, S>, profile: &Profile) -> Result<(), Error>
    ensures same_reference { tx.new.conn.ghost_name ≡ tx.old.conn.ghost_name }
    ensures stays { Stays S.Store tx.old.conn.now tx.new.conn.now result }
    ensures done { Makes S.Store tx.old.conn.now tx.new.conn.now result
        (λ s. with_profiles (with_definition profile.now s.policy.profiles) s) }
{
    keys_order_patterns();
    let entries = profile.entries.as_slice();
    let found = update_profile(tx, profile)?;
    if found == 0 {
        insert_profile(tx, profile)?;
        insert_entries(tx, profile.class, &profile.pattern, entries)?;
    }
    Ok(())
}

/// Removes a profile with its access list.
pub fn remove_profile<S: Alter>(
    tx: &mut Transaction<'_, S>,
    class: Class,
    pattern: &Pattern,
) -> Result<(), Error>
    ensures same_reference { tx.new.conn.ghost_name ≡ tx.old.conn.ghost_name }
    ensures stays { Stays S.Store tx.old.conn.now tx.new.conn.now result }
    ensures done { Makes S.Store tx.old.conn.now tx.new.conn.now result
        (λ s. with_profiles (without_profile class pattern.now s.policy.profiles) s) }
{
    run(
        tx,
        "DELETE FROM entries WHERE class = ?1 AND pattern = ?2",
        params![class.text(), pattern.text()],
    )?;
    run(
        tx,
        "DELETE FROM profiles WHERE class = ?1 AND pattern = ?2",
        params![class.text(), pattern.text()],
    )?;
    Ok(())
}

#[tactic(auto, using(crate::proofs::ProfileLoads::classes_back))]
fn class_in(row: &Row) -> Result<Class, StoreFault>
    ensures read { (class : TheClass) → column row.now 0 ≡ Text (class_text class) → IfOk result (λ v. v ≡ class) }
    ensures text { (text : List ℕ) → column row.now 0 ≡ Text text → IfOk result (λ v. text ≡ class_text v) }
{
    match Class::read(text_at(row, 0)?) {
        Some(class) => Ok(class),
        // Only damaged tables have another text.
        None => Err(unreadable()),
    }
}

/// A profile, but without its access list, from the first columns of a row.
pub fn definition_in(alloc: Global, row: &Row) -> Result<Profile, StoreFault>
    ensures read { (p : TheProfile) (rest : List TheValue) → row.now ≡ definition_row p ++ rest
        → IfOk result (λ v. v ≡ bare p) }
    ensures class { (text : List ℕ) → column row.now 0 ≡ Text text → IfOk result (λ v. text ≡ class_text v.class) }
    ensures pattern { (pattern : List ℕ) → column row.now 1 ≡ Text pattern → IfOk result (λ v. v.pattern ≡ pattern) }
{
    Ok(Profile {
        class: class_in(row)?,
        pattern: name_in(row, 1)?,
        owner: name_in(row, 2)?,
        uacc: level_in(row, 3)?,
        warning: value_in(row, 4)?,
        entries: Entries::new(alloc),
    })
}

fn has_key(row: &Row, key: &[u8]) -> bool
    ensures { result ≡ is_blob key.now (column row.now 5) }
{
    match row.get_ref(5) {
        Ok(ValueRef::Blob(bytes)) => bytes == key,
        // Only a blob is a key.
        _ => false,
    }
}

fn has_head(row: &Row, head: &str) -> bool
    ensures { result ≡ is_text head.now (column row.now 6) }
{
    match row.get_ref(6) {
        Ok(ValueRef::Text(text)) => text == head.as_bytes(),
        // Only a text is a head.
        _ => false,
    }
}

// Whether a row has the key and the head of a pattern.
fn has_keys_of(row: &Row, pattern: &Pattern) -> bool
    ensures { result ≡ has_keys_of pattern.now row.now }
{
    has_key(row, pattern.sort_key().as_slice()) && has_head(row, pattern.head())
}

/// A profile, but without its access list. A search asks for the row by its key and its head: a row with others than
/// those of its pattern cannot be read.
pub fn profile_in(alloc: Global, row: &Row) -> Result<Profile, StoreFault>
    ensures read { (p : TheProfile) → row.now ≡ profile_row p → IfOk result (λ v. v ≡ bare p) }
    ensures keys { OnOk result (IsKeyed row.now) }
{
    let profile = definition_in(alloc, row)?;
    if !has_keys_of(row, &profile.pattern) {
        return Err(unreadable());
    }
    Ok(profile)
}

/// Profiles, but for their access lists, from their rows.
pub fn definitions_in(alloc: Global, rows: &[Row]) -> Result<Vec<Profile>, StoreFault>
    ensures { (profiles : List TheProfile) → rows.now ≡ map profile_row profiles
        → IfOk result (λ v. v.items ≡ map bare profiles) }
{
    let mut definitions = Vec::new(alloc);
    for row in rows {
        definitions.push(profile_in(alloc, row)?)?;
    }
    Ok(definitions)
}

/// The profile of a class and a pattern, but without its access list.
pub fn definition_on<S: Alter>(
    alloc: Global,
    conn: &mut Connection<S>,
    class: Class,
    pattern: &Pattern,
) -> Result<Option<Profile>, StoreFault>
    requires { conn.old.in_transaction ≡ false }
    ensures mode { conn.new.in_transaction ≡ false }
    ensures looks { Looks S.Store conn.old conn.new result }
    ensures found { Finds S.Store conn.old conn.new result
        (λ s v. v ≡ option_map bare (profile_of s.policy.profiles class pattern.now)) }
{
    let rows = read(
        conn,
        "SELECT class, pattern, owner, uacc, warning, skey, head FROM profiles WHERE class = ?1 AND pattern = ?2 ORDER BY class, skey",
        params![class.text(), pattern.text()],
    )?;
    match rows.as_slice().get(0) {
        Some(row) => Ok(Some(profile_in(alloc, row)?)),
        None => Ok(None),
    }
}

/// The profiles of a class, in the order of their keys.
pub const BY_CLASS: &str =
    "SELECT class, pattern, owner, uacc, warning, skey, head FROM profiles WHERE class = ?1 ORDER BY class, skey";

/// The profiles of a class, in the order of their patterns, but without their access lists.
pub fn definitions_on<S: Alter>(
    alloc: Global,
    conn: &mut Connection<S>,
    class: Class,
) -> Result<Vec<Profile>, StoreFault>
    requires { conn.old.in_transaction ≡ false }
    ensures mode { conn.new.in_transaction ≡ false }
    ensures looks { Looks S.Store conn.old conn.new result }
    ensures found { Finds S.Store conn.old conn.new result
        (λ s v. v.items ≡ map bare (of_class class s.policy.profiles)) }
{
    let rows = read(conn, BY_CLASS, params![class.text()])?;
    definitions_in(alloc, rows.as_slice())
}

fn see_each(alloc: Global, rows: &[Row]) -> Result<(), StoreFault>
    ensures { OnOk result (AllByRecursion IsKeyed rows.now) }
{
    for row in rows {
        let _profile = profile_in(alloc, row)?;
    }
    Ok(())
}

/// Every profile. A constant that its lemmas read, so that the prover refuses a text that leaves a profile out.
const EVERY: &str = "SELECT class, pattern, owner, uacc, warning, skey, head FROM profiles";

/// Reads each profile: a search by heads might skip one whose head is not that of its pattern, and any search would
/// skip one of another class.
pub fn see_profiles_on<S: Alter>(alloc: Global, conn: &mut Connection<S>) -> Result<(), StoreFault>
    requires { conn.old.in_transaction ≡ false }
    ensures mode { conn.new.in_transaction ≡ false }
    ensures looks { Looks S.Store conn.old conn.new result }
    ensures seen { HasCleanDisk (state S.Store conn.new) → OnOk result (AreKeyed (state S.Store conn.old).now) }
{
    let rows = read(conn, EVERY, &[])?;
    see_each(alloc, rows.as_slice())
}

/// Whether a profile has a user as its owner.
pub fn has_owner_on<S: Alter>(conn: &mut Connection<S>, user: &UserId) -> Result<bool, StoreFault>
    requires { conn.old.in_transaction ≡ false }
    ensures mode { conn.new.in_transaction ≡ false }
    ensures looks { Looks S.Store conn.old conn.new result }
    ensures found { Finds S.Store conn.old conn.new result
        (λ s v. v ≡ list_any (λ (p : TheProfile). bytes_eq p.owner user.now) s.policy.profiles) }
{
    is_there_on(
        conn,
        "SELECT owner FROM profiles WHERE owner = ?1 LIMIT 1",
        params![user.text()],
    )
}

/// The profile of a row, with its access list.
pub fn profile_on<S: Alter>(
    alloc: Global,
    conn: &mut Connection<S>,
    row: &Row,
) -> Result<Profile, StoreFault>
    requires { conn.old.in_transaction ≡ false }
    ensures mode { conn.new.in_transaction ≡ false }
    ensures looks { Looks S.Store conn.old conn.new result }
    ensures found { HasCleanDisk (state S.Store conn.new) → (s : _) → Represents (state S.Store conn.old).now s
        → (p : TheProfile) → row.now ≡ profile_row p → profile_of s.policy.profiles p.class p.pattern ≡ Some p
        → IfOk result (λ v. v ≡ p) }
{
    let profile = profile_in(alloc, row)?;
    let entries = access_list_on(alloc, conn, profile.class, &profile.pattern)?;
    Ok(Profile { entries, ..profile })
}

/// The profile of a class and a pattern, with its access list.
pub fn profile_at<S: Alter>(
    alloc: Global,
    conn: &mut Connection<S>,
    class: Class,
    pattern: &Pattern,
) -> Result<Option<Profile>, StoreFault>
    requires { conn.old.in_transaction ≡ false }
    ensures mode { conn.new.in_transaction ≡ false }
    ensures looks { Looks S.Store conn.old conn.new result }
    ensures found { Finds S.Store conn.old conn.new result (λ s v. v ≡ profile_of s.policy.profiles class pattern.now) }
{
    let rows = read(
        conn,
        "SELECT class, pattern, owner, uacc, warning, skey, head FROM profiles WHERE class = ?1 AND pattern = ?2 ORDER BY class, skey",
        params![class.text(), pattern.text()],
    )?;
    match rows.as_slice().get(0) {
        Some(row) => Ok(Some(profile_on(alloc, conn, row)?)),
        None => Ok(None),
    }
}

/// The profiles of a class with their access lists, in the order of their patterns.
pub fn profiles_of_on<S: Alter>(
    alloc: Global,
    conn: &mut Connection<S>,
    class: Class,
) -> Result<Vec<Profile>, StoreFault>
    requires { conn.old.in_transaction ≡ false }
    ensures mode { conn.new.in_transaction ≡ false }
    ensures looks { Looks S.Store conn.old conn.new result }
    ensures found { Finds S.Store conn.old conn.new result (λ s v. v.items ≡ of_class class s.policy.profiles) }
{
    let rows = read(conn, BY_CLASS, params![class.text()])?;
    let entries = entry_rows_on(conn, class)?;
    whole_in(alloc, rows.as_slice(), entries.as_slice())
}

/// All profiles with their access lists, class by class, in order.
pub fn profiles_on<S: Alter>(
    alloc: Global,
    conn: &mut Connection<S>,
) -> Result<Vec<Profile>, StoreFault>
    requires { conn.old.in_transaction ≡ false }
    ensures mode { conn.new.in_transaction ≡ false }
    ensures looks { Looks S.Store conn.old conn.new result }
    ensures found { Finds S.Store conn.old conn.new result (λ s v. v.items ≡ s.policy.profiles) }
{
    let mut profiles = profiles_of_on(alloc, conn, Class::Console)?;
    let mut others = profiles_of_on(alloc, conn, Class::Opercmds)?;
    profiles.append(&mut others)?;
    Ok(profiles)
}
