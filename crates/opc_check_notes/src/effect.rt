//! The rows in effect: those that no later row replaces.
ghost use Rattle.std.specs.Prelude.{
  ◌≡◌,
  ◌∷◌,
  ◌++◌,
  [],
  IfOk,
  OnOk,
  Some,
  is_some,
  if◌then◌else◌,
};
ghost use Rattle.std.specs.BTreeMap.{get};
ghost use Rattle.opc_check_notes.specs.Effect.{AreInOrder, in_effect, key_of, same_key};
ghost use Rattle.opc_check_notes.specs.Levels.{HasLevels, HasRows, entry_level, kept};
ghost use Rattle.opc_check_notes.specs.contracts.effect.RowKeyOrd.TheImpl.{ghosts};
ghost use Rattle.opc_check_notes.specs.declared.effect.RowKey.{RowKey as Key};

use crate::names::copied;
use crate::numbered::NumberedRow;
use opc_names::bytes::Bytes;
use opc_names::class::Class;
use opc_names::level::Level;
use opc_names::name::{ConsoleName, GroupName, Pattern, UserId};
use opc_policy_members::row::Row;
use std::alloc::{AllocError, Global};
use std::collections::BTreeMap;

/// What a row defines. Of rows of the same key the last one is in effect.
#[derive(Clone, Copy, PartialEq, Eq, PartialOrd, Ord)]
pub enum RowKey {
    Class(Class),
    Group(GroupName),
    User(UserId),
    Connect(Bytes<8>, Bytes<8>),
    Console(ConsoleName),
    Profile(Class, Pattern),
    // The id comes first, as bytes: keys that differ early, and in a number, are found sooner.
    Permit(Bytes<8>, Class, Pattern, Option<ConsoleName>),
}

pub(crate) fn key_of(row: &Row) -> RowKey
    ensures { result ≡ key_of row.now }
{
    match *row {
        Row::Class { class, .. } => RowKey::Class(class),
        Row::Group { name } => RowKey::Group(name),
        Row::User(user) => RowKey::User(user.id),
        Row::Connect { user, group } => {
            RowKey::Connect(copied(user.text()), copied(group.text()))
        }
        Row::Console { name, .. } => RowKey::Console(name),
        Row::Profile { class, pattern, .. } => RowKey::Profile(class, pattern),
        Row::Permit {
            class,
            pattern,
            id,
            when,
            ..
        } => RowKey::Permit(copied(id.text()), class, pattern, when),
    }
}

/// The level of an entry.
fn entry_level(row: &Row) -> Option<Level>
    ensures { result ≡ entry_level row.now }
{
    match *row {
        Row::Permit { level, .. } => Some(level),
        // No other row has a level for an id.
        _ => None,
    }
}

/// What is kept of a row: its number, and its level if it is an entry.
#[derive(Clone, Copy)]
pub(crate) struct Kept {
    pub(crate) number: u64,
    pub(crate) level: Option<Level>,
}

/// That of the row in effect with each key.
pub(crate) type RowsByKey = BTreeMap<RowKey, Kept>;

/// Puts what is kept of a row at its key.
fn put(map: &mut RowsByKey, row: &Row, kept: Kept) -> Result<(), AllocError>
    ensures { OnOk result ((q : Key) → get ghosts.cmp map.new q
        ≡ if same_key (key_of row.now) q then Some kept else get ghosts.cmp map.old q) }
{
    // Named for the prover, which otherwise cannot infer the types of a row.
    let _no_console: Option<ConsoleName> = None;
    map.insert(key_of(row), kept)?;
    Ok(())
}

/// Adds a row with its number.
fn add(list: &mut Vec<NumberedRow>, number: u64, row: &Row) -> Result<(), AllocError>
    ensures { OnOk result (list.new.items ≡ list.old.items ++ record { number = number; row = row.now } ∷ []) }
{
    // As in `put`.
    let _no_console: Option<ConsoleName> = None;
    list.push(NumberedRow { number, row: *row })?;
    Ok(())
}

/// Keeps a row with its number, unless a later row of its key was seen.
fn keep(
    map: &mut RowsByKey,
    list: &mut Vec<NumberedRow>,
    number: u64,
    row: &Row,
) -> Result<(), AllocError>
    ensures map { OnOk result ((q : Key) → get ghosts.cmp map.new q
        ≡ if is_some (get ghosts.cmp map.old (key_of row.now)) then get ghosts.cmp map.old q
        else if same_key (key_of row.now) q then Some (kept (record { number = number; row = row.now }))
        else get ghosts.cmp map.old q) }
    ensures list { OnOk result (list.new.items
        ≡ if is_some (get ghosts.cmp map.old (key_of row.now)) then list.old.items
        else (list.old.items ++ record { number = number; row = row.now } ∷ [])) }
{
    // As in `put`.
    let _no_console: Option<ConsoleName> = None;
    let kept = Kept {
        number,
        level: entry_level(row),
    };
    match map.insert(key_of(row), kept)? {
        // What is kept of a later row stays.
        Some(later) => put(map, row, later)?,
        None => add(list, number, row)?,
    }
    Ok(())
}

/// The rows in effect, with their numbers, in order, and what is kept of each at its key.
pub(crate) fn rows_in_effect(
    alloc: Global,
    rows: &[Row],
) -> Result<(Vec<NumberedRow>, RowsByKey), AllocError>
    ensures list { IfOk result (λ found. found.0.items ≡ in_effect 1 rows.now) }
    ensures order { IfOk result (λ found. AreInOrder found.0.items) }
    ensures rows { IfOk result (λ found. HasRows found.0.items found.1) }
    ensures levels { IfOk result (λ found. HasLevels found.0.items found.1) }
{
    let mut map = BTreeMap::new(alloc);
    let mut list = Vec::new(alloc);
    let mut at = rows.len();
    // From the last row to the first, so that each row is kept whose key was not seen.
    while at > 0 {
        keep(&mut map, &mut list, at as u64, &rows[at - 1])?;
        at -= 1;
    }
    list.reverse();
    Ok((list, map))
}
