//! The rows of two exports: which are gone, which are new and which are changed.
ghost use Rattle.std.specs.Prelude.{◌≡◌, [], IfOk, OnOk, filter, map};
ghost use Rattle.std.specs.BTreeMap.{get};
ghost use Rattle.std.specs.Option.{option_or};
ghost use Rattle.opc_answers_diff.specs.RowChanges.{
  change_at,
  differs,
  places_with,
  row_at,
  row_changes,
  with_classes,
};
ghost use Rattle.opc_answers_diff.specs.contracts.row_place.RowPlaceOrd.TheImpl.{ghosts};
ghost use Rattle.opc_answers_diff.specs.declared.row_place.RowPlace.{RowPlace as Place};

use crate::row_place::{RowPlace, place_of};
use opc_names::class::Class;
use opc_names::name::ConsoleName;
use opc_policy_members::row::Row;
use std::alloc::{AllocError, Global};
use std::collections::{BTreeMap, BTreeSet};

/// What two exports have at one place.
#[derive(Clone, Copy)]
pub struct RowChange {
    pub before: Option<Row>,
    pub after: Option<Row>,
}

/// The rows in effect, each at its place.
type RowsByPlace = BTreeMap<RowPlace, Row>;

/// Puts rows at their places. A later row replaces an earlier one.
fn put_rows(map: &mut RowsByPlace, rows: &[Row]) -> Result<(), AllocError>
    ensures { OnOk result ((q : Place) → get ghosts.cmp map.new q
        ≡ option_or (row_at rows.now q) (get ghosts.cmp map.old q)) }
{
    // Named for the prover, which otherwise cannot infer the types of a row.
    let _no_console: Option<ConsoleName> = None;
    for row in rows {
        map.insert(place_of(row), *row)?;
    }
    Ok(())
}

/// Adds the places of rows.
fn add_places(places: &mut BTreeSet<RowPlace>, rows: &[Row]) -> Result<(), AllocError>
    ensures { OnOk result (places.new.keys ≡ places_with rows.now places.old.keys) }
{
    for row in rows {
        places.insert(place_of(row))?;
    }
    Ok(())
}

/// Both classes, inactive.
const CLASSES: [Row; 2] = [
    Row::Class {
        class: Class::Console,
        active: false,
    },
    Row::Class {
        class: Class::Opercmds,
        active: false,
    },
];

/// The rows in effect of an export.
fn rows_in_effect(alloc: Global, rows: &[Row]) -> Result<RowsByPlace, AllocError>
    ensures { IfOk result (λ map. (q : Place) → get ghosts.cmp map q ≡ row_at (with_classes rows.now) q) }
{
    let mut map = BTreeMap::new(alloc);
    put_rows(&mut map, &CLASSES)?;
    put_rows(&mut map, rows)?;
    Ok(map)
}

fn in_order(alloc: Global, places: &BTreeSet<RowPlace>) -> Result<Vec<RowPlace>, AllocError>
    ensures { IfOk result (λ list. list.items ≡ places.now.keys) }
{
    places.iter().copied().collect(alloc)
}

/// The places of both exports, in order.
fn places_of_both(alloc: Global, before: &[Row], after: &[Row]) -> Result<Vec<RowPlace>, AllocError>
    ensures { IfOk result (λ places. places.items
        ≡ places_with (with_classes after.now) (places_with (with_classes before.now) [])) }
{
    let mut places = BTreeSet::new(alloc);
    add_places(&mut places, &CLASSES)?;
    add_places(&mut places, before)?;
    add_places(&mut places, &CLASSES)?;
    add_places(&mut places, after)?;
    in_order(alloc, &places)
}

fn differs(change: &RowChange) -> bool
    ensures { result ≡ differs change.now }
{
    change.before != change.after
}

/// What both exports have at a place.
fn change_at(before: &RowsByPlace, after: &RowsByPlace, place: &RowPlace) -> RowChange
    ensures { result ≡ change_at before.now after.now place.now }
{
    RowChange {
        before: before.get(place).copied(),
        after: after.get(place).copied(),
    }
}

/// What differs at these places.
fn changes_at(
    alloc: Global,
    before: &RowsByPlace,
    after: &RowsByPlace,
    places: &[RowPlace],
) -> Result<Vec<RowChange>, AllocError>
    ensures { IfOk result (λ list. list.items ≡ filter differs (map (change_at before.now after.now) places.now)) }
{
    // As in `put_rows`.
    let _no_console: Option<ConsoleName> = None;
    let mut list = Vec::new(alloc);
    for place in places {
        let change = change_at(before, after, place);
        if differs(&change) {
            list.push(change)?;
        }
    }
    Ok(list)
}

/// The rows of two policies that differ, in the order of an export.
pub fn row_changes(
    alloc: Global,
    before: &[Row],
    after: &[Row],
) -> Result<Vec<RowChange>, AllocError>
    ensures { IfOk result (λ list. list.items ≡ row_changes before.now after.now) }
{
    let old = rows_in_effect(alloc, before)?;
    let new = rows_in_effect(alloc, after)?;
    let places = places_of_both(alloc, before, after)?;
    let list = changes_at(alloc, &old, &new, places.as_slice())?;
    Ok(list)
}
