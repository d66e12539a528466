//! Which patterns of OPERCMDS come before one.
ghost use Rattle.std.specs.Prelude.{◌≡◌, ℕ, List, IfOk, IfSome, filter_map, map};
ghost use Rattle.opc_names.specs.Names.{IsPattern};
ghost use Rattle.opc_check_notes.specs.declared.numbered.NumberedRow.{NumberedRow as Numbered};
ghost use Rattle.opc_check_notes.specs.Preceding.{ArePreceding, AreValid, HasPatterns, all_keyed, keyed, opercmds_pattern};

use crate::kinds::ByKind;
use crate::numbered::NumberedRow;
use crate::sorted_pairs::{SortedPairs, push_if};
use opc_import::kind::Kind;
use opc_names::class::Class;
use opc_names::name::Pattern;
use opc_names::pattern::SortKey;
use opc_policy_members::row::Row;
use std::alloc::{AllocError, Global};

/// The patterns of OPERCMDS, each after its sort key.
pub(crate) type PatternsByKey = SortedPairs<SortKey, Pattern>;

/// The pattern of a profile of OPERCMDS.
pub(crate) fn opercmds_pattern(row: &Row) -> Option<Pattern>
    ensures { result ≡ opercmds_pattern row.now }
{
    match *row {
        Row::Profile {
            class: Class::Opercmds,
            pattern,
            ..
        } => Some(pattern),
        // The gate asks about no class but OPERCMDS by name.
        _ => None,
    }
}

/// The same after its sort key.
fn keyed(row: &Row) -> Option<(SortKey, Pattern)>
    ensures keyed { result ≡ keyed row.now }
    ensures valid { IfSome result (λ (p : List ℕ × List ℕ). IsPattern p.1) }
{
    match opercmds_pattern(row) {
        Some(pattern) => Some((pattern.sort_key(), pattern)),
        None => None,
    }
}

fn keyed_among(alloc: Global, rows: &[NumberedRow]) -> Result<Vec<(SortKey, Pattern)>, AllocError>
    ensures keyed { IfOk result (λ list. list.items ≡ filter_map (λ (at : Numbered). keyed at.row) rows.now) }
    ensures valid { IfOk result (λ list. AreValid list.items) }
{
    let mut list = Vec::new(alloc);
    for at in rows {
        push_if(&mut list, keyed(&at.row))?;
    }
    Ok(list)
}

fn all_keyed(alloc: Global, rows: &ByKind) -> Result<Vec<(SortKey, Pattern)>, AllocError>
    ensures keyed { IfOk result (λ list. list.items ≡ all_keyed rows.now) }
    ensures valid { IfOk result (λ list. AreValid list.items) }
{
    keyed_among(alloc, rows.of(Kind::Profile))
}

/// The patterns of OPERCMDS in their order.
pub(crate) fn patterns_by_key(alloc: Global, rows: &ByKind) -> Result<PatternsByKey, AllocError>
    ensures { IfOk result (HasPatterns rows.now) }
{
    SortedPairs::sorted(all_keyed(alloc, rows)?)
}

/// The patterns without their sort keys.
fn patterns_of(alloc: Global, pairs: &[(SortKey, Pattern)]) -> Result<Vec<Pattern>, AllocError>
    ensures { IfOk result (λ list. list.items ≡ map (λ (p : List ℕ × List ℕ). p.1) pairs.now) }
{
    let mut list = Vec::new(alloc);
    for pair in pairs {
        list.push(pair.1)?;
    }
    Ok(list)
}

/// Those that come before a pattern and can cover what it covers: their sort keys are not below its head, with which all
/// begins that it covers.
pub(crate) fn preceding(
    alloc: Global,
    patterns: &PatternsByKey,
    pattern: &Pattern,
) -> Result<Vec<Pattern>, AllocError>
    ensures { (list : List Numbered) → HasPatterns list patterns.now
        → IfOk result (λ found. ArePreceding list pattern.now found.items) }
{
    let key = pattern.sort_key();
    let head = SortKey::copied(pattern.head().as_bytes());
    patterns_of(alloc, patterns.from_to(&head, &key))
}
