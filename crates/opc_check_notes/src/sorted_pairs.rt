//! Values by keys that may have several.
ghost use Rattle.std.specs.Prelude.{◌≡◌, ◌≤◌, ◌++◌, [], true, false, Bool, IfOk, OnOk, length};
ghost use Rattle.std.specs.List.{cons_option, list_any};
ghost use Rattle.std.specs.List.Sorted.{IsPartitionPoint, IsSortedByKey};
ghost use Rattle.std.specs.Ordering.{is_le, is_lt};
ghost use Rattle.opc_check_notes.specs.SortedPairs.{at_key, from_to};

use std::alloc::AllocError;
use std::marker::Model;

/// Pairs of a key and a value in the order of their keys, and those of one key in the order in which they came.
#[derive(Drop)]
pub(crate) struct SortedPairs<K: Ord, V> {
    pairs: Vec<(K, V)>,
}

impl<K: Ord, V> Model for SortedPairs<K, V> {
    ghost use Rattle.std.specs.Prelude.{List};
    ghost use Rattle.std.specs.List.Sorted.{IsSortedByKey};

    ghost Value = { List (K × V) };

    ghost view = { λ kept. kept.pairs.items };

    ghost invariant = { λ kept. IsSortedByKey (λ (pair : K × V). pair.0) K.cmp kept.pairs.items };
}

impl<K: Ord + Copy + Drop, V: Drop> SortedPairs<K, V> {
    /// These pairs.
    pub(crate) fn sorted(mut pairs: Vec<(K, V)>) -> Result<Self, AllocError>
        ensures keys { IfOk result (λ kept. (key : K) → at_key K.cmp key kept ≡ at_key K.cmp key pairs.items) }
        ensures pairs { IfOk result (λ kept. (test : K × V → Bool) → list_any test kept ≡ list_any test pairs.items) }
    {
        pairs.sort_by_key(|pair| pair.0)?;
        Ok(SortedPairs { pairs })
    }

    /// The pairs of a key.
    pub(crate) fn at(&self, key: &K) -> &[(K, V)]
        ensures { result.now ≡ at_key K.cmp key.now self.now }
    {
        among(&self.pairs, key)
    }

    /// The pairs from one key up to another, without those of the other.
    pub(crate) fn from_to(&self, from: &K, to: &K) -> &[(K, V)]
        ensures { result.now ≡ from_to K.cmp from.now to.now self.now }
    {
        between(&self.pairs, from, to)
    }
}

/// Where the pairs of a key begin.
fn start_of<K: Ord, V>(pairs: &[(K, V)], key: &K) -> usize
    requires { IsSortedByKey (λ (p : K × V). p.0) K.cmp pairs.now }
    ensures within { result ≤ length pairs.now }
    ensures parts { IsPartitionPoint (λ (p : K × V). is_lt (K.cmp p.0 key.now) ≡ true)
        (λ (p : K × V). is_lt (K.cmp p.0 key.now) ≡ false) pairs.now result }
{
    pairs.partition_point(|pair| pair.0.cmp(key).is_lt())
}

/// Where they end.
fn end_of<K: Ord, V>(pairs: &[(K, V)], key: &K) -> usize
    requires { IsSortedByKey (λ (p : K × V). p.0) K.cmp pairs.now }
    ensures within { result ≤ length pairs.now }
    ensures parts { IsPartitionPoint (λ (p : K × V). is_le (K.cmp p.0 key.now) ≡ true)
        (λ (p : K × V). is_le (K.cmp p.0 key.now) ≡ false) pairs.now result }
{
    pairs.partition_point(|pair| pair.0.cmp(key).is_le())
}

/// The pairs of a key among sorted ones.
fn among<'a, K: Ord, V>(pairs: &'a [(K, V)], key: &K) -> &'a [(K, V)]
    requires { IsSortedByKey (λ (p : K × V). p.0) K.cmp pairs.now }
    ensures { result.now ≡ at_key K.cmp key.now pairs.now }
{
    let start = start_of(pairs, key);
    let end = end_of(pairs, key);
    &pairs[start..end]
}

/// The pairs from one key up to another among sorted ones.
fn between<'a, K: Ord, V>(pairs: &'a [(K, V)], from: &K, to: &K) -> &'a [(K, V)]
    requires { IsSortedByKey (λ (p : K × V). p.0) K.cmp pairs.now }
    ensures { result.now ≡ from_to K.cmp from.now to.now pairs.now }
{
    let end = start_of(pairs, to);
    if end == 0 {
        return &pairs[..0];
    }
    // For most keys there is none, as the last one before the other key says.
    if pairs[end - 1].0.cmp(from).is_lt() {
        return &pairs[..0];
    }
    let start = start_of(pairs, from);
    &pairs[start..end]
}

/// Adds an item, if there is one.
pub(crate) fn push_if<T: Drop>(list: &mut Vec<T>, item: Option<T>) -> Result<(), AllocError>
    ensures { OnOk result (list.new.items ≡ list.old.items ++ cons_option item []) }
{
    match item {
        Some(item) => {
            list.push(item)?;
            Ok(())
        }
        None => Ok(()),
    }
}
