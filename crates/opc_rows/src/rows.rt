//! A list of rows under keys.
ghost use Rattle.std.specs.Prelude.{
  ◌≡◌,
  ◌≤◌,
  ◌++◌,
  ◌∷◌,
  [],
  Some,
  None,
  filter,
  find,
  length,
  map,
  not,
  position,
  false,
  true,
  IfOk,
  OnErr,
  OnOk,
  MatchResult,
};
ghost use Rattle.std.specs.List.{IsAllAdjacentAnswer};
ghost use Rattle.std.specs.List.Sorted.{IsPartitionPoint};
ghost use Rattle.std.specs.Fn.{FnReturns};
ghost use Rattle.std.specs.Option.{option_copied};
ghost use Rattle.std.specs.Ordering.{is_lt};
ghost use Rattle.opc_rows.specs.Ordered.{IsChangedAtEach, IsChangedAtOne, IsInKeyOrder, comes_before, put, changed};

use std::alloc::{AllocError, AllocFailed, Global};
use std::marker::Model;

/// A row that has a key.
pub trait Keyed {
    type Key: Ord;

    /// The key of a row.
    ghost key_of: { Self → Self.Key };

    fn key(&self) -> &Self::Key
        ensures { result.now ≡ key_of self.now };
}

/// A list of rows. Calls that look up a key need the rows in the order of their keys, which `is_ascending` tests and
/// which `insert` keeps if the key is new.
#[derive(Drop)]
pub struct Rows<R> {
    items: Vec<R>,
}

impl<R> Model for Rows<R> {
    ghost use Rattle.std.specs.Prelude.{List};

    ghost Value = { List R };

    ghost view = { λ rows. rows.items.items };
}

impl<R> Rows<R> {
    /// No rows.
    pub fn new(alloc: Global) -> Self
        ensures { result ≡ [] }
    {
        Rows {
            items: Vec::new(alloc),
        }
    }

    /// These rows, in their order. None is copied.
    pub fn of(rows: Vec<R>) -> Self
        ensures { result ≡ rows.items }
    {
        Rows { items: rows }
    }

    /// Adds a row at the end, whatever its key.
    pub fn push(&mut self, row: R) -> Result<(), AllocFailed<R>>
        ensures ok { OnOk result (self.new ≡ self.old ++ row ∷ []) }
        ensures err { OnErr result (self.new ≡ self.old) }
    {
        self.items.push(row)
    }

    /// The rows, in order.
    pub fn as_slice(&self) -> &[R]
        ensures { result.now ≡ self.now }
    {
        &self.items
    }
}

impl<R: Copy + Drop> Rows<R> {
    /// A copy of rows, in their order.
    pub fn from_slice(alloc: Global, rows: &[R]) -> Result<Self, AllocError>
        ensures { IfOk result (λ copy. copy ≡ rows.now) }
    {
        let mut copy = Rows::new(alloc);
        for row in rows {
            copy.push(*row)?;
        }
        Ok(copy)
    }
}

impl<R: Keyed + Drop> Rows<R> {
    /// Whether each row's key is below the next one's.
    pub fn is_ascending(&self) -> bool
        ensures { IsAllAdjacentAnswer (λ row other below. below ≡ comes_before R.Key.cmp R.key_of row other) self.now
            result }
    {
        self.items
            .is_sorted_by(|row, other| row.key() < other.key())
    }

    /// The row of this key.
    pub fn find(&self, key: &R::Key) -> Option<&R>
        requires { IsInKeyOrder R.Key.cmp R.key_of self.now }
        ensures { option_copied result ≡ find (λ row. R.Key.eq (R.key_of row) key.now) self.now }
    {
        match self.place_of(key) {
            Ok(at) => Some(&self.items[at]),
            Err(_) => None,
        }
    }

    /// Drops the row of this key, if there is one.
    pub fn remove(&mut self, key: &R::Key)
        requires { IsInKeyOrder R.Key.cmp R.key_of self.old }
        ensures { self.new ≡ filter (λ row. not (R.Key.eq (R.key_of row) key.now)) self.old }
    {
        if let Ok(at) = self.place_of(key) {
            // Dropped here: the caller knows the row by its key.
            let _row = self.items.remove(at);
        }
    }

    /// Puts a row before the first one of a greater key.
    pub fn insert(&mut self, row: R) -> Result<(), AllocFailed<R>>
        requires { IsInKeyOrder R.Key.cmp R.key_of self.old }
        ensures ok { OnOk result (self.new ≡ put (comes_before R.Key.cmp R.key_of) row self.old) }
        ensures err { OnErr result (self.new ≡ self.old) }
    {
        let at = self.place_after(row.key());
        self.items.insert(at, row)
    }

    /// Changes the row of this key, if there is one. All other rows stay as they are, in their order.
    pub fn change<F: FnOnce(R) -> R>(&mut self, key: &R::Key, change: F)
    where
        F: Drop,
        requires callable { F.IsAlwaysCallable change }
        requires order { IsInKeyOrder R.Key.cmp R.key_of self.old }
        ensures one { IsChangedAtOne (λ row. R.Key.eq (R.key_of row) key.now) (F.post change) self.old self.new }
        ensures computed { (after : R → R) → ((old new : R) → F.post change old new → new ≡ after old)
            → self.new ≡ changed (λ row. R.Key.eq (R.key_of row) key.now) after self.old }
    {
        if let Ok(at) = self.place_of(key) {
            let row = self.items.remove(at);
            match self.items.insert(at, change(row)) {
                Ok(()) => {}
                // The place of the row that was taken out is free.
                Err(_) => unreachable!(),
            }
        }
    }

    /// Changes every row. None is added, removed or moved.
    pub fn change_all<F: Fn(R) -> R>(&mut self, change: F)
    where
        R: Copy,
        F: Drop,
        requires { F.IsAlwaysCallable change }
        ensures each { IsChangedAtEach (λ old new. FnReturns F.Fn change (old, tt) new) self.old self.new }
        ensures computed { (after : R → R) → ((old new : R) → FnReturns F.Fn change (old, tt) new → new ≡ after old)
            → self.new ≡ map after self.old }
    {
        for row in self.items.iter_mut() {
            *row = change(*row);
        }
    }

    // The place of the row of this key, or the place where it would go.
    fn place_of(&self, key: &R::Key) -> Result<usize, usize>
        requires { IsInKeyOrder R.Key.cmp R.key_of self.now }
        ensures { MatchResult result
            (λ at. position (λ row. R.Key.eq (R.key_of row) key.now) self.now ≡ Some at)
            (λ _. find (λ row. R.Key.eq (R.key_of row) key.now) self.now ≡ None) }
    {
        self.items.binary_search_by(|row| row.key().cmp(key))
    }

    // The place from which the rows have greater keys.
    fn place_after(&self, key: &R::Key) -> usize
        requires { IsInKeyOrder R.Key.cmp R.key_of self.now }
        ensures within { result ≤ length self.now }
        ensures split { IsPartitionPoint
            (λ row. is_lt (R.Key.cmp key.now (R.key_of row)) ≡ false)
            (λ row. is_lt (R.Key.cmp key.now (R.key_of row)) ≡ true) self.now result }
    {
        self.items.partition_point(|row| !(key < row.key()))
    }
}
