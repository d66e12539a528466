//! The numbers of rows.
ghost use Rattle.std.specs.Prelude.{◌≡◌, ◌^◌, ◌<◌, ℕ, pos};
ghost use Rattle.sqlite.specs.Held.{state};

use sqlite::{Alter, Transaction};

/// The number of the row that was inserted last. SQLite gave it, so it is one that a table can hold. Read for each row
/// that is added to a history: SQLite gives a number only if it has one, so no history outgrows its table.
pub fn last_number<S: Alter>(tx: &Transaction<'_, S>) -> i64
    ensures number { result ≡ (state S.Store tx.now.conn.now).last_rowid }
    ensures fits { (n : ℕ) → (state S.Store tx.now.conn.now).last_rowid ≡ pos n → n < 2 ^ 63 }
{
    tx.last_insert_rowid()
}
