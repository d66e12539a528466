//! Columns of rows, read back.
ghost use Rattle.std.specs.Prelude.{◌≡◌, ℕ, List, Option, IfOk, map, pos};
ghost use Rattle.std.specs.Option.{option_copied};
ghost use Rattle.sqlite.specs.Order.{column};
ghost use Rattle.sqlite.specs.declared.types.Value.{Value as TheValue};
ghost use Rattle.sqlite.specs.declared.types.Value.TheVariants.{Int, Text};
ghost use Rattle.opc_store_schema.specs.Represented.{text_or_null, reply_shown};
ghost use Rattle.opc_board.specs.declared.rows.ReplyRow.{ReplyRow as TheReply};

use crate::faults::{fault, unreadable};
use opc_board::rows::ReplyRow;
use opc_board::text::KeptText;
use opc_names::name::{Name, NameKind};
use opc_names::reply_id::ReplyId;
use opc_rows::Rows;
use opc_terms::store_fault::StoreFault;
use sqlite::Row;
use sqlite::types::{FromSql, ValueRef};
use std::alloc::Global;
use std::str;

/// A column of a row, as a value of this type.
pub fn value_in<V: FromSql>(row: &Row, at: usize) -> Result<V, StoreFault>
    ensures { IfOk result (V.FromSql.reads_as (column row.now at)) }
{
    match row.get(at) {
        Ok(value) => Ok(value),
        Err(error) => Err(fault(error)),
    }
}

/// A table whose rows keep members.
pub trait TableRow<M> {
    ghost row_of: { M → List TheValue };

    /// The member that is kept in a row.
    fn decode(row: &Row) -> Result<M, StoreFault>
        ensures { (x : M) → row.now ≡ row_of x → IfOk result (λ v. v ≡ x) };
}

/// The members that are kept in some rows, in their order.
pub fn decode_all<M: Drop, T: TableRow<M>>(
    alloc: Global,
    rows: &[Row],
) -> Result<Rows<M>, StoreFault>
    ensures { (xs : List M) → rows.now ≡ map T.row_of xs → IfOk result (λ v. v ≡ xs) }
{
    let mut members = Rows::new(alloc);
    for row in rows {
        members.push(T::decode(row)?)?;
    }
    Ok(members)
}

fn text_of(bytes: &[u8]) -> Result<&str, StoreFault>
    ensures { IfOk result (λ text. text.now ≡ bytes.now) }
{
    match str::from_utf8(bytes) {
        Ok(text) => Ok(text),
        Err(_) => Err(unreadable()),
    }
}

/// The text of a column, as a slice of the row.
pub fn text_at(row: &Row, at: usize) -> Result<&str, StoreFault>
    ensures { (text : List ℕ) → column row.now at ≡ Text text → IfOk result (λ v. v.now ≡ text) }
{
    match row.get_ref(at) {
        Ok(ValueRef::Text(bytes)) => text_of(bytes),
        // Only damaged tables have another type here.
        _ => Err(unreadable()),
    }
}

// The text of a column, or none if it is missing.
fn text_or_none_at(row: &Row, at: usize) -> Result<Option<&str>, StoreFault>
    ensures { (text : Option (List ℕ)) → column row.now at ≡ text_or_null text
        → IfOk result (λ v. option_copied v ≡ text) }
{
    match row.get_ref(at) {
        Ok(ValueRef::Null) => Ok(None),
        Ok(ValueRef::Text(bytes)) => Ok(Some(text_of(bytes)?)),
        // Only damaged tables have another type here.
        _ => Err(unreadable()),
    }
}

/// A name of this kind.
pub fn name_in<K: NameKind<N>, const N: usize>(
    row: &Row,
    at: usize,
) -> Result<Name<K, N>, StoreFault>
    ensures { (name : List ℕ) → column row.now at ≡ Text name → IfOk result (λ v. v ≡ name) }
{
    match Name::read(text_at(row, at)?) {
        Ok(name) => Ok(name),
        Err(_) => Err(unreadable()),
    }
}

/// A name of this kind, or none if it is missing.
pub fn name_or_none_in<K: NameKind<N>, const N: usize>(
    row: &Row,
    at: usize,
) -> Result<Option<Name<K, N>>, StoreFault>
    ensures { (name : Option (List ℕ)) → column row.now at ≡ text_or_null name → IfOk result (λ v. v ≡ name) }
{
    match text_or_none_at(row, at)? {
        Some(text) => match Name::read(text) {
            Ok(name) => Ok(Some(name)),
            Err(_) => Err(unreadable()),
        },
        None => Ok(None),
    }
}

/// A text.
pub fn text_in(row: &Row, at: usize) -> Result<KeptText, StoreFault>
    ensures { (text : List ℕ) → column row.now at ≡ Text text → IfOk result (λ v. v ≡ text) }
{
    let text: String = value_in(row, at)?;
    Ok(KeptText::from(text))
}

/// A text, or none if it is missing.
pub fn text_or_none_in(row: &Row, at: usize) -> Result<Option<KeptText>, StoreFault>
    ensures { (text : Option (List ℕ)) → column row.now at ≡ text_or_null text → IfOk result (λ v. v ≡ text) }
{
    let text: Option<String> = value_in(row, at)?;
    match text {
        Some(text) => Ok(Some(KeptText::from(text))),
        None => Ok(None),
    }
}

fn reply_id_in(row: &Row) -> Result<ReplyId, StoreFault>
    ensures { (id : ℕ) → column row.now 0 ≡ Int (pos id) → IfOk result (λ v. v ≡ id) }
{
    let Ok(number) = u8::try_from(value_in::<u32>(row, 0)?) else {
        return Err(unreadable());
    };
    match ReplyId::new(number) {
        Some(id) => Ok(id),
        None => Err(unreadable()),
    }
}

/// A reply, open or answered: its number and its text.
pub fn reply_in(row: &Row) -> Result<ReplyRow, StoreFault>
    ensures { (reply : TheReply) → row.now ≡ reply_shown reply → IfOk result (λ v. v ≡ reply) }
{
    Ok(ReplyRow {
        id: reply_id_in(row)?,
        text: text_in(row, 1)?,
    })
}

/// The number of a reply, as a column holds it.
pub fn reply_number(id: ReplyId) -> u32
    ensures { result ≡ id }
{
    u32::from(id.number())
}
