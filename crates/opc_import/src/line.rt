//! Rows as records.
ghost use Rattle.std.specs.Prelude.{◌≡◌, [], OnOk, Some};
ghost use Rattle.csv.specs.Records.{fields_of, partial_of};
ghost use Rattle.hex.specs.Hex.{encode_lower};
ghost use Rattle.opc_import.specs.Columns.{header};
ghost use Rattle.opc_import.specs.Fields.{digest_of};
ghost use Rattle.opc_import.specs.Lines.{AddsField};
ghost use Rattle.opc_import.specs.Rows.{
  IsValid,
  IsValidIn,
  activity_text,
  flags_text,
  kind_of,
  record_of,
  restriction_text,
  text_in,
  warning_text,
};
ghost use Rattle.opc_import.specs.declared.column.Column.TheVariants as column;

use crate::column::COLUMNS;
use crate::kind::Kind;
use csv::ByteRecord;
use opc_policy_members::row::Row;
use opc_policy_members::user::User;
use std::alloc::AllocError;

fn kind_of(row: &Row) -> Kind
    ensures { result ≡ kind_of row.now }
{
    match row {
        Row::Class { .. } => Kind::Class,
        Row::Group { .. } => Kind::Group,
        Row::User(_) => Kind::User,
        Row::Connect { .. } => Kind::Connect,
        Row::Console { .. } => Kind::Console,
        Row::Profile { .. } => Kind::Profile,
        Row::Permit { .. } => Kind::Permit,
    }
}

fn activity_text(active: bool) -> &'static str
    ensures { result.now ≡ activity_text active }
{
    if active { "ACTIVE" } else { "INACTIVE" }
}

fn warning_text(warning: bool) -> &'static str
    ensures { result.now ≡ warning_text warning }
{
    if warning { "W" } else { "" }
}

fn restriction_text(restricted: bool) -> &'static str
    ensures { result.now ≡ restriction_text restricted }
{
    if restricted { "Y" } else { "" }
}

fn flags_text(user: &User) -> &'static str
    ensures { result.now ≡ flags_text user.now }
{
    match (user.special, user.auditor, user.revoked) {
        (false, false, false) => "",
        (true, false, false) => "S",
        (false, true, false) => "A",
        (false, false, true) => "R",
        (true, true, false) => "SA",
        (true, false, true) => "SR",
        (false, true, true) => "AR",
        (true, true, true) => "SAR",
    }
}

fn class_in(row: &Row) -> &str
    ensures { result.now ≡ text_in column.Class row.now }
{
    match row {
        Row::Class { class, .. } | Row::Profile { class, .. } | Row::Permit { class, .. } => {
            class.text()
        }
        Row::Group { .. } | Row::User(_) | Row::Connect { .. } | Row::Console { .. } => "",
    }
}

fn name_in(row: &Row) -> &str
    ensures text { result.now ≡ text_in column.Name row.now }
    ensures valid { IsValidIn column.Name row.now }
{
    match row {
        Row::Class { .. } => "",
        Row::Group { name } => name.text(),
        Row::User(user) => user.id.text(),
        Row::Connect { user, .. } => user.text(),
        Row::Console { name, .. } => name.text(),
        Row::Profile { pattern, .. } | Row::Permit { pattern, .. } => pattern.text(),
    }
}

fn id_in(row: &Row) -> &str
    ensures text { result.now ≡ text_in column.Id row.now }
    ensures valid { IsValidIn column.Id row.now }
{
    match row {
        Row::Connect { group, .. } => group.text(),
        Row::Permit { id, .. } => id.text(),
        Row::Class { .. }
        | Row::Group { .. }
        | Row::User(_)
        | Row::Console { .. }
        | Row::Profile { .. } => "",
    }
}

fn value_in(row: &Row) -> &str
    ensures { result.now ≡ text_in column.Value row.now }
{
    match row {
        Row::Class { active, .. } => activity_text(*active),
        Row::Console { auth, .. } => auth.text(),
        Row::Profile { uacc, .. } => uacc.text(),
        Row::Permit { level, .. } => level.text(),
        Row::Group { .. } | Row::User(_) | Row::Connect { .. } => "",
    }
}

fn owner_in(row: &Row) -> &str
    ensures text { result.now ≡ text_in column.Owner row.now }
    ensures valid { IsValidIn column.Owner row.now }
{
    match row {
        Row::Profile { owner, .. } => owner.text(),
        Row::Class { .. }
        | Row::Group { .. }
        | Row::User(_)
        | Row::Connect { .. }
        | Row::Console { .. }
        | Row::Permit { .. } => "",
    }
}

fn flags_in(row: &Row) -> &str
    ensures { result.now ≡ text_in column.Flags row.now }
{
    match row {
        Row::User(user) => flags_text(user),
        Row::Console { mode, .. } => mode.text(),
        Row::Profile { warning, .. } => warning_text(*warning),
        Row::Class { .. } | Row::Group { .. } | Row::Connect { .. } | Row::Permit { .. } => "",
    }
}

fn when_in(row: &Row) -> &str
    ensures text { result.now ≡ text_in column.When row.now }
    ensures valid { IsValidIn column.When row.now }
{
    match row {
        Row::Permit {
            when: Some(console),
            ..
        } => console.text(),
        // The entry is for every console, or the row is of another kind.
        _ => "",
    }
}

fn restricted_in(row: &Row) -> &str
    ensures { result.now ≡ text_in column.Restricted row.now }
{
    match row {
        Row::User(user) => restriction_text(user.restricted),
        // Only a user's row has this field.
        _ => "",
    }
}

// Adds a field to a record.
fn push(line: &mut ByteRecord, field: &[u8]) -> Result<(), AllocError>
    requires { partial_of line.old ≡ [] }
    ensures { OnOk result (AddsField line.old line.new field.now) }
{
    line.push_field(field)
}

// Adds the digits of a digest.
fn push_digits(line: &mut ByteRecord, digest: &[u8; 32]) -> Result<(), AllocError>
    requires { partial_of line.old ≡ [] }
    ensures added { OnOk result (AddsField line.old line.new (encode_lower digest.now)) }
    ensures valid { digest_of (encode_lower digest.now) ≡ Some (Some digest.now) }
{
    let mut digits = [0; 64];
    match hex::encode_to_slice(digest.as_slice(), &mut digits) {
        Ok(()) => push(line, &digits),
        // 32 bytes have exactly 64 digits.
        Err(_) => unreachable!(),
    }
}

// Adds the digest of a row.
fn push_digest(line: &mut ByteRecord, row: &Row) -> Result<(), AllocError>
    requires { partial_of line.old ≡ [] }
    ensures added { OnOk result (AddsField line.old line.new (text_in column.Digest row.now)) }
    ensures valid { IsValidIn column.Digest row.now }
{
    match row {
        Row::User(
            User {
                digest: Some(digest),
                ..
            },
        ) => push_digits(line, digest),
        // The user has no digest, or the row is of another kind.
        _ => push(line, b""),
    }
}

// Makes a record that of a row.
pub(crate) fn fill(line: &mut ByteRecord, row: &Row) -> Result<(), AllocError>
    ensures fields { OnOk result (fields_of line.new ≡ record_of row.now) }
    ensures valid { OnOk result (IsValid row.now) }
{
    line.clear();
    push(line, kind_of(row).text().as_bytes())?;
    push(line, class_in(row).as_bytes())?;
    push(line, name_in(row).as_bytes())?;
    push(line, id_in(row).as_bytes())?;
    push(line, value_in(row).as_bytes())?;
    push(line, owner_in(row).as_bytes())?;
    push(line, flags_in(row).as_bytes())?;
    push_digest(line, row)?;
    push(line, when_in(row).as_bytes())?;
    push(line, restricted_in(row).as_bytes())
}

// Makes a record the header.
pub(crate) fn fill_header(line: &mut ByteRecord) -> Result<(), AllocError>
    ensures { OnOk result (fields_of line.new ≡ header) }
{
    line.clear();
    for column in COLUMNS {
        push(line, column.name().as_bytes())?;
    }
    Ok(())
}
