//! What is wrong with a row, in words.
ghost use Rattle.std.specs.Prelude.{◌≡◌, IfOk, length, string_bytes};
ghost use Rattle.std.specs.Option.{option_map};
ghost use Rattle.csv.specs.Records.{fields_of};
ghost use Rattle.opc_check.specs.Words.{
  bad_text,
  column_of,
  columns_text,
  count_text,
  field_text,
  kind_misfit,
  kind_of,
  misfit,
  misfit_text,
  quoting_text,
  text_by,
  whole_text,
};

use crate::quoted::shown_field;
use csv::StringRecord;
use opc_import::column::{COLUMNS, Column, field_in};
use opc_import::kind::Kind;
use opc_terms::fault::Why;
use std::alloc::{AllocError, Global};

/// The column whose field is bad, if only one is.
pub(crate) fn column_of(why: Why) -> Option<Column>
    ensures { result ≡ column_of why }
{
    match why {
        Why::Header | Why::Columns | Why::Many => None,
        Why::Kind => Some(Column::Kind),
        Why::Class => Some(Column::Class),
        Why::Name => Some(Column::Name),
        Why::Id => Some(Column::Id),
        Why::Value => Some(Column::Value),
        Why::Owner => Some(Column::Owner),
        Why::Flags => Some(Column::Flags),
        Why::Digest => Some(Column::Digest),
        Why::When => Some(Column::When),
        Why::Restricted => Some(Column::Restricted),
    }
}

fn kind_of(line: &StringRecord) -> Option<Kind>
    ensures { result ≡ kind_of (fields_of line.now) }
{
    Kind::read(field_in(line, Column::Kind))
}

fn class_misfit(kind: Kind) -> Option<&'static str>
    ensures { option_map (λ text. text.now) result ≡ misfit Column.Class kind }
{
    match kind {
        Kind::Class | Kind::Profile | Kind::Permit => Some("is neither CONSOLE nor OPERCMDS"),
        Kind::Group | Kind::User | Kind::Connect | Kind::Console => None,
    }
}

fn name_misfit(kind: Kind) -> Option<&'static str>
    ensures { option_map (λ text. text.now) result ≡ misfit Column.Name kind }
{
    match kind {
        Kind::User | Kind::Connect => Some("is not a valid user name"),
        Kind::Group => Some("is not a valid group name"),
        Kind::Console => Some("is not a valid console name"),
        Kind::Profile | Kind::Permit => Some("is not a valid pattern"),
        Kind::Class => None,
    }
}

fn id_misfit(kind: Kind) -> Option<&'static str>
    ensures { option_map (λ text. text.now) result ≡ misfit Column.Id kind }
{
    match kind {
        Kind::Connect => Some("is not a valid group name"),
        Kind::Permit => Some("is neither * nor the name of a user or group"),
        Kind::Class | Kind::Group | Kind::User | Kind::Console | Kind::Profile => None,
    }
}

fn value_misfit(kind: Kind) -> Option<&'static str>
    ensures { option_map (λ text. text.now) result ≡ misfit Column.Value kind }
{
    match kind {
        Kind::Class => Some("is neither ACTIVE nor INACTIVE"),
        Kind::Console => Some("is not a valid authority"),
        Kind::Profile | Kind::Permit => Some("is not a valid level"),
        Kind::Group | Kind::User | Kind::Connect => None,
    }
}

fn flags_misfit(kind: Kind) -> Option<&'static str>
    ensures { option_map (λ text. text.now) result ≡ misfit Column.Flags kind }
{
    match kind {
        Kind::User => Some("must be any of S, A and R, in this order"),
        Kind::Console => Some("are neither OPTIONAL, REQUIRED nor AUTO"),
        Kind::Profile => Some("are neither empty nor W"),
        Kind::Class | Kind::Group | Kind::Connect | Kind::Permit => None,
    }
}

fn owner_misfit(kind: Kind) -> Option<&'static str>
    ensures { option_map (λ text. text.now) result ≡ misfit Column.Owner kind }
{
    match kind {
        Kind::Profile => Some("is not a valid user name"),
        Kind::Class | Kind::Group | Kind::User | Kind::Connect | Kind::Console | Kind::Permit => {
            None
        }
    }
}

fn digest_misfit(kind: Kind) -> Option<&'static str>
    ensures { option_map (λ text. text.now) result ≡ misfit Column.Digest kind }
{
    match kind {
        Kind::User => Some("is not 64 of the characters 0 to 9 and a to f"),
        Kind::Class | Kind::Group | Kind::Connect | Kind::Console | Kind::Profile | Kind::Permit =>
            { None }
    }
}

fn when_misfit(kind: Kind) -> Option<&'static str>
    ensures { option_map (λ text. text.now) result ≡ misfit Column.When kind }
{
    match kind {
        Kind::Permit => Some("is not a valid console name"),
        Kind::Class | Kind::Group | Kind::User | Kind::Connect | Kind::Console | Kind::Profile => {
            None
        }
    }
}

fn restricted_misfit(kind: Kind) -> Option<&'static str>
    ensures { option_map (λ text. text.now) result ≡ misfit Column.Restricted kind }
{
    match kind {
        Kind::User => Some("is neither empty nor Y"),
        Kind::Class | Kind::Group | Kind::Connect | Kind::Console | Kind::Profile | Kind::Permit =>
            { None }
    }
}

/// What is wrong with a field that does not fit the kind; none if rows of the kind have no field in the column.
fn misfit(column: Column, kind: Kind) -> Option<&'static str>
    ensures { option_map (λ text. text.now) result ≡ misfit column kind }
{
    match column {
        // Each kind has its name there.
        Column::Kind => None,
        Column::Class => class_misfit(kind),
        Column::Name => name_misfit(kind),
        Column::Id => id_misfit(kind),
        Column::Value => value_misfit(kind),
        Column::Owner => owner_misfit(kind),
        Column::Flags => flags_misfit(kind),
        Column::Digest => digest_misfit(kind),
        Column::When => when_misfit(kind),
        Column::Restricted => restricted_misfit(kind),
    }
}

fn misfit_text(
    alloc: Global,
    column: Column,
    kind: Kind,
    words: Option<&'static str>,
) -> Result<String, AllocError>
    ensures { IfOk result (λ text. string_bytes text
        ≡ misfit_text column kind (option_map (λ text. text.now) words.entry)) }
{
    match words {
        Some(words) => format!(in alloc; "the {} {words}", column.name()),
        None => format!(in alloc; "a {} row has no {}", kind.text(), column.name()),
    }
}

fn kind_misfit(alloc: Global, column: Column, kind: Option<Kind>) -> Result<String, AllocError>
    ensures { IfOk result (λ text. string_bytes text ≡ kind_misfit column kind) }
{
    match kind {
        Some(kind) => {
            let words = misfit(column, kind);
            misfit_text(alloc, column, kind, words)
        }
        None => format!(in alloc; "there is no such {}", column.name()),
    }
}

fn field_text(alloc: Global, column: Column, line: &StringRecord) -> Result<String, AllocError>
    ensures { IfOk result (λ text. string_bytes text ≡ field_text column (fields_of line.now)) }
{
    let misfit = kind_misfit(alloc, column, kind_of(line))?;
    let shown = shown_field(alloc, column, field_in(line, column))?;
    format!(in alloc; "{misfit}: {shown}")
}

fn count_text(alloc: Global, count: usize) -> Result<String, AllocError>
    ensures { IfOk result (λ text. string_bytes text ≡ count_text count) }
{
    if count == 1 {
        String::from_str(alloc, "it has 1 column")
    } else if count > COLUMNS.len() {
        String::from_str(alloc, "it has more than 10 columns")
    } else {
        format!(in alloc; "it has {count} columns")
    }
}

/// How a field is quoted, if a record has too many columns: an authority has commas.
fn quoting_text(width: usize, count: usize) -> &'static str
    ensures { result.now ≡ quoting_text width count }
{
    if count > width {
        "; quote a field that has a comma: \"SYS,IO\""
    } else {
        ""
    }
}

fn columns_text(alloc: Global, width: usize, count: usize) -> Result<String, AllocError>
    ensures { IfOk result (λ text. string_bytes text ≡ columns_text width count) }
{
    let counted = count_text(alloc, count)?;
    let quoting = quoting_text(width, count);
    format!(in alloc; "{counted} and not {width}{quoting}")
}

/// What is wrong with a record as a whole.
fn whole_text(
    alloc: Global,
    width: usize,
    line: &StringRecord,
    why: Why,
) -> Result<String, AllocError>
    ensures { IfOk result (λ text. string_bytes text ≡ whole_text width (fields_of line.now) why) }
{
    match why {
        Why::Many => String::from_str(alloc, "there are more than 10,000 rows"),
        Why::Header => String::from_str(alloc, "the first row is not the header"),
        Why::Columns
        | Why::Kind
        | Why::Class
        | Why::Name
        | Why::Id
        | Why::Value
        | Why::Owner
        | Why::Flags
        | Why::Digest
        | Why::When
        | Why::Restricted => columns_text(alloc, width, line.len()),
    }
}

/// The same, or of the column whose field is bad.
fn text_by(
    alloc: Global,
    width: usize,
    line: &StringRecord,
    why: Why,
    column: Option<Column>,
) -> Result<String, AllocError>
    ensures { IfOk result (λ text. string_bytes text ≡ text_by width (fields_of line.now) why column) }
{
    match column {
        Some(column) => field_text(alloc, column, line),
        None => whole_text(alloc, width, line, why),
    }
}

/// What is wrong with a record in a file whose rows have this many fields.
pub(crate) fn bad_text(
    alloc: Global,
    width: usize,
    line: &StringRecord,
    why: Why,
) -> Result<String, AllocError>
    ensures { IfOk result (λ text. string_bytes text ≡ bad_text width (fields_of line.now) why) }
{
    let column = column_of(why);
    text_by(alloc, width, line, why, column)
}
