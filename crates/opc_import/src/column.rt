//! The columns of a policy file.
ghost use Rattle.std.specs.Prelude.{◌≡◌};
ghost use Rattle.csv.specs.Records.{fields_of};
ghost use Rattle.opc_import.specs.Columns.{column_name, field_in, has_names, is_header, reason, unused, width_of};

use csv::StringRecord;
use opc_terms::fault::Why;

/// A column of a policy file.
#[derive(Clone, Copy)]
pub enum Column {
    Kind,
    Class,
    Name,
    Id,
    Value,
    Owner,
    Flags,
    Digest,
    When,
    Restricted,
}

/// The columns, from left to right.
pub const COLUMNS: [Column; 10] = [
    Column::Kind,
    Column::Class,
    Column::Name,
    Column::Id,
    Column::Value,
    Column::Owner,
    Column::Flags,
    Column::Digest,
    Column::When,
    Column::Restricted,
];

/// The columns of a file without conditional entries and RESTRICTED users.
pub const FIRST_COLUMNS: [Column; 8] = [
    Column::Kind,
    Column::Class,
    Column::Name,
    Column::Id,
    Column::Value,
    Column::Owner,
    Column::Flags,
    Column::Digest,
];

impl Column {
    /// Its name in the header.
    pub fn name(self) -> &'static str
        ensures { result.now ≡ column_name self }
    {
        match self {
            Column::Kind => "kind",
            Column::Class => "class",
            Column::Name => "name",
            Column::Id => "id",
            Column::Value => "value",
            Column::Owner => "owner",
            Column::Flags => "flags",
            Column::Digest => "digest",
            Column::When => "when",
            Column::Restricted => "restricted",
        }
    }

    // What is wrong with a row whose field in this column is bad.
    fn reason(self) -> Why
        ensures { result ≡ reason self }
    {
        match self {
            Column::Kind => Why::Kind,
            Column::Class => Why::Class,
            Column::Name => Why::Name,
            Column::Id => Why::Id,
            Column::Value => Why::Value,
            Column::Owner => Why::Owner,
            Column::Flags => Why::Flags,
            Column::Digest => Why::Digest,
            Column::When => Why::When,
            Column::Restricted => Why::Restricted,
        }
    }
}

/// The field of a record in a column, empty if the record is too short.
pub fn field_in(line: &StringRecord, column: Column) -> &str
    ensures { result.now ≡ field_in column (fields_of line.now) }
{
    line.get(column as usize).unwrap_or("")
}

// Checks that a column that the row's kind does not use is empty.
pub(crate) fn unused(line: &StringRecord, column: Column) -> Result<(), Why>
    ensures { result ≡ unused column (fields_of line.now) }
{
    if field_in(line, column).is_empty() {
        Ok(())
    } else {
        Err(column.reason())
    }
}

/// How many fields the rows below a header have, if a record is one: with all columns, or with the first alone.
pub(crate) fn width_of(line: &StringRecord) -> Option<usize>
    ensures { result ≡ width_of (fields_of line.now) }
{
    if is_header(&COLUMNS, line) {
        Some(COLUMNS.len())
    } else if is_header(&FIRST_COLUMNS, line) {
        Some(FIRST_COLUMNS.len())
    } else {
        None
    }
}

// Whether a record is the header of these columns.
fn is_header(columns: &[Column], line: &StringRecord) -> bool
    ensures { result ≡ is_header columns.now (fields_of line.now) }
{
    line.len() == columns.len() && has_names(columns, line)
}

// Whether each column's field is its name.
fn has_names(columns: &[Column], line: &StringRecord) -> bool
    ensures { result ≡ has_names columns.now (fields_of line.now) }
{
    columns
        .iter()
        .all(|column| field_in(line, *column) == column.name())
}
