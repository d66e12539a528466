//! Records of each kind, read as rows.
ghost use Rattle.std.specs.Prelude.{◌≡◌};
ghost use Rattle.csv.specs.Records.{fields_of};
ghost use Rattle.opc_names.specs.Spellings.{lookup};
ghost use Rattle.opc_import.specs.Kinds.{
  class_row,
  connect_row,
  console_row,
  group_row,
  kind_text,
  kinds,
  permit_row,
  profile_row,
  row_of,
  row_of_kind,
  user_row,
};

use crate::column::{Column, field_in, unused};
use crate::field::{
    read_activity, read_digest, read_entry_id, read_name, read_restriction, read_user_flags,
    read_warning, read_when,
};
use csv::StringRecord;
use opc_names::auth::Auth;
use opc_names::class::Class;
use opc_names::level::Level;
use opc_policy_members::row::Row;
use opc_policy_members::user::User;
use opc_terms::fault::Why;
use opc_terms::mode::Mode;

/// The most rows that a policy file has. The definition has the number; this constant is proved to equal it.
pub const MOST_ROWS: u32 = 10_000;

/// A kind of row.
#[derive(Clone, Copy)]
pub enum Kind {
    Class,
    Group,
    User,
    Connect,
    Console,
    Profile,
    Permit,
}

impl Kind {
    /// Its text in the column of kinds.
    pub fn text(self) -> &'static str
        ensures { result.now ≡ kind_text self }
    {
        match self {
            Kind::Class => "class",
            Kind::Group => "group",
            Kind::User => "user",
            Kind::Connect => "connect",
            Kind::Console => "console",
            Kind::Profile => "profile",
            Kind::Permit => "permit",
        }
    }

    /// The kind of this text.
    pub fn read(text: &str) -> Option<Self>
        ensures { result ≡ lookup kinds text.now }
    {
        match text {
            "class" => Some(Kind::Class),
            "group" => Some(Kind::Group),
            "user" => Some(Kind::User),
            "connect" => Some(Kind::Connect),
            "console" => Some(Kind::Console),
            "profile" => Some(Kind::Profile),
            "permit" => Some(Kind::Permit),
            // No other text is a kind.
            _ => None,
        }
    }
}

fn class_row(line: &StringRecord) -> Result<Row, Why>
    ensures { result ≡ class_row (fields_of line.now) }
{
    let class = Class::read(field_in(line, Column::Class)).ok_or(Why::Class)?;
    unused(line, Column::Name)?;
    unused(line, Column::Id)?;
    let active = read_activity(field_in(line, Column::Value)).ok_or(Why::Value)?;
    unused(line, Column::Owner)?;
    unused(line, Column::Flags)?;
    unused(line, Column::Digest)?;
    unused(line, Column::When)?;
    unused(line, Column::Restricted)?;
    Ok(Row::Class { class, active })
}

fn group_row(line: &StringRecord) -> Result<Row, Why>
    ensures { result ≡ group_row (fields_of line.now) }
{
    unused(line, Column::Class)?;
    let name = read_name(field_in(line, Column::Name)).ok_or(Why::Name)?;
    unused(line, Column::Id)?;
    unused(line, Column::Value)?;
    unused(line, Column::Owner)?;
    unused(line, Column::Flags)?;
    unused(line, Column::Digest)?;
    unused(line, Column::When)?;
    unused(line, Column::Restricted)?;
    Ok(Row::Group { name })
}

fn user_row(line: &StringRecord) -> Result<Row, Why>
    ensures { result ≡ user_row (fields_of line.now) }
{
    unused(line, Column::Class)?;
    let id = read_name(field_in(line, Column::Name)).ok_or(Why::Name)?;
    unused(line, Column::Id)?;
    unused(line, Column::Value)?;
    unused(line, Column::Owner)?;
    let flags = read_user_flags(field_in(line, Column::Flags)).ok_or(Why::Flags)?;
    let digest = read_digest(field_in(line, Column::Digest)).ok_or(Why::Digest)?;
    unused(line, Column::When)?;
    let restricted = read_restriction(field_in(line, Column::Restricted)).ok_or(Why::Restricted)?;
    Ok(Row::User(User {
        id,
        special: flags.special,
        auditor: flags.auditor,
        revoked: flags.revoked,
        digest,
        restricted,
    }))
}

fn connect_row(line: &StringRecord) -> Result<Row, Why>
    ensures { result ≡ connect_row (fields_of line.now) }
{
    unused(line, Column::Class)?;
    let user = read_name(field_in(line, Column::Name)).ok_or(Why::Name)?;
    let group = read_name(field_in(line, Column::Id)).ok_or(Why::Id)?;
    unused(line, Column::Value)?;
    unused(line, Column::Owner)?;
    unused(line, Column::Flags)?;
    unused(line, Column::Digest)?;
    unused(line, Column::When)?;
    unused(line, Column::Restricted)?;
    Ok(Row::Connect { user, group })
}

fn console_row(line: &StringRecord) -> Result<Row, Why>
    ensures { result ≡ console_row (fields_of line.now) }
{
    unused(line, Column::Class)?;
    let name = read_name(field_in(line, Column::Name)).ok_or(Why::Name)?;
    unused(line, Column::Id)?;
    let auth = Auth::read(field_in(line, Column::Value)).ok_or(Why::Value)?;
    unused(line, Column::Owner)?;
    let mode = Mode::read(field_in(line, Column::Flags)).ok_or(Why::Flags)?;
    unused(line, Column::Digest)?;
    unused(line, Column::When)?;
    unused(line, Column::Restricted)?;
    Ok(Row::Console { name, auth, mode })
}

fn profile_row(line: &StringRecord) -> Result<Row, Why>
    ensures { result ≡ profile_row (fields_of line.now) }
{
    let class = Class::read(field_in(line, Column::Class)).ok_or(Why::Class)?;
    let pattern = read_name(field_in(line, Column::Name)).ok_or(Why::Name)?;
    unused(line, Column::Id)?;
    let uacc = Level::read(field_in(line, Column::Value)).ok_or(Why::Value)?;
    let owner = read_name(field_in(line, Column::Owner)).ok_or(Why::Owner)?;
    let warning = read_warning(field_in(line, Column::Flags)).ok_or(Why::Flags)?;
    unused(line, Column::Digest)?;
    unused(line, Column::When)?;
    unused(line, Column::Restricted)?;
    Ok(Row::Profile {
        class,
        pattern,
        uacc,
        owner,
        warning,
    })
}

fn permit_row(line: &StringRecord) -> Result<Row, Why>
    ensures { result ≡ permit_row (fields_of line.now) }
{
    let class = Class::read(field_in(line, Column::Class)).ok_or(Why::Class)?;
    let pattern = read_name(field_in(line, Column::Name)).ok_or(Why::Name)?;
    let id = read_entry_id(field_in(line, Column::Id)).ok_or(Why::Id)?;
    let level = Level::read(field_in(line, Column::Value)).ok_or(Why::Value)?;
    unused(line, Column::Owner)?;
    unused(line, Column::Flags)?;
    unused(line, Column::Digest)?;
    let when = read_when(field_in(line, Column::When)).ok_or(Why::When)?;
    unused(line, Column::Restricted)?;
    Ok(Row::Permit {
        class,
        pattern,
        id,
        level,
        when,
    })
}

fn row_of_kind(kind: Kind, line: &StringRecord) -> Result<Row, Why>
    ensures { result ≡ row_of_kind kind (fields_of line.now) }
{
    match kind {
        Kind::Class => class_row(line),
        Kind::Group => group_row(line),
        Kind::User => user_row(line),
        Kind::Connect => connect_row(line),
        Kind::Console => console_row(line),
        Kind::Profile => profile_row(line),
        Kind::Permit => permit_row(line),
    }
}

/// The row that a record is, as the data record of this number in a file of this many columns, or what is wrong with it
/// first.
pub(crate) fn row_of(width: usize, number: u32, line: &StringRecord) -> Result<Row, Why>
    ensures { result ≡ row_of width number (fields_of line.now) }
{
    if line.len() != width {
        return Err(Why::Columns);
    }
    if number > MOST_ROWS {
        return Err(Why::Many);
    }
    let kind = Kind::read(field_in(line, Column::Kind)).ok_or(Why::Kind)?;
    row_of_kind(kind, line)
}
