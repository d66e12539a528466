//! The rows in effect by their kinds.
ghost use Rattle.std.specs.Prelude.{◌≡◌, IfOk};
ghost use Rattle.opc_check_notes.specs.Kinds.{is_of, of_kind};
ghost use Rattle.opc_import.specs.declared.kind.Kind.TheVariants as kind;

use crate::numbered::NumberedRow;
use opc_import::kind::Kind;
use opc_policy_members::row::Row;
use opc_rows::Rows;
use std::alloc::{AllocError, Global};
use std::marker::Model;

fn is_of(kind: Kind, row: &Row) -> bool
    ensures { result ≡ is_of kind row.now }
{
    match kind {
        Kind::Class => matches!(row, Row::Class { .. }),
        Kind::Group => matches!(row, Row::Group { .. }),
        Kind::User => matches!(row, Row::User(_)),
        Kind::Connect => matches!(row, Row::Connect { .. }),
        Kind::Console => matches!(row, Row::Console { .. }),
        Kind::Profile => matches!(row, Row::Profile { .. }),
        Kind::Permit => matches!(row, Row::Permit { .. }),
    }
}

/// Those of these rows that are of a kind.
fn of_kind(alloc: Global, rows: &[NumberedRow], kind: Kind) -> Result<Rows<NumberedRow>, AllocError>
    ensures { IfOk result (λ list. list ≡ of_kind rows.now kind) }
{
    let mut list = Rows::new(alloc);
    for at in rows {
        if is_of(kind, &at.row) {
            list.push(*at)?;
        }
    }
    Ok(list)
}

/// Rows in order, and those of each kind, so that what is asked about one kind takes no walk through the others.
#[derive(Drop)]
pub struct ByKind {
    all: Vec<NumberedRow>,
    classes: Rows<NumberedRow>,
    groups: Rows<NumberedRow>,
    users: Rows<NumberedRow>,
    connects: Rows<NumberedRow>,
    consoles: Rows<NumberedRow>,
    profiles: Rows<NumberedRow>,
    permits: Rows<NumberedRow>,
}

impl Model for ByKind {
    ghost use Rattle.std.specs.Prelude.{List, ◌≡◌};
    ghost use Rattle.opc_check_notes.specs.declared.numbered.NumberedRow.{NumberedRow};
    ghost use Rattle.opc_import.specs.declared.kind.Kind.TheVariants as kind;
    ghost use Rattle.opc_check_notes.specs.Kinds.{of_kind};

    ghost Value = { List NumberedRow };

    ghost view = { λ k. k.all.items };

    ghost invariant = { λ k. (k.classes ≡ of_kind k.all.items kind.Class)
        × (k.groups ≡ of_kind k.all.items kind.Group)
        × (k.users ≡ of_kind k.all.items kind.User)
        × (k.connects ≡ of_kind k.all.items kind.Connect)
        × (k.consoles ≡ of_kind k.all.items kind.Console)
        × (k.profiles ≡ of_kind k.all.items kind.Profile)
        × (k.permits ≡ of_kind k.all.items kind.Permit) };
}

impl ByKind {
    /// These rows.
    pub(crate) fn from(alloc: Global, all: Vec<NumberedRow>) -> Result<Self, AllocError>
        ensures { IfOk result (λ rows. rows ≡ all.items) }
    {
        let classes = of_kind(alloc, &all, Kind::Class)?;
        let groups = of_kind(alloc, &all, Kind::Group)?;
        let users = of_kind(alloc, &all, Kind::User)?;
        let connects = of_kind(alloc, &all, Kind::Connect)?;
        let consoles = of_kind(alloc, &all, Kind::Console)?;
        let profiles = of_kind(alloc, &all, Kind::Profile)?;
        let permits = of_kind(alloc, &all, Kind::Permit)?;
        Ok(ByKind {
            all,
            classes,
            groups,
            users,
            connects,
            consoles,
            profiles,
            permits,
        })
    }

    /// Those of a kind, in order.
    pub fn of(&self, kind: Kind) -> &[NumberedRow]
        ensures { result.now ≡ of_kind self.now kind }
    {
        match kind {
            Kind::Class => self.classes.as_slice(),
            Kind::Group => self.groups.as_slice(),
            Kind::User => self.users.as_slice(),
            Kind::Connect => self.connects.as_slice(),
            Kind::Console => self.consoles.as_slice(),
            Kind::Profile => self.profiles.as_slice(),
            Kind::Permit => self.permits.as_slice(),
        }
    }
}
