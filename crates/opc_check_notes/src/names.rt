//! The names that rows give.
ghost use Rattle.std.specs.Prelude.{◌≡◌, ◌≤◌, ℕ, List, IfOk, filter_map, is_some, length};
ghost use Rattle.std.specs.List.{list_any};
ghost use Rattle.std.specs.List.Sorted.{IsSorted};
ghost use Rattle.std.specs.Str.{bytes_eq};
ghost use Rattle.opc_policy_members.specs.Members.{name_cmp};
ghost use Rattle.opc_check_notes.specs.declared.numbered.NumberedRow.{NumberedRow as Numbered};
ghost use Rattle.opc_check_notes.specs.Named.{HasNames, count, giving, named};

use crate::kinds::ByKind;
use crate::numbered::NumberedRow;
use crate::sorted_pairs::push_if;
use opc_import::kind::Kind;
use opc_names::auth::Auth;
use opc_names::bytes::Bytes;
use opc_policy_members::row::Row;
use opc_terms::mode::Mode;
use std::alloc::{AllocError, Global};
use std::marker::Model;

/// A name that rows give: that of a user, of a revoked one, of one with SPECIAL or AUDITOR who is not revoked, of the
/// user or of the group of a connect, of a group, of whom an entry is for, of an AUTO console, or of one with AUTH
/// MASTER.
#[derive(Clone, Copy)]
pub enum Given {
    User,
    Revoked,
    Special,
    Auditor,
    ConnectedUser,
    ConnectedGroup,
    Group,
    Holder,
    AutoConsole,
    MasterConsole,
}

/// The bytes of a name, which compare faster than a text.
pub fn copied(text: &str) -> Bytes<8>
    requires { length text.now ≤ 8 }
    ensures { result ≡ text.now }
{
    Bytes::copied(text.as_bytes())
}

/// The name of this kind that a row gives.
fn named(given: Given, row: &Row) -> Option<Bytes<8>>
    ensures { result ≡ named given row.now }
{
    match (given, row) {
        (Given::User, Row::User(user)) => Some(copied(user.id.text())),
        (Given::Revoked, Row::User(user)) if user.revoked => Some(copied(user.id.text())),
        (Given::Special, Row::User(user)) if user.special && !user.revoked => {
            Some(copied(user.id.text()))
        }
        (Given::Auditor, Row::User(user)) if user.auditor && !user.revoked => {
            Some(copied(user.id.text()))
        }
        (Given::ConnectedUser, Row::Connect { user, .. }) => Some(copied(user.text())),
        (Given::ConnectedGroup, Row::Connect { group, .. }) => Some(copied(group.text())),
        (Given::Group, Row::Group { name }) => Some(copied(name.text())),
        (Given::Holder, Row::Permit { id, .. }) => Some(copied(id.text())),
        (
            Given::AutoConsole,
            Row::Console {
                name,
                mode: Mode::Auto,
                ..
            },
        ) => { Some(copied(name.text())) }
        (
            Given::MasterConsole,
            Row::Console {
                name,
                auth: Auth::Master,
                ..
            },
        ) => Some(copied(name.text())),
        // No other row gives a name of this kind.
        _ => None,
    }
}

/// The kind of the rows that give a name.
fn giving(given: Given) -> Kind
    ensures { result ≡ giving given }
{
    match given {
        Given::User | Given::Revoked | Given::Special | Given::Auditor => Kind::User,
        Given::ConnectedUser | Given::ConnectedGroup => Kind::Connect,
        Given::Group => Kind::Group,
        Given::Holder => Kind::Permit,
        Given::AutoConsole | Given::MasterConsole => Kind::Console,
    }
}

/// Whether a name is among sorted ones.
fn is_among(names: &[Bytes<8>], name: &str) -> bool
    requires short { length name.now ≤ 8 }
    requires sorted { IsSorted name_cmp names.now }
    ensures { result ≡ list_any (λ (n : List ℕ). bytes_eq n name.now) names.now }
{
    names.binary_search(&copied(name)).is_ok()
}

/// Names in their order, which are looked up by it.
#[derive(Drop)]
pub(crate) struct SortedNames {
    sorted: Vec<Bytes<8>>,
}

impl Model for SortedNames {
    ghost use Rattle.std.specs.Prelude.{ℕ, List};
    ghost use Rattle.std.specs.List.Sorted.{IsSorted};
    ghost use Rattle.opc_policy_members.specs.Members.{name_cmp};

    ghost Value = { List (List ℕ) };

    ghost view = { λ names. names.sorted.items };

    ghost invariant = { λ names. IsSorted name_cmp names.sorted.items };
}

impl SortedNames {
    /// Whether a name is among them.
    pub(crate) fn has(&self, name: &str) -> bool
        requires { length name.now ≤ 8 }
        ensures { result ≡ list_any (λ (n : List ℕ). bytes_eq n name.now) self.now }
    {
        is_among(&self.sorted, name)
    }
}

/// The names of this kind that these rows give, in their order.
fn given_by(alloc: Global, rows: &[NumberedRow], given: Given) -> Result<Vec<Bytes<8>>, AllocError>
    ensures { IfOk result (λ list. list.items ≡ filter_map (λ (at : Numbered). named given at.row) rows.now) }
{
    let mut list = Vec::new(alloc);
    for at in rows {
        push_if(&mut list, named(given, &at.row))?;
    }
    Ok(list)
}

/// The names of this kind.
pub(crate) fn names(alloc: Global, rows: &ByKind, given: Given) -> Result<SortedNames, AllocError>
    ensures { IfOk result (λ names. HasNames rows.now given names) }
{
    let mut sorted = given_by(alloc, rows.of(giving(given)), given)?;
    sorted.sort()?;
    Ok(SortedNames { sorted })
}

/// Whether a row gives a name of this kind.
fn gives(given: Given, row: &Row) -> bool
    ensures { result ≡ is_some (named given row.now) }
{
    named(given, row).is_some()
}

fn count_among(rows: &[NumberedRow], given: Given) -> usize
    ensures { result ≡ count rows.now given }
{
    rows.iter().filter(|at| gives(given, &at.row)).count()
}

/// How many rows give one.
pub fn count(rows: &ByKind, given: Given) -> usize
    ensures { result ≡ count rows.now given }
{
    count_among(rows.of(giving(given)), given)
}
