//! Notes on profiles, classes and consoles.
ghost use Rattle.std.specs.Prelude.{◌≡◌};
ghost use Rattle.std.specs.List.{list_any};
ghost use Rattle.opc_names.specs.Authority.{same_class};
ghost use Rattle.opc_check_notes.specs.declared.numbered.NumberedRow.{NumberedRow as Numbered};
ghost use Rattle.opc_check_notes.specs.Notes.{
  if_so,
  inactive_class,
  is_class_row,
  is_profile_row,
  no_own_user,
  no_profile,
  open_console,
  open_to_all,
  special_console,
  warning,
};

use crate::known::Known;
use crate::note::Finding;
use crate::numbered::NumberedRow;
use opc_import::kind::Kind;
use opc_names::class::Class;
use opc_names::level::Level;
use opc_policy_members::row::Row;
use opc_terms::mode::Mode;

pub(crate) fn if_so(holds: bool, finding: Finding) -> Option<Finding>
    ensures { result ≡ if_so holds finding }
{
    if holds { Some(finding) } else { None }
}

/// A profile has WARNING.
pub(crate) fn warning(row: &Row) -> Option<Finding>
    ensures { result ≡ warning row.now }
{
    match *row {
        Row::Profile {
            class,
            pattern,
            warning,
            ..
        } => if_so(warning, Finding::Warning { class, pattern }),
        // The note is about profiles.
        _ => None,
    }
}

/// A profile gives everyone UPDATE or more.
pub(crate) fn open_to_all(row: &Row) -> Option<Finding>
    ensures { result ≡ open_to_all row.now }
{
    match *row {
        Row::Profile {
            class,
            pattern,
            uacc,
            ..
        } => if_so(
            uacc.includes(Level::Update),
            Finding::OpenToAll {
                class,
                pattern,
                uacc,
            },
        ),
        // The note is about profiles.
        _ => None,
    }
}

/// A console is OPTIONAL.
pub(crate) fn open_console(row: &Row) -> Option<Finding>
    ensures { result ≡ open_console row.now }
{
    match *row {
        Row::Console {
            name,
            auth,
            mode: Mode::Optional,
        } => Some(Finding::OpenConsole {
            console: name,
            auth,
        }),
        // The note is about consoles that need no LOGON.
        _ => None,
    }
}

/// There is no user for whom an AUTO console could act.
pub(crate) fn no_own_user(known: &Known, row: &Row) -> Option<Finding>
    ensures { result ≡ no_own_user known.now row.now }
{
    match *row {
        Row::Console {
            name,
            mode: Mode::Auto,
            ..
        } => if_so(!known.has_own_user(&name), Finding::NoOwnUser(name)),
        // The note is about AUTO consoles.
        _ => None,
    }
}

/// An AUTO console acts for a user with SPECIAL.
pub(crate) fn special_console(known: &Known, row: &Row) -> Option<Finding>
    ensures { result ≡ special_console known.now row.now }
{
    match *row {
        Row::Console {
            name,
            mode: Mode::Auto,
            ..
        } => if_so(known.has_special_user(&name), Finding::SpecialConsole(name)),
        // The note is about AUTO consoles.
        _ => None,
    }
}

fn same_class(class: Class, other: Class) -> bool
    ensures { result ≡ same_class class other }
{
    class == other
}

fn is_class_row(class: Class, row: &Row) -> bool
    ensures { result ≡ is_class_row class row.now }
{
    match *row {
        Row::Class { class: other, .. } => same_class(other, class),
        // No other row makes a class active or inactive.
        _ => false,
    }
}

fn is_profile_row(class: Class, row: &Row) -> bool
    ensures { result ≡ is_profile_row class row.now }
{
    match *row {
        Row::Profile { class: other, .. } => same_class(other, class),
        // No other row defines a profile.
        _ => false,
    }
}

fn any_class_row(rows: &[NumberedRow], class: Class) -> bool
    ensures { result ≡ list_any (λ (at : Numbered). is_class_row class at.row) rows.now }
{
    rows.iter().any(|at| is_class_row(class, &at.row))
}

/// Whether a row says whether a class is active.
pub(crate) fn has_class_row(known: &Known, class: Class) -> bool
    ensures { result ≡ list_any (λ (at : Numbered). is_class_row class at.row) known.now }
{
    any_class_row(known.rows().of(Kind::Class), class)
}

fn any_profile(rows: &[NumberedRow], class: Class) -> bool
    ensures { result ≡ list_any (λ (at : Numbered). is_profile_row class at.row) rows.now }
{
    rows.iter().any(|at| is_profile_row(class, &at.row))
}

fn has_profile(known: &Known, class: Class) -> bool
    ensures { result ≡ list_any (λ (at : Numbered). is_profile_row class at.row) known.now }
{
    any_profile(known.rows().of(Kind::Profile), class)
}

/// A class is inactive.
pub(crate) fn inactive_class(row: &Row) -> Option<Finding>
    ensures { result ≡ inactive_class row.now }
{
    match *row {
        Row::Class {
            class,
            active: false,
        } => Some(Finding::InactiveClass(class)),
        // The class is active, or the row is about no class.
        _ => None,
    }
}

/// An active class has no profile.
pub(crate) fn no_profile(known: &Known, row: &Row) -> Option<Finding>
    ensures { result ≡ no_profile known.now row.now }
{
    match *row {
        Row::Class { class, active } => if_so(
            active && !has_profile(known, class),
            Finding::NoProfile(class),
        ),
        // The note is about classes.
        _ => None,
    }
}
