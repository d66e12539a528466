//! The notes on a policy file.
ghost use Rattle.std.specs.Prelude.{◌≡◌, ◌++◌, ◌∷◌, [], IfOk, OnOk, filter_map, map};
ghost use Rattle.std.specs.List.{cons_option, flat_map};
ghost use Rattle.opc_check_notes.specs.Notes.{
  about,
  all_codes,
  finding,
  findings,
  found_without_search,
  if_none,
  note_at,
  note_of_none,
  notes,
  notes_of,
  unnamed_class,
};

use crate::deciding::{never_decides, no_resource};
use crate::entry_notes::{empty_group, revoked_entry, serves_nobody};
use crate::groups::own_below_group;
use crate::known::Known;
use crate::names::{Given, count};
use crate::note::{Finding, Note, NoteCode};
use crate::numbered::NumberedRow;
use crate::profiles::{
    has_class_row, inactive_class, no_own_user, no_profile, open_console, open_to_all,
    special_console, warning,
};
use crate::users::{no_access, no_digest, one_special, same_digest};
use opc_import::kind::Kind;
use opc_names::class::Class;
use opc_policy_members::row::Row;
use opc_rows::Rows;
use std::alloc::{AllocError, Global};

/// What is found at a row, but for what a search for resources finds.
fn found_without_search(known: &Known, code: NoteCode, row: &Row) -> Option<Finding>
    ensures { result ≡ found_without_search known.now code row.now }
{
    match code {
        NoteCode::Warning => warning(row),
        NoteCode::OpenToAll => open_to_all(row),
        NoteCode::NoDigest => no_digest(known, row),
        NoteCode::SameDigest => same_digest(known, row),
        NoteCode::EmptyGroup => empty_group(known, row),
        NoteCode::RevokedEntry => revoked_entry(known, row),
        NoteCode::Special => one_special(known, row),
        NoteCode::OpenConsole => open_console(row),
        NoteCode::NoOwnUser => no_own_user(known, row),
        NoteCode::InactiveClass => inactive_class(row),
        NoteCode::NoProfile => no_profile(known, row),
        NoteCode::OwnBelowGroup => own_below_group(known, row),
        NoteCode::ServesNobody => serves_nobody(known, row),
        NoteCode::SpecialConsole => special_console(known, row),
        NoteCode::NoAccess => no_access(known, row),
        // These findings are about no row, or a search finds them.
        NoteCode::Auditor | NoteCode::Master | NoteCode::NoResource | NoteCode::NeverDecides =>
            None,
    }
}

/// What is found at a row.
fn finding(
    alloc: Global,
    known: &Known,
    code: NoteCode,
    row: &Row,
) -> Result<Option<Finding>, AllocError>
    ensures { IfOk result (λ found. found ≡ finding known.now code row.now) }
{
    match code {
        NoteCode::NoResource => no_resource(alloc, row),
        NoteCode::NeverDecides => never_decides(alloc, known, row),
        // The others need no search.
        _ => Ok(found_without_search(known, code, row)),
    }
}

fn note_at(
    alloc: Global,
    known: &Known,
    code: NoteCode,
    at: &NumberedRow,
) -> Result<Option<Note>, AllocError>
    ensures { IfOk result (λ note. note ≡ note_at known.now code at.now) }
{
    match finding(alloc, known, code, &at.row)? {
        Some(finding) => Ok(Some(Note {
            row: Some(at.number),
            finding,
        })),
        None => Ok(None),
    }
}

/// Adds a note, if there is one.
fn add_found(notes: &mut Rows<Note>, note: Option<Note>) -> Result<(), AllocError>
    ensures { OnOk result (notes.new ≡ notes.old ++ cons_option note []) }
{
    // Named for the prover, which otherwise cannot infer the types of a note.
    let _nothing: Option<Finding> = None;
    match note {
        Some(note) => {
            notes.push(note)?;
            Ok(())
        }
        None => Ok(()),
    }
}

/// Adds what is found at these rows.
fn add_at_rows(
    notes: &mut Rows<Note>,
    alloc: Global,
    known: &Known,
    rows: &[NumberedRow],
    code: NoteCode,
) -> Result<(), AllocError>
    ensures { OnOk result (notes.new ≡ notes.old ++ filter_map (note_at known.now code) rows.now) }
{
    // As in `add_found`.
    let _nothing: Option<Finding> = None;
    for at in rows {
        add_found(notes, note_at(alloc, known, code, at)?)?;
    }
    Ok(())
}

/// Adds the findings that are about no row.
fn add(notes: &mut Rows<Note>, finding: Finding) -> Result<(), AllocError>
    ensures { OnOk result (notes.new ≡ notes.old ++ note_of_none finding ∷ []) }
{
    notes.push(Note { row: None, finding })?;
    Ok(())
}

fn add_if_none(
    notes: &mut Rows<Note>,
    known: &Known,
    given: Given,
    finding: Finding,
) -> Result<(), AllocError>
    ensures { OnOk result (notes.new ≡ notes.old ++ map note_of_none (if_none known.now given finding)) }
{
    if count(known.rows(), given) == 0 {
        add(notes, finding)?;
    }
    Ok(())
}

fn add_unnamed_class(notes: &mut Rows<Note>, known: &Known, class: Class) -> Result<(), AllocError>
    ensures { OnOk result (notes.new ≡ notes.old ++ map note_of_none (unnamed_class known.now class)) }
{
    if !has_class_row(known, class) {
        add(notes, Finding::InactiveClass(class))?;
    }
    Ok(())
}

fn add_of_none(notes: &mut Rows<Note>, known: &Known, code: NoteCode) -> Result<(), AllocError>
    ensures { OnOk result (notes.new ≡ notes.old ++ map note_of_none (findings known.now code)) }
{
    match code {
        NoteCode::Special => add_if_none(notes, known, Given::Special, Finding::NoSpecial),
        NoteCode::Auditor => add_if_none(notes, known, Given::Auditor, Finding::NoAuditor),
        NoteCode::Master => add_if_none(notes, known, Given::MasterConsole, Finding::NoMaster),
        NoteCode::InactiveClass => {
            add_unnamed_class(notes, known, Class::Console)?;
            add_unnamed_class(notes, known, Class::Opercmds)
        }
        // The other codes are about rows.
        _ => Ok(()),
    }
}

/// The kind of the rows that a note of a code is about, if it is about one.
fn about(code: NoteCode) -> Kind
    ensures { result ≡ about code }
{
    match code {
        NoteCode::Warning | NoteCode::OpenToAll | NoteCode::NoResource | NoteCode::NeverDecides =>
            Kind::Profile,
        NoteCode::NoDigest
        | NoteCode::SameDigest
        | NoteCode::Special
        | NoteCode::Auditor
        | NoteCode::NoAccess => Kind::User,
        NoteCode::EmptyGroup => Kind::Group,
        NoteCode::RevokedEntry | NoteCode::OwnBelowGroup | NoteCode::ServesNobody => {
            Kind::Permit
        }
        NoteCode::Master | NoteCode::OpenConsole | NoteCode::NoOwnUser | NoteCode::SpecialConsole =>
            Kind::Console,
        NoteCode::InactiveClass | NoteCode::NoProfile => Kind::Class,
    }
}

/// Adds what is found at the rows of the kind that a code is about.
fn add_of_rows(
    notes: &mut Rows<Note>,
    alloc: Global,
    known: &Known,
    code: NoteCode,
) -> Result<(), AllocError>
    ensures { OnOk result (notes.new ≡ notes.old ++ filter_map (note_at known.now code) known.now) }
{
    add_at_rows(notes, alloc, known, known.rows().of(about(code)), code)?;
    Ok(())
}

/// Adds the notes of a code.
fn add_notes(
    notes: &mut Rows<Note>,
    alloc: Global,
    known: &Known,
    code: NoteCode,
) -> Result<(), AllocError>
    ensures { OnOk result (notes.new ≡ notes.old ++ notes_of known.now code) }
{
    add_of_rows(notes, alloc, known, code)?;
    add_of_none(notes, known, code)
}

/// All codes, in their order.
pub fn all_codes() -> [NoteCode; 19]
    ensures { result ≡ all_codes }
{
    [
        NoteCode::Warning,
        NoteCode::OpenToAll,
        NoteCode::NoDigest,
        NoteCode::SameDigest,
        NoteCode::EmptyGroup,
        NoteCode::RevokedEntry,
        NoteCode::Special,
        NoteCode::Auditor,
        NoteCode::Master,
        NoteCode::OpenConsole,
        NoteCode::NoOwnUser,
        NoteCode::InactiveClass,
        NoteCode::NoProfile,
        NoteCode::OwnBelowGroup,
        NoteCode::ServesNobody,
        NoteCode::NoResource,
        NoteCode::SpecialConsole,
        NoteCode::NoAccess,
        NoteCode::NeverDecides,
    ]
}

/// The notes on the rows of a policy file, by their codes and then by rows.
pub fn notes(alloc: Global, rows: &[Row]) -> Result<Rows<Note>, AllocError>
    ensures { IfOk result (λ list. list ≡ notes rows.now) }
{
    let known = Known::of(alloc, rows)?;
    let mut list = Rows::new(alloc);
    let codes = all_codes();
    for code in &codes {
        add_notes(&mut list, alloc, &known, *code)?;
    }
    Ok(list)
}
