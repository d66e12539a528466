//! What consoles let in without a logon, before and after.
ghost use Rattle.std.specs.Prelude.{◌≡◌, ◌++◌, IfOk, OnOk, codes, filter, map, string_bytes};
ghost use Rattle.opc_answers_diff.specs.Consoles.{
  change_of,
  console_changes,
  let_in,
  names_of_both,
  names_with,
  said_by,
  said_of,
  says_else,
};

use opc_answers::who::console_of;
use opc_board::board::Board;
use opc_board::rows::ConsoleRow;
use opc_names::auth::Auth;
use opc_names::name::{ConsoleName, UserId};
use opc_terms::mode::Mode;
use std::alloc::{AllocError, Global};
use std::collections::BTreeSet;

/// A console before and after, on each side that has it.
#[derive(Clone, Copy)]
pub struct ConsoleChange {
    pub name: ConsoleName,
    pub before: Option<ConsoleRow>,
    pub after: Option<ConsoleRow>,
}

/// The commands of an authority.
fn let_in(auth: &Auth) -> &str
    ensures { result.now ≡ let_in auth.now }
{
    match auth {
        Auth::Master => "everything",
        Auth::All | Auth::SysIoCons => "everything but MASTER",
        // The word of another authority says which commands it lets in.
        _ => auth.text(),
    }
}

fn enters_text(alloc: Global, auth: &Auth) -> Result<String, AllocError>
    ensures { IfOk result (λ text. string_bytes text ≡ codes "enters " ++ let_in auth.now) }
{
    let words = let_in(auth);
    format!(in alloc; "enters {words}")
}

fn acts_text(alloc: Global, name: &ConsoleName) -> Result<String, AllocError>
    ensures { IfOk result (λ text. string_bytes text ≡ codes "acts for " ++ name.now) }
{
    format!(in alloc; "acts for {name}")
}

fn said_by(alloc: Global, console: &ConsoleRow) -> Result<String, AllocError>
    ensures { IfOk result (λ text. string_bytes text
        ≡ said_by console.now.mode console.now.name console.now.auth) }
{
    match console.mode {
        Mode::Optional => enters_text(alloc, &console.auth),
        Mode::Required => String::from_str(alloc, "enters nothing"),
        Mode::Auto => acts_text(alloc, &console.name),
    }
}

/// What is said of a console where nobody is on; one that is not there enters nothing.
pub fn said_of(alloc: Global, console: &Option<ConsoleRow>) -> Result<String, AllocError>
    ensures { IfOk result (λ text. string_bytes text ≡ said_of console.now) }
{
    match console {
        Some(console) => said_by(alloc, console),
        None => String::from_str(alloc, "enters nothing"),
    }
}

/// Whether something else is said afterwards.
fn says_else(alloc: Global, change: &ConsoleChange) -> Result<bool, AllocError>
    ensures { IfOk result (λ b. b ≡ says_else change.now) }
{
    let before = said_of(alloc, &change.before)?;
    let after = said_of(alloc, &change.after)?;
    Ok(before.as_str() != after.as_str())
}

/// The names of some consoles among others.
fn add_names(names: &mut BTreeSet<ConsoleName>, consoles: &[ConsoleRow]) -> Result<(), AllocError>
    ensures { OnOk result (names.new.keys ≡ names_with consoles.now names.old.keys) }
{
    for console in consoles {
        names.insert(console.name)?;
    }
    Ok(())
}

fn in_order(alloc: Global, names: &BTreeSet<ConsoleName>) -> Result<Vec<ConsoleName>, AllocError>
    ensures { IfOk result (λ list. list.items ≡ names.now.keys) }
{
    names.iter().copied().collect(alloc)
}

/// The names of the consoles of either side, in order.
pub fn names_of_both(
    alloc: Global,
    before: &[ConsoleRow],
    after: &[ConsoleRow],
) -> Result<Vec<ConsoleName>, AllocError>
    ensures { IfOk result (λ list. list.items ≡ names_of_both before.now after.now) }
{
    let mut names = BTreeSet::new(alloc);
    add_names(&mut names, before)?;
    add_names(&mut names, after)?;
    in_order(alloc, &names)
}

fn change_of(before: &Board, after: &Board, name: &ConsoleName) -> ConsoleChange
    ensures { result ≡ change_of before.now after.now name.now }
{
    ConsoleChange {
        name: *name,
        before: console_of(before, name).copied(),
        after: console_of(after, name).copied(),
    }
}

/// Those of some consoles of which something else is said afterwards.
fn changes_of(
    alloc: Global,
    before: &Board,
    after: &Board,
    names: &[ConsoleName],
) -> Result<Vec<ConsoleChange>, AllocError>
    ensures { IfOk result (λ list. list.items ≡ filter says_else (map (change_of before.now after.now) names.now)) }
{
    // Named for the prover, which otherwise cannot infer the types of a console.
    let (_nobody, _no_row): (Option<UserId>, Option<ConsoleRow>) = (None, None);
    let mut list = Vec::new(alloc);
    for name in names {
        let change = change_of(before, after, name);
        if says_else(alloc, &change)? {
            list.push(change)?;
        }
    }
    Ok(list)
}

/// The consoles of either side of which something else is said afterwards, by name.
pub fn console_changes(
    alloc: Global,
    before: &Board,
    after: &Board,
) -> Result<Vec<ConsoleChange>, AllocError>
    ensures { IfOk result (λ list. list.items ≡ console_changes before.now after.now) }
{
    let (old, new) = (&before.rows().consoles, &after.rows().consoles);
    let names = names_of_both(alloc, old.as_slice(), new.as_slice())?;
    changes_of(alloc, before, after, names.as_slice())
}
