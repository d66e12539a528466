//! Of which users something else is said where two profiles decide, one before and one after.
ghost use Rattle.std.specs.Prelude.{◌≡◌, ◌++◌, IfOk, OnOk};
ghost use Rattle.std.specs.List.{flat_map};
ghost use Rattle.std.specs.Option.{option_copied, option_map};
ghost use Rattle.opc_answers_diff.specs.Verdicts.{
  as_asked,
  at_console,
  changes_at,
  consoles_named,
  consoles_with,
  counts_at,
  denial,
  entries_of,
  hidden_if_denied,
  is_listed,
  is_raised_in,
  is_raised_on_a_side,
  level_of,
  said_of,
  says_else,
  side_line,
  user_change,
  user_changes,
  with_console,
};

use crate::asked::Asked;
use crate::members::MemberChange;
use opc_answers::lines::{UserLine, is_denied, logon_line, member_line};
use opc_answers::logons::{Instead, NoLogon};
use opc_answers::members::UserWithGroups;
use opc_answers::raised::is_raised;
use opc_answers::text::verdict_word;
use opc_names::level::Level;
use opc_names::name::{ConsoleName, UserId};
use opc_policy::ruling::Ruling;
use opc_policy_members::entry::Entry;
use opc_policy_members::profile::Profile;
use opc_policy_sources::sources::{HeldLevel, LevelSource};
use opc_terms::rule::Rule;
use std::alloc::{AllocError, Global};
use std::collections::BTreeSet;

/// The lines of a user before and after, on each side that has the user.
#[derive(Clone, Copy)]
pub struct UserChange {
    pub id: UserId,
    pub before: Option<UserLine>,
    pub after: Option<UserLine>,
}

impl Asked {
    /// The level that is asked about.
    pub fn level(&self) -> Level
        ensures { result ≡ level_of self.now }
    {
        match self {
            Asked::Resource(kind) => kind.level,
            Asked::Logon => Level::Read,
        }
    }

    /// What is said of whoever may nothing.
    fn denial(&self) -> &'static str
        ensures { result.now ≡ denial self.now }
    {
        match self {
            Asked::Resource(kind) => { if kind.is_line { "HIDDEN" } else { "DENIED" } }
            Asked::Logon => "DENIED",
        }
    }
}

/// A line of an answer that is denied is hidden.
fn hidden_if_denied(line: &UserLine) -> UserLine
    ensures { result ≡ hidden_if_denied line.now }
{
    if !is_denied(&line.ruling) {
        return *line;
    }
    UserLine {
        id: line.id,
        ruling: line.ruling,
        held: line.held,
        instead: Some(Instead::Hidden),
    }
}

fn as_asked(asked: &Asked, member: &UserWithGroups, line: &UserLine) -> UserLine
    ensures { result ≡ as_asked asked.now member.now line.now }
{
    match asked {
        Asked::Resource(kind) => {
            if kind.is_line {
                hidden_if_denied(line)
            } else {
                *line
            }
        }
        Asked::Logon => logon_line(&member.user, line),
    }
}

/// The line of a user on one side, by the profile that decides there.
fn side_line(
    asked: &Asked,
    decided: Option<&Profile>,
    console: Option<&ConsoleName>,
    member: &UserWithGroups,
) -> UserLine
    ensures { result ≡ side_line asked.now (option_copied decided.entry) (option_copied console.entry) member.now }
{
    as_asked(
        asked,
        member,
        &member_line(decided, console, asked.level(), member),
    )
}

/// The same, if the side has the user.
fn side_line_of(
    asked: &Asked,
    decided: Option<&Profile>,
    console: Option<&ConsoleName>,
    member: &Option<UserWithGroups>,
) -> Option<UserLine>
    ensures { result ≡ option_map (side_line asked.now (option_copied decided.entry) (option_copied console.entry))
        member.now }
{
    match member {
        Some(member) => Some(side_line(asked, decided, console, member)),
        None => None,
    }
}

fn user_change(
    asked: &Asked,
    before: Option<&Profile>,
    after: Option<&Profile>,
    console: Option<&ConsoleName>,
    member: &MemberChange,
) -> UserChange
    ensures { result ≡ user_change asked.now (option_copied before.entry) (option_copied after.entry)
        (option_copied console.entry) member.now }
{
    UserChange {
        id: member.id,
        before: side_line_of(asked, before, console, &member.before),
        after: side_line_of(asked, after, console, &member.after),
    }
}

/// What is said of a user; one that a side does not have may nothing there.
fn said_of(asked: &Asked, line: &Option<UserLine>) -> &'static str
    ensures { result.now ≡ said_of asked.now line.now }
{
    match line {
        Some(line) => verdict_word(&line.ruling, &line.instead),
        None => asked.denial(),
    }
}

fn says_else(asked: &Asked, change: &UserChange) -> bool
    ensures { result ≡ says_else asked.now change.now }
{
    said_of(asked, &change.before) != said_of(asked, &change.after)
}

fn is_raised_in(line: &Option<UserLine>) -> bool
    ensures { result ≡ is_raised_in line.now }
{
    match line {
        Some(line) => is_raised(line),
        None => false,
    }
}

/// Whether an entry for one console alone gives the level on a side.
fn is_raised_on_a_side(change: &UserChange) -> bool
    ensures { result ≡ is_raised_on_a_side change.now }
{
    is_raised_in(&change.before) || is_raised_in(&change.after)
}

/// Whether what is said at a console is no more than what is said at none.
fn counts_at(asked: &Asked, console: Option<&ConsoleName>, change: &UserChange) -> bool
    ensures { result ≡ counts_at asked.now (option_copied console.entry) change.now }
{
    match (asked, console) {
        (Asked::Resource(_), Some(_)) => is_raised_on_a_side(change),
        (Asked::Resource(_), None) | (Asked::Logon, _) => true,
    }
}

fn is_listed(asked: &Asked, console: Option<&ConsoleName>, change: &UserChange) -> bool
    ensures { result ≡ is_listed asked.now (option_copied console.entry) change.now }
{
    counts_at(asked, console, change) && says_else(asked, change)
}

/// The users of whom something else is said, at a console or at none.
pub fn changes_at(
    alloc: Global,
    asked: &Asked,
    before: Option<&Profile>,
    after: Option<&Profile>,
    members: &[MemberChange],
    console: Option<&ConsoleName>,
) -> Result<Vec<UserChange>, AllocError>
    ensures { IfOk result (λ list. list.items ≡ changes_at asked.now (option_copied before.entry)
        (option_copied after.entry) members.now (option_copied console.entry)) }
{
    // Named for the prover, which otherwise cannot infer the types of a line.
    let (_no_rule, _no_ruling): (Option<Rule>, Option<Ruling>) = (None, None);
    let (_no_held, _no_source): (Option<HeldLevel>, Option<LevelSource>) = (None, None);
    let (_off, _instead): (Option<NoLogon>, Option<Instead>) = (None, None);
    let (_nowhere, _no_line): (Option<ConsoleName>, Option<UserLine>) = (None, None);
    let mut list = Vec::new(alloc);
    for member in members {
        let change = user_change(asked, before, after, console, member);
        if is_listed(asked, console, &change) {
            list.push(change)?;
        }
    }
    Ok(list)
}

/// Adds the console for which alone an entry is.
fn add_console(
    consoles: &mut BTreeSet<ConsoleName>,
    console: Option<ConsoleName>,
) -> Result<(), AllocError>
    ensures { OnOk result (consoles.new.keys ≡ with_console console consoles.old.keys) }
{
    if let Some(console) = console {
        consoles.insert(console)?;
    }
    Ok(())
}

fn add_consoles(consoles: &mut BTreeSet<ConsoleName>, entries: &[Entry]) -> Result<(), AllocError>
    ensures { OnOk result (consoles.new.keys ≡ consoles_with entries.now consoles.old.keys) }
{
    for entry in entries {
        add_console(consoles, entry.when)?;
    }
    Ok(())
}

fn add_consoles_of(
    consoles: &mut BTreeSet<ConsoleName>,
    profile: Option<&Profile>,
) -> Result<(), AllocError>
    ensures { OnOk result (consoles.new.keys
        ≡ consoles_with (entries_of (option_copied profile.entry)) consoles.old.keys) }
{
    match profile {
        Some(profile) => add_consoles(consoles, profile.entries.as_slice()),
        None => Ok(()),
    }
}

fn in_order(alloc: Global, consoles: &BTreeSet<ConsoleName>) -> Result<Vec<ConsoleName>, AllocError>
    ensures { IfOk result (λ list. list.items ≡ consoles.now.keys) }
{
    consoles.iter().copied().collect(alloc)
}

/// The consoles for which alone an entry of either profile is, in order.
fn consoles_named(
    alloc: Global,
    before: Option<&Profile>,
    after: Option<&Profile>,
) -> Result<Vec<ConsoleName>, AllocError>
    ensures { IfOk result (λ consoles. consoles.items
        ≡ consoles_named (option_copied before.entry) (option_copied after.entry)) }
{
    let mut consoles = BTreeSet::new(alloc);
    add_consoles_of(&mut consoles, before)?;
    add_consoles_of(&mut consoles, after)?;
    in_order(alloc, &consoles)
}

/// Adds changes to others.
pub(crate) fn add_all(list: &mut Vec<UserChange>, more: &[UserChange]) -> Result<(), AllocError>
    ensures { OnOk result (list.new.items ≡ list.old.items ++ more.now) }
{
    // As in `changes_at`.
    let (_no_rule, _no_ruling): (Option<Rule>, Option<Ruling>) = (None, None);
    let (_no_held, _no_source): (Option<HeldLevel>, Option<LevelSource>) = (None, None);
    let (_off, _instead): (Option<NoLogon>, Option<Instead>) = (None, None);
    let (_nowhere, _no_line): (Option<ConsoleName>, Option<UserLine>) = (None, None);
    for change in more {
        list.push(*change)?;
    }
    Ok(())
}

/// Adds those at each of these consoles.
fn add_at(
    alloc: Global,
    list: &mut Vec<UserChange>,
    asked: &Asked,
    before: Option<&Profile>,
    after: Option<&Profile>,
    members: &[MemberChange],
    consoles: &[ConsoleName],
) -> Result<(), AllocError>
    ensures { OnOk result (list.new.items ≡ list.old.items
        ++ flat_map (at_console asked.now (option_copied before.entry) (option_copied after.entry) members.now)
        consoles.now) }
{
    for console in consoles {
        let there = changes_at(alloc, asked, before, after, members, Some(console))?;
        add_all(list, there.as_slice())?;
    }
    Ok(())
}

/// The lines of a section: those at no console, and then those at each console that an entry names.
pub fn user_changes(
    alloc: Global,
    asked: &Asked,
    before: Option<&Profile>,
    after: Option<&Profile>,
    members: &[MemberChange],
) -> Result<Vec<UserChange>, AllocError>
    ensures { IfOk result (λ list. list.items ≡ user_changes asked.now (option_copied before.entry)
        (option_copied after.entry) members.now) }
{
    let consoles = consoles_named(alloc, before, after)?;
    let mut list = changes_at(alloc, asked, before, after, members, None)?;
    add_at(
        alloc,
        &mut list,
        asked,
        before,
        after,
        members,
        consoles.as_slice(),
    )?;
    Ok(list)
}
