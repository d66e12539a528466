//! Where a user may log on: the consoles, by what decides there.
ghost use Rattle.std.specs.Prelude.{◌≡◌, ◌∷◌, ◌++◌, [], IfOk, OnOk, filter, map};
ghost use Rattle.std.specs.Option.{option_copied};
ghost use Rattle.opc_names.specs.declared.class.Class.TheVariants.{Console};
ghost use Rattle.opc_policy_members.specs.Profiles.{of_class};
ghost use Rattle.opc_answers.specs.Logons.{acts_for};
ghost use Rattle.opc_answers_may.specs.Logons.{
  alone,
  apart,
  by_profile,
  basis_by,
  basis_of,
  bases,
  groups_on,
  is_on,
  is_plain,
  is_raised_at,
  logon_at,
  logon_said,
  logons_of,
};
ghost use Rattle.opc_answers_may.specs.May.{consoles_in};

use crate::may::May;
use opc_answers::deciding::deciding;
use opc_answers::lines::{UserLine, logon_line, member_line};
use opc_answers::logons::{Instead, NoLogon, resource_of};
use opc_answers::members::UserWithGroups;
use opc_answers::raised::is_raised;
use opc_answers::who::AskedAt;
use opc_board::rows::ConsoleRow;
use opc_names::class::Class;
use opc_names::level::Level;
use opc_names::name::{ConsoleName, Pattern};
use opc_policy::ruling::Ruling;
use opc_policy_members::policy::Policy;
use opc_policy_members::profile::Profile;
use opc_policy_members::profiles::Profiles;
use opc_policy_sources::sources::{HeldLevel, LevelSource};
use opc_rows::Rows;
use opc_terms::mode::Mode;
use opc_terms::rule::Rule;
use std::alloc::{AllocError, Global};

/// What decides about a LOGON of the user: a profile of class CONSOLE, or none; that no digest of a password is stored;
/// or that the console acts for the user, who then needs no logon.
#[derive(Clone, Copy)]
pub enum LogonBasis {
    ByProfile(Pattern),
    NoProfile,
    NoDigest,
    Auto,
}

/// A console, what decides about a LOGON of the user there, and what is said of it.
#[derive(Clone, Copy)]
pub struct LogonAt {
    pub console: ConsoleName,
    pub basis: LogonBasis,
    pub line: UserLine,
}

/// Whether the console acts for this user where nobody is on.
fn acts_for(console: &ConsoleRow, member: &UserWithGroups) -> bool
    ensures { result ≡ acts_for console.now member.now }
{
    match console.mode {
        Mode::Auto => console.name.text() == member.user.id.text(),
        Mode::Optional | Mode::Required => false,
    }
}

fn by_profile(decided: Option<&Profile>) -> LogonBasis
    ensures { result ≡ by_profile (option_copied decided.entry) }
{
    match decided {
        Some(profile) => LogonBasis::ByProfile(profile.pattern),
        None => LogonBasis::NoProfile,
    }
}

/// What decides there.
fn basis_of(policy: &Policy, member: &UserWithGroups, console: &ConsoleRow) -> LogonBasis
    ensures { result ≡ basis_of policy.now member.now console.now }
{
    if acts_for(console, member) {
        return LogonBasis::Auto;
    }
    if member.user.digest.is_none() {
        return LogonBasis::NoDigest;
    }
    by_profile(deciding(policy, Class::Console, &resource_of(&console.name)))
}

/// What is said of a LOGON there.
fn logon_said(policy: &Policy, member: &UserWithGroups, console: &ConsoleRow) -> UserLine
    ensures { result ≡ logon_said policy.now member.now console.now }
{
    let decided = deciding(policy, Class::Console, &resource_of(&console.name));
    let line = member_line(decided, Some(&console.name), Level::Read, member);
    logon_line(&member.user, &line)
}

fn logon_at(policy: &Policy, member: &UserWithGroups, console: &ConsoleRow) -> LogonAt
    ensures { result ≡ logon_at policy.now member.now console.now }
{
    LogonAt {
        console: console.name,
        basis: basis_of(policy, member, console),
        line: logon_said(policy, member, console),
    }
}

fn logons_at(alloc: Global, may: &May, consoles: &[ConsoleRow]) -> Result<Vec<LogonAt>, AllocError>
    ensures { IfOk result (λ logons. logons.items
        ≡ map (logon_at may.now.room.policy may.now.member) consoles.now) }
{
    // Named for the prover, which otherwise cannot infer the types of a line.
    let (_no_rule, _no_ruling): (Option<Rule>, Option<Ruling>) = (None, None);
    let (_no_held, _no_source): (Option<HeldLevel>, Option<LevelSource>) = (None, None);
    let (_off, _instead): (Option<NoLogon>, Option<Instead>) = (None, None);
    let (_nowhere, _line): (Option<ConsoleName>, Option<UserLine>) = (None, None);
    let _basis: Option<LogonBasis> = None;
    let mut logons = Vec::new(alloc);
    for console in consoles {
        logons.push(logon_at(&may.room.policy, &may.member, console))?;
    }
    Ok(logons)
}

/// At the consoles that are asked about. A revoked user can log on nowhere.
pub(crate) fn logons_of(alloc: Global, may: &May) -> Result<Vec<LogonAt>, AllocError>
    ensures { IfOk result (λ logons. logons.items ≡ logons_of may.now) }
{
    if may.member.user.revoked {
        return Ok(Vec::new(alloc));
    }
    match &may.at {
        AskedAt::Everywhere => logons_at(alloc, may, may.room.board.rows().consoles.as_slice()),
        AskedAt::OnBoard(console) => logons_at(alloc, may, &[*console]),
        AskedAt::Named(_) => Ok(Vec::new(alloc)),
    }
}

fn is_on(basis: &LogonBasis, logon: &LogonAt) -> bool
    ensures { result ≡ is_on basis.now logon.now }
{
    match (basis, &logon.basis) {
        (LogonBasis::ByProfile(pattern), LogonBasis::ByProfile(other)) => pattern == other,
        (LogonBasis::NoProfile, LogonBasis::NoProfile)
        | (LogonBasis::NoDigest, LogonBasis::NoDigest)
        | (LogonBasis::Auto, LogonBasis::Auto) => true,
        // The two differ.
        _ => false,
    }
}

/// Those where this decides.
fn logons_on(
    alloc: Global,
    logons: &[LogonAt],
    basis: &LogonBasis,
) -> Result<Vec<LogonAt>, AllocError>
    ensures { IfOk result (λ list. list.items ≡ filter (is_on basis.now) logons.now) }
{
    let mut list = Vec::new(alloc);
    for logon in logons {
        if is_on(basis, logon) {
            list.push(*logon)?;
        }
    }
    Ok(list)
}

/// Whether an entry for that console alone gives the level.
fn is_raised_at(logon: &LogonAt) -> bool
    ensures { result ≡ is_raised_at logon.now }
{
    is_raised(&logon.line)
}

/// Those where no entry for the console alone gives the level.
fn plain(alloc: Global, logons: &[LogonAt]) -> Result<Vec<LogonAt>, AllocError>
    ensures { IfOk result (λ list. list.items ≡ filter is_plain logons.now) }
{
    let mut list = Vec::new(alloc);
    for logon in logons {
        if !is_raised_at(logon) {
            list.push(*logon)?;
        }
    }
    Ok(list)
}

/// Those where one does.
fn raised(alloc: Global, logons: &[LogonAt]) -> Result<Vec<LogonAt>, AllocError>
    ensures { IfOk result (λ list. list.items ≡ filter is_raised_at logons.now) }
{
    let mut list = Vec::new(alloc);
    for logon in logons {
        if is_raised_at(logon) {
            list.push(*logon)?;
        }
    }
    Ok(list)
}

/// The consoles that stand under one head.
fn apart(alloc: Global, logons: &[LogonAt]) -> Result<Rows<Rows<LogonAt>>, AllocError>
    ensures { IfOk result (λ groups. groups ≡ apart logons.now) }
{
    let together = plain(alloc, logons)?;
    let single = raised(alloc, logons)?;
    let mut groups = Rows::new(alloc);
    groups.push(Rows::of(together))?;
    for logon in &single {
        groups.push(Rows::from_slice(alloc, &[*logon])?)?;
    }
    Ok(groups)
}

/// The consoles where this decides, as they stand under heads.
pub(crate) fn groups_on(
    alloc: Global,
    logons: &[LogonAt],
    basis: &LogonBasis,
) -> Result<Rows<Rows<LogonAt>>, AllocError>
    ensures { IfOk result (λ groups. groups ≡ groups_on logons.now basis.now) }
{
    let decided = logons_on(alloc, logons, basis)?;
    apart(alloc, decided.as_slice())
}

fn basis_by(profile: &Profile) -> LogonBasis
    ensures { result ≡ basis_by profile.now }
{
    LogonBasis::ByProfile(profile.pattern)
}

/// The profiles of class CONSOLE, in order.
fn by_profiles(alloc: Global, profiles: &Profiles) -> Result<Vec<LogonBasis>, AllocError>
    ensures { IfOk result (λ list. list.items ≡ map basis_by (of_class Console profiles.now)) }
{
    let mut list = Vec::new(alloc);
    for profile in profiles.iter() {
        if profile.is_of(Class::Console) {
            list.push(basis_by(profile))?;
        }
    }
    Ok(list)
}

/// What may decide, in order.
pub(crate) fn bases(alloc: Global, policy: &Policy) -> Result<Vec<LogonBasis>, AllocError>
    ensures { IfOk result (λ list. list.items ≡ bases policy.now) }
{
    let mut list = by_profiles(alloc, &policy.profiles)?;
    list.push(LogonBasis::NoProfile)?;
    list.push(LogonBasis::NoDigest)?;
    list.push(LogonBasis::Auto)?;
    Ok(list)
}
