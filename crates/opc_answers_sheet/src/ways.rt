//! How users may.
ghost use Rattle.std.specs.Prelude.{◌≡◌, [], IfOk, OnOk, map};
ghost use Rattle.opc_machine.specs.Machine.{is_warned};
ghost use Rattle.opc_policy_sources.specs.declared.sources.LevelSource.TheVariants as source;
ghost use Rattle.opc_answers_sheet.specs.Ways.{
  console_of,
  groups_after,
  has_source,
  ids_by,
  is_as,
  is_by_warning,
  may_by,
  same_source,
  sources_of,
  with_held,
};

use opc_answers::lines::UserLine;
use opc_answers::text::may;
use opc_names::name::{ConsoleName, GroupName};
use opc_policy::ruling::Ruling;
use opc_policy_sources::sources::{HeldLevel, LevelSource};
use opc_terms::rule::Rule;
use std::alloc::{AllocError, Global};
use std::collections::BTreeSet;

/// How users may: by this source of their level or, without one, since no profile decides; by entries for this console
/// alone or, without one, at every console; and whether only the WARNING of the profile lets them.
#[derive(Clone, Copy)]
pub struct Way {
    pub source: Option<LevelSource>,
    pub console: Option<ConsoleName>,
    pub warned: bool,
}

/// Whether a source is an entry for this group.
fn is_group(other: &LevelSource, name: &GroupName) -> bool
    ensures { result ≡ same_source (source.Group name.now) other.now }
{
    match other {
        LevelSource::Group(own) => *name == *own,
        LevelSource::Own
        | LevelSource::Everyone
        | LevelSource::Universal
        | LevelSource::Restricted => false,
    }
}

fn same_source(source: &LevelSource, other: &LevelSource) -> bool
    ensures { result ≡ same_source source.now other.now }
{
    match source {
        LevelSource::Group(name) => is_group(other, name),
        LevelSource::Own => matches!(other, LevelSource::Own),
        LevelSource::Everyone => matches!(other, LevelSource::Everyone),
        LevelSource::Universal => matches!(other, LevelSource::Universal),
        LevelSource::Restricted => matches!(other, LevelSource::Restricted),
    }
}

fn has_source(source: &Option<LevelSource>, held: &Option<HeldLevel>) -> bool
    ensures { result ≡ has_source source.now held.now }
{
    match (source, held) {
        (None, None) => true,
        (Some(source), Some(held)) => same_source(source, &held.source),
        (Some(_), None) | (None, Some(_)) => false,
    }
}

/// The console for which alone the entry is that gives a level.
fn console_of(held: &Option<HeldLevel>) -> Option<ConsoleName>
    ensures { result ≡ console_of held.now }
{
    match held {
        Some(held) => held.when,
        None => None,
    }
}

pub(crate) fn is_as(wanted: bool, is: bool) -> bool
    ensures { result ≡ is_as wanted is }
{
    if wanted { is } else { !is }
}

fn is_warned(rule: &Rule) -> bool
    ensures { result ≡ is_warned (Some rule.now) }
{
    matches!(rule, Rule::Profile { warned: true, .. })
}

fn is_by_warning(ruling: Option<Ruling>) -> bool
    ensures { result ≡ is_by_warning ruling }
{
    match ruling {
        Some(ruling) => is_warned(&ruling.rule()),
        None => false,
    }
}

/// Whether a user may, and in this way.
pub fn may_by(way: &Way, line: &UserLine) -> bool
    ensures { result ≡ may_by way.now line.now }
{
    may(line)
        && has_source(&way.source, &line.held)
        && console_of(&line.held) == way.console
        && is_as(way.warned, is_by_warning(line.ruling))
}

/// The users of whom this holds, or the others.
pub(crate) fn ids_by<'a>(
    alloc: Global,
    wanted: bool,
    way: &Way,
    lines: &'a [UserLine],
) -> Result<Vec<&'a str>, AllocError>
    ensures { IfOk result (λ ids. map (λ id. id.now) ids.items ≡ ids_by wanted way.now lines.now) }
{
    let mut ids = Vec::new(alloc);
    for line in lines {
        if is_as(wanted, may_by(way, line)) {
            ids.push(line.id.text())?;
        }
    }
    Ok(ids)
}

/// Keeps the group that gives a level, if one does.
fn keep_group(groups: &mut BTreeSet<GroupName>, held: &Option<HeldLevel>) -> Result<(), AllocError>
    ensures { OnOk result (groups.new.keys ≡ with_held held.now groups.old.keys) }
{
    match held {
        Some(
            HeldLevel {
                source: LevelSource::Group(name),
                ..
            },
        ) => {
            groups.insert(*name)?;
            Ok(())
        }
        // No group gives it.
        _ => Ok(()),
    }
}

fn in_order(alloc: Global, groups: &BTreeSet<GroupName>) -> Result<Vec<GroupName>, AllocError>
    ensures { IfOk result (λ list. list.items ≡ groups.now.keys) }
{
    groups.iter().copied().collect(alloc)
}

/// The groups that give a level in these lines, by name.
pub(crate) fn groups_of(alloc: Global, lines: &[UserLine]) -> Result<Vec<GroupName>, AllocError>
    ensures { IfOk result (λ groups. groups.items ≡ groups_after lines.now []) }
{
    let mut groups = BTreeSet::new(alloc);
    for line in lines {
        keep_group(&mut groups, &line.held)?;
    }
    in_order(alloc, &groups)
}

/// The sources in the order of a page.
pub(crate) fn sources_of(
    alloc: Global,
    groups: &[GroupName],
) -> Result<Vec<Option<LevelSource>>, AllocError>
    ensures { IfOk result (λ sources. sources.items ≡ sources_of groups.now) }
{
    let mut sources = Vec::new(alloc);
    sources.push(Some(LevelSource::Own))?;
    for group in groups {
        sources.push(Some(LevelSource::Group(*group)))?;
    }
    sources.push(Some(LevelSource::Everyone))?;
    sources.push(Some(LevelSource::Universal))?;
    sources.push(Some(LevelSource::Restricted))?;
    sources.push(None)?;
    Ok(sources)
}
