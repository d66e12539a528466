//! The level that a user holds in a profile, with its source.
ghost use Rattle.std.specs.Prelude.{◌≡◌};
ghost use Rattle.std.specs.Option.{option_copied};
ghost use Rattle.opc_policy_members.specs.Held.{held};
ghost use Rattle.opc_policy_sources.specs.Sources.{
  IsGiven,
  everyone_source,
  first_highest,
  first_source,
  from_entry,
  group_source,
  held_from,
  plain_source,
  universal_source,
};

use crate::entries::level_at;
use opc_names::level::Level;
use opc_names::name::{ConsoleName, GroupName};
use opc_policy_members::profile::Profile;
use opc_policy_members::user::User;

/// What gives a user a level in a profile: the user's own entry, the entry for a group of the user, the entry for
/// everyone, or the universal access, of which a RESTRICTED user has nothing.
#[derive(Clone, Copy)]
pub enum LevelSource {
    Own,
    Group(GroupName),
    Everyone,
    Universal,
    Restricted,
}

/// A level that a user holds, with its source, and the console, if the source is an entry for that console alone.
#[derive(Clone, Copy)]
pub struct HeldLevel {
    pub level: Level,
    pub source: LevelSource,
    pub when: Option<ConsoleName>,
}

/// The level of an entry, with its source, if there is such an entry.
fn from_entry(
    source: LevelSource,
    when: Option<&ConsoleName>,
    level: Option<Level>,
) -> Option<HeldLevel>
    ensures { result ≡ from_entry source (option_copied when.entry) level }
{
    match level {
        Some(level) => Some(HeldLevel {
            level,
            source,
            when: when.copied(),
        }),
        None => None,
    }
}

/// Of up to two levels, the first, unless the other one is higher.
fn first_highest(first: Option<HeldLevel>, other: Option<HeldLevel>) -> Option<HeldLevel>
    ensures { result ≡ first_highest first other }
{
    match (first, other) {
        (Some(first), Some(other)) if first.level.includes(other.level) => Some(first),
        (Some(_), Some(other)) => Some(other),
        (Some(first), None) => Some(first),
        (None, other) => other,
    }
}

/// The first of the highest entries for these groups.
fn group_source(
    profile: &Profile,
    when: Option<&ConsoleName>,
    groups: &[GroupName],
) -> Option<HeldLevel>
    ensures { result ≡ group_source profile.now.entries (option_copied when.entry) groups.now }
{
    let mut highest = None;
    for group in groups {
        let level = level_at(&profile.entries, when, group.text());
        highest = first_highest(highest, from_entry(LevelSource::Group(*group), when, level));
    }
    highest
}

/// The entry for everyone, of which a RESTRICTED user has nothing.
fn everyone_source(profile: &Profile, when: Option<&ConsoleName>, user: &User) -> Option<HeldLevel>
    ensures { result ≡ everyone_source profile.now.entries (option_copied when.entry) user.now }
{
    if user.restricted {
        return None;
    }
    from_entry(
        LevelSource::Everyone,
        when,
        level_at(&profile.entries, when, "*"),
    )
}

/// The first source that exists among the entries with one condition.
fn first_source(
    profile: &Profile,
    when: Option<&ConsoleName>,
    user: &User,
    groups: &[GroupName],
) -> Option<HeldLevel>
    ensures { result ≡ first_source profile.now.entries (option_copied when.entry) user.now groups.now }
{
    let own = from_entry(
        LevelSource::Own,
        when,
        level_at(&profile.entries, when, user.id.text()),
    );
    let shared = group_source(profile, when, groups);
    let everyone = everyone_source(profile, when, user);
    own.or(shared).or(everyone)
}

/// What is given to users without an entry.
fn universal_source(profile: &Profile, user: &User) -> HeldLevel
    ensures { result ≡ universal_source profile.now user.now }
{
    let (level, source) = if user.restricted {
        (Level::None, LevelSource::Restricted)
    } else {
        (profile.uacc, LevelSource::Universal)
    };
    HeldLevel {
        level,
        source,
        when: None,
    }
}

/// By the entries that hold at every console, and last by the universal access.
fn plain_source(profile: &Profile, user: &User, groups: &[GroupName]) -> HeldLevel
    ensures { result ≡ plain_source profile.now user.now groups.now }
{
    match first_source(profile, None, user, groups) {
        Some(source) => source,
        None => universal_source(profile, user),
    }
}

/// The higher of the level that holds at every console and the one at this console alone, if one is given.
fn higher_source(
    profile: &Profile,
    user: &User,
    console: Option<&ConsoleName>,
    groups: &[GroupName],
) -> HeldLevel
    ensures { result ≡ held_from profile.now user.now (option_copied console.entry) groups.now }
{
    let plain = plain_source(profile, user, groups);
    if console.is_none() {
        return plain;
    }
    match first_source(profile, console, user, groups) {
        Some(raised) if !plain.level.includes(raised.level) => raised,
        // Nothing gives more at this console alone.
        _ => plain,
    }
}

/// The level that a user holds at a console, if one is given, with its source. The groups are the user's connect
/// groups. It allocates nothing.
pub fn held_from(
    profile: &Profile,
    user: &User,
    console: Option<&ConsoleName>,
    groups: &[GroupName],
) -> HeldLevel
    ensures source { result ≡ held_from profile.now user.now (option_copied console.entry) groups.now }
    ensures level { result.level ≡ held profile.now user.now (option_copied console.entry) groups.now }
    ensures given { IsGiven profile.now user.now groups.now result }
{
    higher_source(profile, user, console, groups)
}
