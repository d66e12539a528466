//! The level that a user holds by all small access lists, compared with the plain program: entries of the user, of two
//! groups and for everyone, for every console and for one alone, each missing or with one of two levels; two universal
//! accesses; RESTRICTED or not; at that console, at another, or at none.
use super::plain::{Sources, held};
use anyhow::{Result, bail};
use opc_names::class::Class;
use opc_names::level::Level;
use opc_names::name::{ConsoleName, GroupName, Pattern, UserId};
use opc_policy_members::entries::Entries;
use opc_policy_members::entry::Entry;
use opc_policy_members::profile::Profile;
use opc_policy_members::user::User;
use opc_terms::entry_id::EntryId;
use std::alloc::{AllocError, Global};

fn level_at(number: u8) -> Level {
    match number {
        0 => Level::None,
        _ => Level::Read,
    }
}

/// Compares all of them, and returns how many.
pub fn compared(alloc: Global) -> Result<String> {
    let mut count = 0u64;
    for there in 0..=u8::MAX {
        count = count.saturating_add(with_entries(alloc, there % 16, there / 16)?);
    }
    Ok(format!(in alloc; "{count} levels")?)
}

/// Compares the lists that have these entries, one bit for each: for every console, and for one alone.
fn with_entries(alloc: Global, plain: u8, there: u8) -> Result<u64> {
    let there = all_levels(alloc, there)?;
    let mut profile = Profile {
        class: Class::Opercmds,
        pattern: Pattern::read("A")?,
        owner: UserId::read("SECADM")?,
        uacc: Level::None,
        warning: false,
        entries: Entries::new(alloc),
    };
    let mut count = 0u64;
    for sources in &all_levels(alloc, plain)? {
        set_levels(&mut profile.entries, None, sources)?;
        count = count.saturating_add(raised(&mut profile, sources, &there)?);
    }
    Ok(count)
}

/// Compares the lists that have these entries for every console, and each of those for one alone.
fn raised(profile: &mut Profile, plain: &Sources, all: &[Sources]) -> Result<u64> {
    let console = ConsoleName::read("C1")?;
    let mut count = 0u64;
    for there in all {
        set_levels(&mut profile.entries, Some(console), there)?;
        count = count.saturating_add(asked(profile, plain, there)?);
    }
    Ok(count)
}

/// Compares what a user holds by one list.
fn asked(profile: &mut Profile, plain: &Sources, there: &Sources) -> Result<u64> {
    let id = UserId::read("ANNA")?;
    let groups = [GroupName::read("NIGHT")?, GroupName::read("OPS")?];
    let (here, elsewhere) = (ConsoleName::read("C1")?, ConsoleName::read("C2")?);
    let mut count = 0u64;
    for case in 0..12u8 {
        let (universal, restricted) = (case % 2, case / 2 % 2 == 1);
        let (console, sources) = match case / 4 {
            0 => (None, None),
            1 => (Some(&elsewhere), None),
            _ => (Some(&here), Some(there)),
        };
        let user = User {
            id,
            special: false,
            auditor: false,
            revoked: false,
            digest: None,
            restricted,
        };
        profile.uacc = level_at(universal);
        let level = profile.level_of(&user, console, &groups);
        let wanted = level_at(held(plain, sources, universal, restricted));
        if level != wanted {
            bail!("case {case}: {level}, not {wanted}");
        }
        count = count.saturating_add(1);
    }
    Ok(count)
}

/// All levels of the entries that are there, one bit for each.
fn all_levels(alloc: Global, there: u8) -> Result<Vec<Sources>, AllocError> {
    let mut all = Vec::new(alloc);
    for number in 0..81 {
        let sources = sources_of(number);
        if entries_in(&sources) == there {
            all.push(sources)?;
        }
    }
    Ok(all)
}

/// The sources of a number, each of whose digits to the base 3 is 0 for a missing one, else a level and 1.
fn sources_of(number: u8) -> Sources {
    Sources {
        own: (number % 3).checked_sub(1),
        groups: [
            (number / 3 % 3).checked_sub(1),
            (number / 9 % 3).checked_sub(1),
        ],
        everyone: (number / 27).checked_sub(1),
    }
}

/// Which of them have a level, one bit for each.
fn entries_in(sources: &Sources) -> u8 {
    let [night, ops] = sources.groups;
    let groups = u8::from(night.is_some()) * 2 + u8::from(ops.is_some()) * 4;
    u8::from(sources.own.is_some()) + groups + u8::from(sources.everyone.is_some()) * 8
}

/// Sets the entries that have a level.
fn set_levels(entries: &mut Entries, when: Option<ConsoleName>, sources: &Sources) -> Result<()> {
    let ids = [
        EntryId::read("ANNA")?,
        EntryId::read("NIGHT")?,
        EntryId::read("OPS")?,
        EntryId::everyone(),
    ];
    let [night, ops] = sources.groups;
    let levels = [sources.own, night, ops, sources.everyone];
    for (id, number) in ids.into_iter().zip(levels) {
        if let Some(number) = number {
            let level = level_at(number);
            entries.set(Entry { id, when, level })?;
        }
    }
    Ok(())
}
