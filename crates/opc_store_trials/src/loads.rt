//! What tables load, as lines.
use crate::board_loads::{all_consoles, consoles_of, devices, masters, one_row, replies, units};
use crate::policy_loads::{
    account, active, batch, definitions, entries, explained, file, groups, level, names, policy,
    profile, profiles, records, user,
};
use crate::words::answer_line;
use anyhow::{Result, bail};
use opc_state::tables::Tables;
use std::alloc::Global;

/// What tables load: a subject, and its key.
pub fn loaded<T: Tables>(alloc: Global, tables: &mut T, words: &str) -> Result<String> {
    let (subject, key) = words.split_once(' ').unwrap_or((words, ""));
    match subject {
        "row" => one_row(alloc, tables, key),
        "units" => units(alloc, tables),
        "devices" => devices(alloc, tables, key),
        "consoles" if key.is_empty() => all_consoles(alloc, tables),
        "consoles" => consoles_of(alloc, tables, key),
        "masters" => masters(alloc, tables),
        "replies" => replies(alloc, tables),
        "halted" => answer_line(alloc, tables.is_halted()?),
        "users" => answer_line(alloc, tables.has_users()?),
        _ => of_policy(alloc, tables, subject, key),
    }
}

/// What tables load of the policy, the account and the batches.
fn of_policy<T: Tables>(alloc: Global, tables: &mut T, subject: &str, key: &str) -> Result<String> {
    match subject {
        "file" => file(alloc, tables),
        "records" => records(alloc, tables, key),
        "policy" => policy(alloc, tables),
        "user" => user(alloc, tables, key),
        "groups" => groups(alloc, tables, key),
        "names" => names(alloc, tables, key),
        "level" => level(alloc, tables, key),
        "profile" => profile(alloc, tables, key),
        "active" => active(alloc, tables, key),
        "profiles" => profiles(alloc, tables, key),
        "definitions" => definitions(alloc, tables, key),
        "entries" => entries(alloc, tables, key),
        "account" => account(alloc, tables, key),
        "batch" => batch(alloc, tables, key),
        "explained" => explained(alloc, tables, key),
        _ => bail!("nothing is loaded: {subject}"),
    }
}
