//! Stores over disks that stop, and a store that is closed and opened again.
use crate::files::{Stop, StoreWork, crashed, made, stopping, worked};
use crate::older_disks::older_tables;
use anyhow::{Context, Result, bail};
use opc_names::name::GroupName;
use opc_state::change::{Change, Edit};
use opc_state::tables::Tables;
use opc_store_trials::edits::refusal;
use opc_store_trials::words::add_word;
use sqlite::Files;
use sqlite_disk::{Crash, Disk};
use std::alloc::Global;

/// The outcome of stores over files; the statements make tables of an older version.
pub fn answer(alloc: Global, older: &str, words: &str) -> Result<String> {
    match words {
        "log" => whole_changes(alloc, Stop::Log),
        "database" => whole_changes(alloc, Stop::Database),
        "older log" => older_tables(alloc, older, Stop::Log),
        "older database" => older_tables(alloc, older, Stop::Database),
        "closed" => opened_again(alloc, stopping(made(alloc, "")?, Stop::Nothing, 0)),
        _ => bail!("no disk: {words}"),
    }
}

/// A group, and a row of the account.
fn change(alloc: Global, group: &str) -> Result<Change> {
    let mut edits = Vec::new(alloc);
    edits.push(Edit::PutGroup(GroupName::read(group)?))?;
    let account = Some(refusal(alloc, group)?);
    Ok(Change { edits, account })
}

/// Whether each stop, after one more call each time, leaves whole changes, from one at the first call up to one after
/// both.
fn whole_changes(alloc: Global, stop: Stop) -> Result<String> {
    for calls in 0..2000u64 {
        let (whole, done) = trial(alloc, stopping(made(alloc, "")?, stop, calls))?;
        if !whole || calls == 0 && done > 0 {
            bail!("no whole changes after {calls} calls, {done} acknowledged");
        }
        if done == 2 {
            return Ok(String::from_str(alloc, "whole changes at each stop, and both at last\n")?);
        }
    }
    bail!("never both changes")
}

/// Whether a crash leaves what was acknowledged, or one change more, and how much was acknowledged.
fn trial<D: Crash + Drop>(alloc: Global, files: Files<D>) -> Result<(bool, usize)> {
    let (done, files) = stopped(alloc, files)?;
    let (held, _) = worked(alloc, crashed(files), &Held);
    match held {
        Some(held) => Ok((is_after(held?.as_str(), done), done)),
        None => Ok((false, done)),
    }
}

/// Whether the tables hold this many changes, or one more.
fn is_after(held: &str, done: usize) -> bool {
    ["", "DAY DAY", "DAY NIGHT DAY NIGHT"]
        .iter()
        .skip(done)
        .take(2)
        .any(|wanted| held == *wanted)
}

/// How many changes were acknowledged before the disk stopped, and the files.
fn stopped<D: Disk + Drop>(alloc: Global, files: Files<D>) -> Result<(usize, Files<D>)> {
    let (done, files) = worked(alloc, files, &Acknowledged);
    match done {
        Some(done) => Ok((done?, files)),
        None => Ok((0, files)),
    }
}

/// Two changes, and how many of them are acknowledged.
struct Acknowledged;

impl StoreWork for Acknowledged {
    type Out = Result<usize>;

    fn over<T: Tables>(&self, alloc: Global, tables: &mut T) -> Result<usize> {
        let mut done = 0;
        for (number, group) in [(1, "DAY"), (2, "NIGHT")] {
            if tables.commit(alloc, &change(alloc, group)?).is_err() {
                break;
            }
            done = number;
        }
        Ok(done)
    }
}

/// The groups that tables hold, and the codes of their account.
struct Held;

impl StoreWork for Held {
    type Out = Result<String>;

    fn over<T: Tables>(&self, alloc: Global, tables: &mut T) -> Result<String> {
        let mut held = String::new(alloc);
        for group in ["DAY", "NIGHT"] {
            if tables.has_group(group)? {
                add_word(&mut held, group)?;
            }
        }
        for (_, row) in tables.account(alloc, 1, 9)?.as_slice() {
            add_word(&mut held, row.code.as_str())?;
        }
        Ok(held)
    }
}

/// What a store holds after one change, once it was closed and opened again.
fn opened_again<D: Disk + Drop>(alloc: Global, files: Files<D>) -> Result<String> {
    let (changed, files) = worked(alloc, files, &Changed);
    changed.context("not opened")??;
    let (held, _) = worked(alloc, files, &Held);
    held.context("not opened again")?
}

/// One change, and whether it is acknowledged.
struct Changed;

impl StoreWork for Changed {
    type Out = Result<()>;

    fn over<T: Tables>(&self, alloc: Global, tables: &mut T) -> Result<()> {
        tables.commit(alloc, &change(alloc, "DAY")?)?;
        Ok(())
    }
}
