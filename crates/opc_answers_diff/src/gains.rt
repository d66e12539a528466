//! Who may more, and who may less.
ghost use Rattle.std.specs.Prelude.{◌≡◌, [], IfOk, OnOk, if◌then◌else◌, length, string_bytes};
ghost use Rattle.std.specs.BTreeSet.{insert_key};
ghost use Rattle.opc_policy_members.specs.Members.{name_cmp};
ghost use Rattle.opc_answers_diff.specs.Gains.{counted, ending_text, is_gain, is_loss, lets, with_those};

use crate::verdicts::UserChange;
use opc_answers::lines::{UserLine, is_denied};
use opc_names::name::UserId;
use std::alloc::{AllocError, Global};
use std::collections::BTreeSet;

/// The users who may more somewhere, and those who may less: a user can be among both.
#[derive(Drop)]
pub struct Gains {
    pub more: BTreeSet<UserId>,
    pub less: BTreeSet<UserId>,
}

/// Whether a line does not deny.
fn lets(line: &Option<UserLine>) -> bool
    ensures { result ≡ lets line.now }
{
    match line {
        Some(line) => line.instead.is_none() && !is_denied(&line.ruling),
        None => false,
    }
}

fn is_gain(change: &UserChange) -> bool
    ensures { result ≡ is_gain change.now }
{
    lets(&change.after) && !lets(&change.before)
}

fn is_loss(change: &UserChange) -> bool
    ensures { result ≡ is_loss change.now }
{
    lets(&change.before) && !lets(&change.after)
}

/// Adds a user, if a test was passed.
fn add_if(ids: &mut BTreeSet<UserId>, id: UserId, passed: bool) -> Result<(), AllocError>
    ensures { OnOk result (ids.new.keys ≡ if passed then insert_key name_cmp ids.old.keys id else ids.old.keys) }
{
    if passed {
        ids.insert(id)?;
    }
    Ok(())
}

/// Adds the users who gain by these changes.
fn add_more(ids: &mut BTreeSet<UserId>, changes: &[UserChange]) -> Result<(), AllocError>
    ensures { OnOk result (ids.new.keys ≡ with_those is_gain changes.now ids.old.keys) }
{
    for change in changes {
        add_if(ids, change.id, is_gain(change))?;
    }
    Ok(())
}

/// Adds the users who lose by these changes.
fn add_less(ids: &mut BTreeSet<UserId>, changes: &[UserChange]) -> Result<(), AllocError>
    ensures { OnOk result (ids.new.keys ≡ with_those is_loss changes.now ids.old.keys) }
{
    for change in changes {
        add_if(ids, change.id, is_loss(change))?;
    }
    Ok(())
}

impl Gains {
    /// Of nobody.
    pub fn new(alloc: Global) -> Self
        ensures more { result.more.keys ≡ [] }
        ensures less { result.less.keys ≡ [] }
    {
        Gains {
            more: BTreeSet::new(alloc),
            less: BTreeSet::new(alloc),
        }
    }

    /// With those who gain and lose by these changes.
    pub fn add(&mut self, changes: &[UserChange]) -> Result<(), AllocError>
        ensures more { OnOk result (self.new.more.keys ≡ with_those is_gain changes.now self.old.more.keys) }
        ensures less { OnOk result (self.new.less.keys ≡ with_those is_loss changes.now self.old.less.keys) }
    {
        add_more(&mut self.more, changes)?;
        add_less(&mut self.less, changes)
    }
}

/// A number of things, with their name.
fn counted(alloc: Global, count: usize, one: &str) -> Result<String, AllocError>
    ensures { IfOk result (λ text. string_bytes text ≡ counted count one.now) }
{
    if count == 1 {
        return format!(in alloc; "{count} {one}");
    }
    format!(in alloc; "{count} {one}s")
}

/// The last line: how many rows differ, how many users may more and how many may less.
pub fn ending_text(alloc: Global, rows: usize, gains: &Gains) -> Result<String, AllocError>
    ensures { IfOk result (λ text. string_bytes text
        ≡ ending_text rows (length gains.now.more.keys) (length gains.now.less.keys)) }
{
    let (more, less) = (gains.more.len(), gains.less.len());
    let rows = counted(alloc, rows, "row")?;
    let more = counted(alloc, more, "user")?;
    let (rows, more) = (rows.as_str(), more.as_str());
    format!(in alloc; "{rows}, {more} may more, {less} may less\n")
}
