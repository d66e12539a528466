//! Rulings, from what is loaded for them.
ghost use Rattle.std.specs.Prelude.{◌≡◌, ◌≤◌, Some, IsTrue, true, filter, length};
ghost use Rattle.std.specs.Option.{option_and_then};
ghost use Rattle.opc_names.specs.Names.{is_plain, is_resource};
ghost use Rattle.opc_names.specs.declared.class.Class.TheVariants.{Opercmds};
ghost use Rattle.opc_policy_members.specs.Members.{groups_of, user_of};
ghost use Rattle.opc_policy.specs.Rulings.{ruling as policy_ruling};
ghost use Rattle.opc_state.specs.Asked.{Answers, Loads};
ghost use Rattle.opc_state.specs.Invariants.{IsConsoleOfStored};
ghost use Rattle.opc_state.specs.State.{deciding_in};
ghost use Rattle.opc_gate_rulings.specs.Held.{class_ruling};
ghost use Rattle.opc_gate_rulings.specs.RulingBasis.{IsRulingBasis};
ghost use Rattle.opc_machine.specs.Rulings.{
  acting,
  acting_user,
  is_auto,
  is_required,
  is_allowed,
  logon_ruling,
  own_user,
  need_to_show,
  ruling,
  shown,
  to_show,
};

use crate::held::level_on;
use crate::shared::beginning_of;
use crate::shown::shown_together;
use opc_board::line::{Item, Line};
use opc_board::rows::ConsoleRow;
use opc_names::class::Class;
use opc_names::group::Group;
use opc_names::level::Level;
use opc_names::name::{ConsoleName, Name, NameKind, Resource, UserId};
use opc_policy::ruling::{Ruling, console_ruling, ruling_at};
use opc_policy_members::user::User;
use opc_rows::Rows;
use opc_state::tables::Tables;
use opc_terms::mode::Mode;
use opc_terms::need::Need;
use opc_terms::rule::Rule;
use opc_terms::store_fault::StoreFault;
use std::alloc::Global;

fn is_required(mode: Mode) -> bool
    ensures { result ≡ is_required mode }
{
    match mode {
        Mode::Required => true,
        Mode::Optional | Mode::Auto => false,
    }
}

fn is_auto(mode: Mode) -> bool
    ensures { result ≡ is_auto mode }
{
    match mode {
        Mode::Auto => true,
        Mode::Optional | Mode::Required => false,
    }
}

// What the profile that decides in a class rules on a user at a console, if the class is active and a profile decides.
fn profile_ruling_on<T: Tables>(
    tables: &mut T,
    alloc: Global,
    class: Class,
    resource: &Resource,
    user: &User,
    console: &ConsoleName,
    needed: Level,
) -> Result<Option<Ruling>, StoreFault>
    ensures { Loads T.meaning tables.old tables.new result (λ s r. r ≡
        class_ruling true (deciding_in s.policy class resource.now) user.now (Some console.now)
        (groups_of s.policy.connects user.now.id) needed) }
{
    let Some(profile) = tables.deciding(alloc, class, resource)? else {
        return Ok(None);
    };
    let held = level_on(tables, alloc, &profile, user, console)?;
    Ok(Some(ruling_at(&profile, held, needed)))
}

// By the profile that decides for a user if the class is active, or else by the authority of the console.
pub(crate) fn by_profile<T: Tables>(
    tables: &mut T,
    alloc: Global,
    user: &User,
    console: &ConsoleRow,
    need: &Need,
) -> Result<Ruling, StoreFault>
    ensures { Loads T.meaning tables.old tables.new result (λ s r. r ≡
        policy_ruling true (deciding_in s.policy Opercmds need.now.resource) (Some user.now) (Some console.now.name)
        (groups_of s.policy.connects user.now.id) console.now.auth need.now) }
{
    let ruling = profile_ruling_on(
        tables,
        alloc,
        Class::Opercmds,
        &need.resource,
        user,
        &console.name,
        need.level,
    )?;
    Ok(ruling.unwrap_or(console_ruling(console.auth, need)))
}

// The id of a console's own user, which is the console's name.
fn own_id(name: &ConsoleName) -> UserId
    ensures { result ≡ name.now }
{
    name.as_kind()
}

// A console's own user, if the console acts for one.
fn own_user_on<T: Tables>(
    tables: &mut T,
    alloc: Global,
    console: &ConsoleRow,
) -> Result<Option<User>, StoreFault>
    ensures { Loads T.meaning tables.old tables.new result
        (λ s u. u ≡ option_and_then (user_of s.policy.users) (own_user s console.now)) }
{
    if !is_auto(console.mode) {
        return Ok(None);
    }
    tables.user(alloc, &own_id(&console.name))
}

/// For whom a console acts: the user who is logged on; if nobody is, the console's own user. The own user of an offline
/// console shows only in the account, in the row for E11. A refusal loads that user again, for the account.
pub fn acting_user_on<T: Tables>(
    tables: &mut T,
    alloc: Global,
    console: &ConsoleRow,
) -> Result<Option<UserId>, StoreFault>
    ensures { Loads T.meaning tables.old tables.new result (λ s u. u ≡ acting_user s console.now) }
{
    if console.user.is_some() {
        return Ok(console.user);
    }
    match own_user_on(tables, alloc, console)? {
        Some(_) => Ok(Some(own_id(&console.name))),
        None => Ok(None),
    }
}

// The user who is logged on at a console. Only damaged tables lack that user. They do not show that nobody is logged
// on, so the console's authority must not decide: the request is aborted.
fn user_on<T: Tables>(tables: &mut T, alloc: Global, id: &UserId) -> Result<User, StoreFault>
    ensures { Loads T.meaning tables.old tables.new result (λ s user. user_of s.policy.users id.now ≡ Some user) }
{
    match tables.user(alloc, id)? {
        Some(user) => Ok(user),
        None => Err(StoreFault::Store),
    }
}

/// The same, as a user.
pub(crate) fn acting_on<T: Tables>(
    tables: &mut T,
    alloc: Global,
    console: &ConsoleRow,
) -> Result<Option<User>, StoreFault>
    ensures acting { Loads T.meaning tables.old tables.new result (λ s u. u ≡ acting s console.now) }
    ensures stored { Answers T.meaning tables.old tables.new result (λ s _. IsConsoleOfStored s.policy console.now) }
{
    match console.user {
        Some(id) => Ok(Some(user_on(tables, alloc, &id)?)),
        None => own_user_on(tables, alloc, console),
    }
}

/// How needs are ruled on at a console, whatever is needed.
#[derive(Clone, Copy)]
pub enum RulingBasis {
    /// The logon rule denies everything.
    Denied(Rule),
    /// Profiles decide for this user.
    User(User),
    /// Nobody acts, or the class is inactive: the console's authority decides.
    Console,
}

/// How needs are ruled on at a console: who acts is loaded once, for the command and for all lines that it shows. If a
/// user is logged on who is not stored, this fails.
pub fn ruling_basis_at<T: Tables>(
    tables: &mut T,
    alloc: Global,
    console: &ConsoleRow,
) -> Result<RulingBasis, StoreFault>
    ensures basis { Loads T.meaning tables.old tables.new result (λ s basis. IsRulingBasis s console.now basis) }
    ensures stored { Answers T.meaning tables.old tables.new result (λ s _. IsConsoleOfStored s.policy console.now) }
{
    if is_required(console.mode) && console.user.is_none() {
        return Ok(RulingBasis::Denied(Rule::LogonRequired));
    }
    let Some(user) = acting_on(tables, alloc, console)? else {
        return Ok(RulingBasis::Console);
    };
    if user.revoked {
        return Ok(RulingBasis::Denied(Rule::Revoked));
    }
    // If the class is inactive, nothing is searched.
    if !tables.is_active(Class::Opercmds)? {
        return Ok(RulingBasis::Console);
    }
    Ok(RulingBasis::User(user))
}

/// The ruling on a need at a console, by how needs are ruled on there.
pub fn ruling_on<T: Tables>(
    tables: &mut T,
    alloc: Global,
    basis: &RulingBasis,
    console: &ConsoleRow,
    need: &Need,
) -> Result<Ruling, StoreFault>
    ensures { Loads T.meaning tables.old tables.new result
        (λ s r. IsRulingBasis s console.now basis.now → r ≡ ruling s console.now need.now) }
{
    match basis {
        RulingBasis::Denied(rule) => Ok(Ruling::Denied(*rule)),
        RulingBasis::User(user) => by_profile(tables, alloc, user, console, need),
        RulingBasis::Console => Ok(console_ruling(console.auth, need)),
    }
}

fn resource_of(name: &ConsoleName) -> Resource
    ensures { result ≡ name.now }
{
    name.as_kind()
}

/// The ruling on a user who logs on at a console.
pub fn logon_ruling_on<T: Tables>(
    tables: &mut T,
    alloc: Global,
    console: &ConsoleRow,
    user: &User,
) -> Result<Ruling, StoreFault>
    ensures { Loads T.meaning tables.old tables.new result (λ s r. r ≡ logon_ruling s console.now user.now) }
{
    if user.revoked {
        return Ok(Ruling::Denied(Rule::Revoked));
    }
    if !tables.is_active(Class::Console)? {
        return Ok(Ruling::Allowed(Rule::NoProfile));
    }
    let ruling = profile_ruling_on(
        tables,
        alloc,
        Class::Console,
        &resource_of(&console.name),
        user,
        &console.name,
        Level::Read,
    )?;
    Ok(ruling.unwrap_or(Ruling::Allowed(Rule::NoProfile)))
}

pub(crate) fn is_allowed(ruling: Ruling) -> bool
    ensures { result ≡ is_allowed ruling }
{
    match ruling {
        Ruling::Allowed(_) => true,
        Ruling::Denied(_) => false,
    }
}

fn to_show<K: NameKind<8>>(words: &str, name: &Name<K, 8>) -> Option<Need>
    requires words { IsTrue (is_resource words.now) }
    requires room { length words.now ≤ 30 }
    requires plain { IsTrue (is_plain K.rule.alphabet) }
    ensures { result ≡ to_show words.now name.now }
{
    Some(Need {
        resource: Resource::of_words(words).with(name),
        level: Level::Read,
        group: Group::Info,
    })
}

pub(crate) fn need_to_show(item: Item) -> Option<Need>
    ensures { result ≡ need_to_show item }
{
    match item {
        Item::Plain => None,
        Item::Unit(name) => to_show("MVS.DISPLAY.JOB", &name),
        Item::Console(name) => to_show("MVS.DISPLAY.CN", &name),
    }
}

// Whether a line may be shown.
fn is_shown<T: Tables>(
    tables: &mut T,
    alloc: Global,
    basis: &RulingBasis,
    console: &ConsoleRow,
    line: &Line,
) -> Result<bool, StoreFault>
    ensures { Loads T.meaning tables.old tables.new result
        (λ s b. IsRulingBasis s console.now basis.now → b ≡ shown s console.now line.now) }
{
    match need_to_show(line.item) {
        None => Ok(true),
        Some(need) => {
            let ruling = ruling_on(tables, alloc, basis, console, &need)?;
            Ok(is_allowed(ruling))
        }
    }
}

// The lines that may be shown at a console, each of which is ruled on alone.
fn shown_one_by_one<T: Tables>(
    tables: &mut T,
    alloc: Global,
    basis: &RulingBasis,
    console: &ConsoleRow,
    lines: Vec<Line>,
) -> Result<Rows<Line>, StoreFault>
    ensures { Loads T.meaning tables.old tables.new result
        (λ s kept. IsRulingBasis s console.now basis.now → kept ≡ filter (shown s console.now) lines.items) }
{
    let mut kept = Rows::new(alloc);
    for line in lines {
        if is_shown(tables, alloc, basis, console, &line)? {
            kept.push(line)?;
        }
    }
    Ok(kept)
}

/// The lines that may be shown at a console, by how needs are ruled on there. If profiles decide and there are many
/// lines, the profiles that may decide one of them are loaded together.
pub fn shown_lines<T: Tables>(
    tables: &mut T,
    alloc: Global,
    basis: &RulingBasis,
    console: &ConsoleRow,
    lines: Vec<Line>,
) -> Result<Rows<Line>, StoreFault>
    ensures { Loads T.meaning tables.old tables.new result
        (λ s kept. IsRulingBasis s console.now basis.now → kept ≡ filter (shown s console.now) lines.items) }
{
    match (basis, beginning_of(lines.as_slice())) {
        (RulingBasis::User(user), Some(beginning)) => {
            shown_together(tables, alloc, &beginning, user, console, lines)
        }
        // The lines are few, or no profile decides for the acting user.
        _ => shown_one_by_one(tables, alloc, basis, console, lines),
    }
}
