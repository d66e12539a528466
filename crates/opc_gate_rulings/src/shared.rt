//! Rulings on many lines at once: the profiles that may decide one of them are loaded together, and the level that the
//! user holds is found once for each that decides.
ghost use Rattle.std.specs.Prelude.{◌≡◌, ◌<◌, ◌++◌, ℕ, List, IfOk, IfSome, None, Some, length, replicate, slice_get, true, vec_len};
ghost use Rattle.std.specs.Str.{IsAscii};
ghost use Rattle.opc_names.specs.declared.class.Class.TheVariants.{Opercmds};
ghost use Rattle.opc_policy.specs.Rulings.{ruling as policy_ruling};
ghost use Rattle.opc_policy_members.specs.Members.{groups_of};
ghost use Rattle.opc_policy_members.specs.declared.profile.Profile.{Profile};
ghost use Rattle.opc_policy_shared.specs.Shared.{IsBeginning};
ghost use Rattle.opc_state.specs.Asked.{Answers, Loads};
ghost use Rattle.opc_state.specs.Changes.{IsKept};
ghost use Rattle.opc_state.specs.State.{State, deciding_in};
ghost use Rattle.opc_gate_rulings.specs.Held.{class_ruling, held_in};
ghost use Rattle.opc_gate_rulings.specs.RulingBasis.{IsRulingBasis};
ghost use Rattle.opc_gate_rulings.specs.Shared.{AreKnown, AreLoaded};

use crate::held::level_on;
use crate::ruling::by_profile;
use opc_board::line::{Item, Line};
use opc_board::rows::ConsoleRow;
use opc_names::class::Class;
use opc_names::level::Level;
use opc_names::name::ConsoleName;
use opc_policy::ruling::{Ruling, console_ruling, ruling_at};
use opc_policy_members::user::User;
use opc_policy_shared::Candidates;
use opc_state::tables::Tables;
use opc_terms::need::Need;
use opc_terms::store_fault::StoreFault;
use std::alloc::{AllocError, Global};

/// What the resources of lines about units, or about consoles, begin with, and the last of the heads that go on after
/// it.
#[derive(Clone, Copy)]
pub(crate) struct Beginning {
    pub first: &'static str,
    pub last: &'static str,
}

const UNITS: Beginning = Beginning {
    first: "MVS.DISPLAY.JOB.",
    last: "MVS.DISPLAY.JOB/",
};

const CONSOLES: Beginning = Beginning {
    first: "MVS.DISPLAY.CN.",
    last: "MVS.DISPLAY.CN/",
};

/// With fewer lines, a search for each costs less than loading all profiles that may decide one of them.
const MANY: usize = 8;

/// What the resources of many lines begin with: that of the first line which is about a unit or a console. None if the
/// lines are few.
pub(crate) fn beginning_of(lines: &[Line]) -> Option<Beginning>
    ensures bounds { IfSome result (λ b. IsBeginning b.first.now b.last.now) }
    ensures ascii { IfSome result (λ b. IsAscii b.first.now) }
{
    if lines.len() < MANY {
        return None;
    }
    for line in lines {
        match line.item {
            Item::Plain => {}
            Item::Unit(_) => return Some(UNITS),
            Item::Console(_) => return Some(CONSOLES),
        }
    }
    None
}

/// What resources begin with, and the profiles that may decide those.
#[derive(Drop)]
pub(crate) struct Shortlist {
    pub beginning: &'static str,
    pub candidates: Candidates,
}

/// The profiles that may decide resources with a beginning: those whose heads go on after it, and those whose heads are
/// its prefixes.
pub(crate) fn candidates_on<T: Tables>(
    tables: &mut T,
    alloc: Global,
    beginning: &Beginning,
) -> Result<Candidates, StoreFault>
    requires bounds { IsBeginning beginning.now.first.now beginning.now.last.now }
    requires ascii { IsAscii beginning.now.first.now }
    ensures { Loads T.meaning tables.old tables.new result
        (λ s candidates. AreLoaded s beginning.now.first.now candidates) }
{
    let first = beginning.first;
    let mut profiles = tables.definitions_between(alloc, Class::Opercmds, first, beginning.last)?;
    for length in 0..first.len() {
        let head = &first[..length];
        let mut more = tables.definitions_between(alloc, Class::Opercmds, head, head)?;
        profiles.append(&mut more)?;
    }
    Ok(Candidates::of(alloc, profiles)?)
}

/// As many levels as there are candidates, none of which is known.
pub(crate) fn unknown(alloc: Global, count: usize) -> Result<Vec<Option<Level>>, AllocError>
    ensures { IfOk result (λ levels. levels.items ≡ replicate count None) }
{
    Vec::from_elem(alloc, None, count)
}

/// The level that a user holds in the candidate in a place. It is found in the tables only once.
#[tactic(auto, using(crate::proofs::Together::one_known))]
fn level_among<T: Tables>(
    tables: &mut T,
    alloc: Global,
    candidates: &Candidates,
    place: usize,
    levels: &mut Vec<Option<Level>>,
    user: &User,
    console: &ConsoleName,
) -> Result<Level, StoreFault>
    requires len { vec_len levels.old ≡ length candidates.now }
    requires there { place < length candidates.now }
    ensures len { vec_len levels.new ≡ vec_len levels.old }
    ensures kept { IsKept T.meaning tables.old tables.new }
    ensures known { T.meaning.is_sure tables.new → (s : State) → T.meaning.represents tables.old s
        → AreKnown s user.now console.now candidates.now levels.old.items
        → AreKnown s user.now console.now candidates.now levels.new.items }
    ensures level { Answers T.meaning tables.old tables.new result (λ s level. (p : Profile)
        → AreKnown s user.now console.now candidates.now levels.old.items → slice_get candidates.now place ≡ Some p
        → level ≡ held_in s.policy p user.now console.now) }
{
    if let Some(level) = levels[place] {
        return Ok(level);
    }
    let level = level_on(tables, alloc, candidates.at(place), user, console)?;
    levels[place] = Some(level);
    Ok(level)
}

/// What the candidate that decides a resource rules on a user at a console, if one decides.
#[tactic(auto, using(crate::proofs::Together::one_among, crate::proofs::Together::none_among))]
fn ruling_among<T: Tables>(
    tables: &mut T,
    alloc: Global,
    candidates: &Candidates,
    levels: &mut Vec<Option<Level>>,
    user: &User,
    console: &ConsoleName,
    need: &Need,
) -> Result<Option<Ruling>, StoreFault>
    requires { vec_len levels.old ≡ length candidates.now }
    ensures len { vec_len levels.new ≡ vec_len levels.old }
    ensures kept { IsKept T.meaning tables.old tables.new }
    ensures known { T.meaning.is_sure tables.new → (s : State) → T.meaning.represents tables.old s
        → AreKnown s user.now console.now candidates.now levels.old.items
        → AreKnown s user.now console.now candidates.now levels.new.items }
    ensures ruling { Answers T.meaning tables.old tables.new result (λ s r.
        (beginning rest : List ℕ) → AreLoaded s beginning candidates.now → need.now.resource ≡ beginning ++ rest
        → AreKnown s user.now console.now candidates.now levels.old.items
        → r ≡ class_ruling true (deciding_in s.policy Opercmds need.now.resource) user.now (Some console.now)
        (groups_of s.policy.connects user.now.id) need.now.level) }
{
    let Some(place) = candidates.deciding(&need.resource) else {
        return Ok(None);
    };
    let held = level_among(tables, alloc, candidates, place, levels, user, console)?;
    let profile = candidates.at(place);
    Ok(Some(ruling_at(profile, held, need.level)))
}

/// The ruling on a user at a console: by the candidates, if the resource has their beginning.
pub(crate) fn by_candidates<T: Tables>(
    tables: &mut T,
    alloc: Global,
    shortlist: &Shortlist,
    levels: &mut Vec<Option<Level>>,
    user: &User,
    console: &ConsoleRow,
    need: &Need,
) -> Result<Ruling, StoreFault>
    requires { vec_len levels.old ≡ length shortlist.now.candidates }
    ensures len { vec_len levels.new ≡ vec_len levels.old }
    ensures kept { IsKept T.meaning tables.old tables.new }
    ensures known { T.meaning.is_sure tables.new → (s : State) → T.meaning.represents tables.old s
        → AreKnown s user.now console.now.name shortlist.now.candidates levels.old.items
        → AreKnown s user.now console.now.name shortlist.now.candidates levels.new.items }
    ensures ruling { Answers T.meaning tables.old tables.new result (λ s r.
        AreLoaded s shortlist.now.beginning.now shortlist.now.candidates
        → AreKnown s user.now console.now.name shortlist.now.candidates levels.old.items
        → r ≡ policy_ruling true (deciding_in s.policy Opercmds need.now.resource) (Some user.now)
        (Some console.now.name) (groups_of s.policy.connects user.now.id) console.now.auth need.now) }
{
    if !need.resource.text().starts_with(shortlist.beginning) {
        return by_profile(tables, alloc, user, console, need);
    }
    let ruling = ruling_among(
        tables,
        alloc,
        &shortlist.candidates,
        levels,
        user,
        &console.name,
        need,
    )?;
    Ok(ruling.unwrap_or(console_ruling(console.auth, need)))
}
