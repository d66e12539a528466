//! Listings of profiles.
ghost use Rattle.std.specs.Prelude.{◌≡◌, ◌∷◌, ◌||◌, [], IfOk, codes, filter, map, string_bytes};
ghost use Rattle.opc_board.specs.Invariants.{Name, console_at};
ghost use Rattle.opc_board.specs.Texts.{columns};
ghost use Rattle.opc_policy_members.specs.Profiles.{of_class};
ghost use Rattle.opc_policy_members.specs.Members.{groups_of};
ghost use Rattle.opc_state.specs.Asked.{Loads};
ghost use Rattle.opc_machine.specs.Effects.{IsOutcome};
ghost use Rattle.opc_machine.specs.Listings.{profile_line, profiles_outcome};
ghost use Rattle.opc_machine.specs.Rights.{profile_shown};
ghost use Rattle.opc_machine.specs.Rulings.{acting};
ghost use Rattle.opc_gate_listings.specs.Seen.{holds_read, is_seen};

use crate::listing::listing;
use opc_board::line::{Item, Line};
use opc_board::rows::ConsoleRow;
use opc_board::text::KeptText;
use opc_gate_rulings::requester::{Asking, Requester, owns, requester_on, sees_all};
use opc_machine::outcome::Outcome;
use opc_names::class::Class;
use opc_names::level::Level;
use opc_names::name::{GroupName, UserId};
use opc_policy_members::profile::Profile;
use opc_policy_members::user::User;
use opc_rows::Rows;
use opc_state::tables::Tables;
use opc_terms::store_fault::StoreFault;
use std::alloc::{AllocError, Global};

fn warned_text(alloc: Global, pattern: &str, uacc: &str, owner: &str) -> Result<String, AllocError>
    ensures { IfOk result (λ text. string_bytes text ≡ columns
        (pattern.now ∷ codes "UACC" ∷ uacc.now ∷ codes "OWNER" ∷ owner.now ∷ codes "WARNING" ∷ [])) }
{
    format!(in alloc; "{pattern} UACC {uacc} OWNER {owner} WARNING")
}

fn profile_text(alloc: Global, profile: &Profile) -> Result<String, AllocError>
    ensures { IfOk result (λ text. string_bytes text ≡ (profile_line profile.now).text) }
{
    let (pattern, owner) = (profile.pattern.text(), profile.owner.text());
    let uacc = profile.uacc.text();
    if profile.warning {
        warned_text(alloc, pattern, uacc, owner)
    } else {
        format!(in alloc; "{pattern} UACC {uacc} OWNER {owner}")
    }
}

fn profile_line(alloc: Global, profile: &Profile) -> Result<Line, AllocError>
    ensures { IfOk result (λ line. line ≡ profile_line profile.now) }
{
    Ok(Line {
        item: Item::Plain,
        text: KeptText::from(profile_text(alloc, profile)?),
    })
}

// The lines of profiles, one of each.
fn profile_lines(alloc: Global, profiles: &[Profile]) -> Result<Rows<Line>, StoreFault>
    ensures { IfOk result (λ lines. lines ≡ map profile_line profiles.now) }
{
    let mut lines = Rows::new(alloc);
    for profile in profiles {
        let line = profile_line(alloc, profile)?;
        lines.push(line)?;
    }
    Ok(lines)
}

// Whether a user of these groups holds READ in a profile at a console. A warning gives nothing.
fn holds_read(console: &ConsoleRow, user: &User, groups: &[GroupName], profile: &Profile) -> bool
    ensures { result ≡ holds_read console.now user.now groups.now profile.now }
{
    let level = profile.level_of(user, Some(&console.name), groups);
    level.includes(Level::Read)
}

// The lines of the profiles that are shown to a user who does not see all.
fn seen_lines(
    alloc: Global,
    console: &ConsoleRow,
    user: &User,
    groups: &[GroupName],
    profiles: &[Profile],
) -> Result<Rows<Line>, StoreFault>
    ensures { IfOk result (λ lines. lines ≡ map profile_line
        (filter (is_seen console.now user.now groups.now) profiles.now)) }
{
    let mut lines = Rows::new(alloc);
    for profile in profiles {
        if owns(user, profile) || holds_read(console, user, groups, profile) {
            let line = profile_line(alloc, profile)?;
            lines.push(line)?;
        }
    }
    Ok(lines)
}

// All groups of a user.
fn all_groups<T: Tables>(
    tables: &mut T,
    alloc: Global,
    user: &UserId,
) -> Result<Vec<GroupName>, StoreFault>
    ensures { Loads T.meaning tables.old tables.new result
        (λ s groups. groups.items ≡ groups_of s.policy.connects user.now) }
{
    let groups = tables.groups_of(alloc, user, u32::MAX)?;
    // There are fewer groups than this, so these are all. With 4,294,967,295 the listing would be aborted.
    if groups.len() >= u32::MAX as usize {
        return Err(StoreFault::Store);
    }
    Ok(groups)
}

// The profiles of a class, for a user who sees all of them: no access list is loaded.
#[tactic(auto, using(crate::proofs::Listed::bare_lines))]
fn all_on<T: Tables>(tables: &mut T, alloc: Global, class: Class) -> Result<Rows<Line>, StoreFault>
    ensures { Loads T.meaning tables.old tables.new result
        (λ s lines. lines ≡ map profile_line (of_class class s.policy.profiles)) }
{
    let profiles = tables.definitions(alloc, class)?;
    profile_lines(alloc, profiles.as_slice())
}

// The profiles that are shown at a console to a user who does not see all.
fn seen_on<T: Tables>(
    tables: &mut T,
    alloc: Global,
    console: &ConsoleRow,
    user: &User,
    class: Class,
) -> Result<Rows<Line>, StoreFault>
    ensures { Loads T.meaning tables.old tables.new result
        (λ s lines. lines ≡ map profile_line
        (filter (is_seen console.now user.now (groups_of s.policy.connects user.now.id))
        (of_class class s.policy.profiles))) }
{
    let groups = all_groups(tables, alloc, &user.id)?;
    let profiles = tables.profiles(alloc, class)?;
    seen_lines(alloc, console, user, groups.as_slice(), profiles.as_slice())
}

// The lines for the acting user, of one class in one pass: all for SPECIAL and AUDITOR, without access lists; none if
// nobody acts; otherwise by access lists and the user's groups.
#[tactic(auto, using(crate::proofs::Listed::all_shown, crate::proofs::Listed::none_shown, crate::proofs::Listed::seen_shown))]
fn lines_on<T: Tables>(
    tables: &mut T,
    alloc: Global,
    asking: &Requester,
    class: Class,
) -> Result<Rows<Line>, StoreFault>
    ensures { Loads T.meaning tables.old tables.new result
        (λ s lines. asking.now.user ≡ acting s asking.now.console
        → lines ≡ map profile_line (filter (profile_shown s asking.now.console) (of_class class s.policy.profiles))) }
{
    if sees_all(&asking.user) {
        return all_on(tables, alloc, class);
    }
    match &asking.user {
        Some(user) => seen_on(tables, alloc, &asking.console, user, class),
        None => Ok(Rows::new(alloc)),
    }
}

/// The outcome of a listing of the profiles of a class at a console, whose row is loaded: those that may be shown
/// there, in their order.
pub fn profiles_on<T: Tables>(
    tables: &mut T,
    alloc: Global,
    console: Option<ConsoleRow>,
    class: Class,
) -> Result<Outcome, StoreFault>
    ensures { Loads T.meaning tables.old tables.new result
        (λ s o. (name : Name) → console ≡ console_at s.board name → IsOutcome s (profiles_outcome s name class) o) }
{
    let requester = match requester_on(tables, alloc, console)? {
        Asking::By(requester) => requester,
        Asking::Refused(refusal) => return Ok(Outcome::Refused(refusal)),
    };
    let lines = lines_on(tables, alloc, &requester, class)?;
    listing(alloc, lines)
}
