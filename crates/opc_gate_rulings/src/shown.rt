//! Which of many lines may be shown to a user.
ghost use Rattle.std.specs.Prelude.{◌≡◌, filter, length, vec_len};
ghost use Rattle.std.specs.Str.{IsAscii};
ghost use Rattle.opc_machine.specs.Rulings.{shown};
ghost use Rattle.opc_policy_shared.specs.Shared.{IsBeginning};
ghost use Rattle.opc_state.specs.Asked.{Answers, Loads};
ghost use Rattle.opc_state.specs.Changes.{IsKept};
ghost use Rattle.opc_state.specs.State.{State};
ghost use Rattle.opc_gate_rulings.specs.RulingBasis.{IsRulingBasis};
ghost use Rattle.opc_gate_rulings.specs.Shared.{AreKnown, AreLoaded};
ghost use Rattle.opc_gate_rulings.specs.declared.ruling.RulingBasis.TheVariants.{User as TheUser};

use crate::ruling::{is_allowed, need_to_show};
use crate::shared::{Beginning, Shortlist, by_candidates, candidates_on, unknown};
use opc_board::line::Line;
use opc_board::rows::ConsoleRow;
use opc_names::level::Level;
use opc_policy_members::user::User;
use opc_rows::Rows;
use opc_state::tables::Tables;
use opc_terms::store_fault::StoreFault;
use std::alloc::Global;

/// Whether a line may be shown to a user at a console: by the candidates, if its resource has their beginning.
fn is_shown_among<T: Tables>(
    tables: &mut T,
    alloc: Global,
    shortlist: &Shortlist,
    levels: &mut Vec<Option<Level>>,
    user: &User,
    console: &ConsoleRow,
    line: &Line,
) -> Result<bool, StoreFault>
    requires { vec_len levels.old ≡ length shortlist.now.candidates }
    ensures len { vec_len levels.new ≡ vec_len levels.old }
    ensures kept { IsKept T.meaning tables.old tables.new }
    ensures known { T.meaning.is_sure tables.new → (s : State) → T.meaning.represents tables.old s
        → AreKnown s user.now console.now.name shortlist.now.candidates levels.old.items
        → AreKnown s user.now console.now.name shortlist.now.candidates levels.new.items }
    ensures shown { Answers T.meaning tables.old tables.new result (λ s b.
        AreLoaded s shortlist.now.beginning.now shortlist.now.candidates
        → AreKnown s user.now console.now.name shortlist.now.candidates levels.old.items
        → IsRulingBasis s console.now (TheUser user.now) → b ≡ shown s console.now line.now) }
{
    match need_to_show(line.item) {
        None => Ok(true),
        Some(need) => {
            let ruling = by_candidates(tables, alloc, shortlist, levels, user, console, &need)?;
            Ok(is_allowed(ruling))
        }
    }
}

/// The lines that may be shown to a user at a console: by the candidates, if their resources have their beginning.
fn shown_among<T: Tables>(
    tables: &mut T,
    alloc: Global,
    shortlist: &Shortlist,
    user: &User,
    console: &ConsoleRow,
    lines: Vec<Line>,
) -> Result<Rows<Line>, StoreFault>
    ensures { Loads T.meaning tables.old tables.new result (λ s kept. AreLoaded s shortlist.now.beginning.now shortlist.now.candidates
        → IsRulingBasis s console.now (TheUser user.now) → kept ≡ filter (shown s console.now) lines.items) }
{
    let mut levels = unknown(alloc, shortlist.candidates.len())?;
    let mut kept = Rows::new(alloc);
    for line in lines {
        if is_shown_among(tables, alloc, shortlist, &mut levels, user, console, &line)? {
            kept.push(line)?;
        }
    }
    Ok(kept)
}

/// The lines that may be shown to a user at a console. The profiles that may decide those whose resources have a
/// beginning are loaded once.
pub(crate) fn shown_together<T: Tables>(
    tables: &mut T,
    alloc: Global,
    beginning: &Beginning,
    user: &User,
    console: &ConsoleRow,
    lines: Vec<Line>,
) -> Result<Rows<Line>, StoreFault>
    requires bounds { IsBeginning beginning.now.first.now beginning.now.last.now }
    requires ascii { IsAscii beginning.now.first.now }
    ensures { Loads T.meaning tables.old tables.new result
        (λ s kept. IsRulingBasis s console.now (TheUser user.now) → kept ≡ filter (shown s console.now) lines.items) }
{
    let shortlist = Shortlist {
        beginning: beginning.first,
        candidates: candidates_on(tables, alloc, beginning)?,
    };
    shown_among(tables, alloc, &shortlist, user, console, lines)
}
