//! What is done to consoles.
ghost use Rattle.std.specs.Prelude.{◌≡◌, ◌&&◌, not};
ghost use Rattle.std.specs.List.{list_any};
ghost use Rattle.opc_board.specs.Consoles.{new_console};
ghost use Rattle.opc_board.specs.Invariants.{is, is_master};
ghost use Rattle.opc_board.specs.Footprint.{has_other_master};
ghost use Rattle.opc_state.specs.Asked.{Loads};
ghost use Rattle.opc_state.specs.Invariants.{IsKeyed};
ghost use Rattle.opc_machine.specs.declared.operation.Operation.TheVariants as operation;
ghost use Rattle.opc_gate_admin.specs.Operations.{ComesTo, same_setting};

use crate::outcomes::done_by;
use opc_board::rows::ConsoleRow;
use opc_machine::outcome::{Outcome, done, refused};
use opc_names::auth::Auth;
use opc_names::name::ConsoleName;
use opc_state::change::Edit;
use opc_state::tables::Tables;
use opc_terms::fault::Fault;
use opc_terms::mode::Mode;
use opc_terms::store_fault::StoreFault;
use std::alloc::Global;

// A new console is online with nobody logged on.
fn new_console(name: ConsoleName, auth: Auth, mode: Mode) -> ConsoleRow
    ensures { result ≡ new_console name auth mode }
{
    ConsoleRow {
        name,
        auth,
        mode,
        online: true,
        user: None,
        monitor: false,
    }
}

#[tactic(auto, using(opc_state::proofs::SameRows::same_auths, opc_state::proofs::SameRows::same_modes))]
fn same_setting(console: &ConsoleRow, other: &ConsoleRow) -> bool
    ensures { result ≡ same_setting console.now other.now }
{
    console.auth == other.auth && console.mode == other.mode
}

fn any_other(consoles: &[ConsoleRow], name: &ConsoleName) -> bool
    ensures { result ≡ list_any (λ c. not (is c.name name.now)) consoles.now }
{
    consoles.iter().any(|console| console.name != *name)
}

// Whether there is an online console with AUTH MASTER other than this one. Of two masters, at least one is.
fn has_other_master<T: Tables>(
    tables: &mut T,
    alloc: Global,
    name: &ConsoleName,
) -> Result<bool, StoreFault>
    ensures { Loads T.meaning tables.old tables.new result
        (λ s other. IsKeyed s → other ≡ has_other_master name.now s.board.consoles) }
{
    let masters = tables.masters(alloc)?;
    Ok(any_other(masters.as_slice(), name))
}

// Whether the last master is lost if the row of a console becomes another.
fn loses_master<T: Tables>(
    tables: &mut T,
    alloc: Global,
    old: &ConsoleRow,
    new: &ConsoleRow,
) -> Result<bool, StoreFault>
    ensures { Loads T.meaning tables.old tables.new result (λ s lost. IsKeyed s →
        lost ≡ is_master old.now && (not (is_master new.now) && not (has_other_master old.now.name s.board.consoles))) }
{
    if !old.is_master() || new.is_master() {
        return Ok(false);
    }
    Ok(!has_other_master(tables, alloc, &old.name)?)
}

/// A console gets an authority and a mode; a new one is online with nobody logged on. One that is there keeps all else,
/// and the last online console with AUTH MASTER is not lost by it (E41).
pub(crate) fn define_console<T: Tables>(
    tables: &mut T,
    alloc: Global,
    name: ConsoleName,
    auth: Auth,
    mode: Mode,
) -> Result<Outcome, StoreFault>
    ensures { ComesTo T.meaning tables.old tables.new result (operation.DefineConsole name auth mode) }
{
    let stored = match tables.console(&name)? {
        Some(stored) => stored,
        None => return done_by(alloc, Edit::PutConsole(new_console(name, auth, mode))),
    };
    let console = ConsoleRow {
        auth,
        mode,
        ..stored
    };
    if same_setting(&stored, &console) {
        return done(alloc, Vec::new(alloc), None);
    }
    if loses_master(tables, alloc, &stored, &console)? {
        return refused(Fault::LastMaster, None);
    }
    done_by(alloc, Edit::PutConsole(console))
}
