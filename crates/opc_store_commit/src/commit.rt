//! Changes in one transaction.
ghost use Rattle.std.specs.Prelude.{◌≡◌, OnOk, OnErr, IsTrue, false};
ghost use Rattle.sqlite.specs.Held.{state};
ghost use Rattle.sqlite.specs.State.{HasCleanDisk, Survives};
ghost use Rattle.opc_store_sql.specs.Steps.{Stays};
ghost use Rattle.opc_state.specs.Changes.{edited, all_edited, changed_by};
ghost use Rattle.opc_store_schema.specs.Asked.{Makes};
ghost use Rattle.opc_store_schema.specs.Ending.{IsUndone, IsCommitted};
ghost use Rattle.opc_store_schema.specs.Represented.{Represents, AreTablesOf};

use opc_state::change::{Change, Edit};
use opc_store_board::consoles::{put_console, remove_console};
use opc_store_board::day::set_halted;
use opc_store_board::devices::{put_device, remove_device};
use opc_store_board::replies::{put_reply, remove_reply};
use opc_store_board::units::{put_unit, remove_unit};
use opc_store_history::account::account_for;
use opc_store_history::answered::add_answered;
use opc_store_history::batches::put_batch;
use opc_store_history::log::add_log;
use opc_store_history::messages::add_message;
use opc_store_profiles::entries::{put_entry, remove_entry};
use opc_store_profiles::profiles::{put_profile, remove_profile};
use opc_store_schema::faults::fault;
use opc_store_users::classes::set_active;
use opc_store_users::connects::{put_connect, remove_connect};
use opc_store_users::groups::{put_group, remove_group};
use opc_store_users::users::{put_user, remove_user};
use opc_terms::store_fault::StoreFault;
use sqlite::{Alter, Connection, Error, Transaction};
use std::alloc::Global;

fn apply<S: Alter>(alloc: Global, tx: &mut Transaction<'_, S>, edit: &Edit) -> Result<(), Error>
    ensures same_reference { tx.new.conn.ghost_name ≡ tx.old.conn.ghost_name }
    ensures stays { Stays S.Store tx.old.conn.now tx.new.conn.now result }
    ensures done { Makes S.Store tx.old.conn.now tx.new.conn.now result (edited edit.now) }
{
    match edit {
        Edit::SetActive(class, active) => set_active(tx, *class, *active),
        Edit::PutGroup(name) => put_group(tx, name),
        Edit::RemoveGroup(name) => remove_group(tx, name),
        Edit::PutUser(user) => put_user(tx, user),
        Edit::RemoveUser(id) => remove_user(tx, id),
        Edit::PutConnect(connect) => put_connect(tx, connect),
        Edit::RemoveConnect(connect) => remove_connect(tx, connect),
        Edit::PutProfile(profile) => put_profile(tx, profile),
        Edit::RemoveProfile(class, pattern) => remove_profile(tx, *class, pattern),
        Edit::PutEntry(class, pattern, entry) => put_entry(tx, *class, pattern, entry),
        Edit::RemoveEntry(class, pattern, id, when) => {
            remove_entry(tx, *class, pattern, id, *when)
        }
        Edit::PutUnit(unit) => put_unit(tx, unit),
        Edit::RemoveUnit(name) => remove_unit(tx, name),
        Edit::PutDevice(device) => put_device(tx, device),
        Edit::RemoveDevice(number) => remove_device(tx, number),
        Edit::PutConsole(console) => put_console(tx, console),
        Edit::RemoveConsole(name) => remove_console(tx, name),
        Edit::PutReply(reply) => put_reply(tx, reply),
        Edit::RemoveReply(id) => remove_reply(tx, *id),
        Edit::SetHalted(halted) => set_halted(tx, *halted),
        Edit::AddAnswered(reply) => add_answered(tx, reply),
        Edit::AddLog(text) => add_log(tx, text),
        Edit::AddMessage(message) => add_message(tx, message),
        Edit::PutBatch(batch) => put_batch(alloc, tx, batch),
    }
}

/// All edits, one after another.
pub fn apply_all<S: Alter>(
    alloc: Global,
    tx: &mut Transaction<'_, S>,
    edits: &[Edit],
) -> Result<(), Error>
    ensures same_reference { tx.new.conn.ghost_name ≡ tx.old.conn.ghost_name }
    ensures stays { Stays S.Store tx.old.conn.now tx.new.conn.now result }
    ensures done { Makes S.Store tx.old.conn.now tx.new.conn.now result (all_edited edits.now) }
{
    for edit in edits {
        apply(alloc, tx, edit)?;
    }
    Ok(())
}

// All edits and the row of the account, or nothing.
fn transact<S: Alter>(alloc: Global, conn: &mut Connection<S>, change: &Change) -> Result<(), Error>
    requires { conn.old.in_transaction ≡ false }
    ensures mode { conn.new.in_transaction ≡ false }
    ensures done { Makes S.Store conn.old conn.new result (changed_by change.now) }
    ensures failed { IsUndone S.Store conn.old conn.new result }
    ensures settled { IsCommitted S.Store conn.new result }
    ensures survives { Survives (state S.Store conn.old) (state S.Store conn.new)
        (λ db. (s : _) → Represents (state S.Store conn.old).now s → AreTablesOf db (changed_by change.now s)) }
{
    // For the prover alone: this call's clause states that outside a transaction all that is stored is committed.
    let _settled = conn.is_autocommit();
    let mut tx = conn.transaction();
    apply_all(alloc, &mut tx, change.edits.as_slice())?;
    account_for(&mut tx, &change.account)?;
    tx.commit()
}

/// One transaction: all edits and the row of the account, or nothing.
pub fn commit_on<S: Alter>(
    alloc: Global,
    conn: &mut Connection<S>,
    change: &Change,
) -> Result<(), StoreFault>
    requires { conn.old.in_transaction ≡ false }
    ensures mode { conn.new.in_transaction ≡ false }
    ensures done { Makes S.Store conn.old conn.new result (changed_by change.now) }
    ensures failed { HasCleanDisk (state S.Store conn.new) → IsTrue (state S.Store conn.new).is_open
        → OnErr result ((s : _) → Represents (state S.Store conn.old).now s
        → Represents (state S.Store conn.new).now s) }
    ensures acknowledged { HasCleanDisk (state S.Store conn.new)
        → OnOk result ((db : _) → (state S.Store conn.new).may_leave db → (s : _)
        → Represents (state S.Store conn.old).now s → AreTablesOf db (changed_by change.now s)) }
    ensures crash { Survives (state S.Store conn.old) (state S.Store conn.new)
        (λ db. (s : _) → Represents (state S.Store conn.old).now s → AreTablesOf db (changed_by change.now s)) }
{
    match transact(alloc, conn, change) {
        Ok(()) => Ok(()),
        Err(error) => Err(fault(error)),
    }
}
