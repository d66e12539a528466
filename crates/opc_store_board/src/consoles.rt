//! The table of consoles.
ghost use Rattle.std.specs.Prelude.{◌≡◌, false, take, IfOk, pos};
ghost use Rattle.opc_store_sql.specs.Steps.{Stays, Looks};
ghost use Rattle.std.specs.Option.{option_copied};
ghost use Rattle.opc_store_schema.specs.Asked.{Finds, Makes};
ghost use Rattle.opc_store_schema.specs.Represented.{auth_number, mode_letter, console_row};
ghost use Rattle.opc_state.specs.Changes.{with_consoles};
ghost use Rattle.opc_state.specs.Loads.{consoles_of, masters};
ghost use Rattle.opc_state.specs.Members.{with_console, without_console};
ghost use Rattle.opc_board.specs.Invariants.{console_at};
ghost use Rattle.sqlite.specs.Order.{column};
ghost use Rattle.sqlite.specs.declared.types.Value.TheVariants.{Int, Text};
ghost use Rattle.opc_names.specs.declared.auth.Auth.{Auth as TheAuth};
ghost use Rattle.opc_terms.specs.declared.mode.Mode.{Mode as TheMode};

use opc_board::rows::ConsoleRow;
use opc_names::auth::Auth;
use opc_names::name::{ConsoleName, UserId};
use opc_rows::Rows;
use opc_store_schema::columns::{TableRow, name_in, name_or_none_in, text_at, value_in};
use opc_store_schema::faults::unreadable;
use opc_store_schema::queries::{member_on, members_on};
use opc_store_sql::{put, run};
use opc_terms::mode::Mode;
use opc_terms::store_fault::StoreFault;
use sqlite::{Alter, Connection, Error, Row, Transaction, params};
use std::alloc::Global;

/// The table of consoles.
pub struct ConsoleTable;

impl TableRow<ConsoleRow> for ConsoleTable {
    ghost row_of = { console_row };

    fn decode(row: &Row) -> Result<ConsoleRow, StoreFault> {
        Ok(ConsoleRow {
            name: name_in(row, 0)?,
            auth: auth_in(row)?,
            mode: mode_in(row)?,
            online: value_in(row, 3)?,
            user: name_or_none_in(row, 4)?,
            monitor: value_in(row, 5)?,
        })
    }
}

/// Puts a console, in the place of the one of its name.
pub fn put_console<S: Alter>(tx: &mut Transaction<'_, S>, console: &ConsoleRow) -> Result<(), Error>
    ensures same_reference { tx.new.conn.ghost_name ≡ tx.old.conn.ghost_name }
    ensures stays { Stays S.Store tx.old.conn.now tx.new.conn.now result }
    ensures done { Makes S.Store tx.old.conn.now tx.new.conn.now result
        (λ s. with_consoles (with_console console.now s.board.consoles) s) }
{
    put(
        tx,
        "UPDATE consoles SET name = ?1, auth = ?2, mode = ?3, online = ?4, usr = ?5, monitor = ?6 WHERE name = ?1",
        "INSERT INTO consoles VALUES (?1, ?2, ?3, ?4, ?5, ?6)",
        params![
            console.name.text(),
            number_of(console.auth),
            letter_of(console.mode),
            console.online,
            user_of(console),
            console.monitor
        ],
    )
}

/// Removes the console of a name.
pub fn remove_console<S: Alter>(
    tx: &mut Transaction<'_, S>,
    name: &ConsoleName,
) -> Result<(), Error>
    ensures same_reference { tx.new.conn.ghost_name ≡ tx.old.conn.ghost_name }
    ensures stays { Stays S.Store tx.old.conn.now tx.new.conn.now result }
    ensures done { Makes S.Store tx.old.conn.now tx.new.conn.now result
        (λ s. with_consoles (without_console name.now s.board.consoles) s) }
{
    run(
        tx,
        "DELETE FROM consoles WHERE name = ?1",
        params![name.text()],
    )?;
    Ok(())
}

/// INFO, ALL and MASTER, or 8 and a sum of SYS 1, IO 2 and CONS 4.
fn number_of(auth: Auth) -> u32
    ensures { result ≡ auth_number auth }
{
    match auth {
        Auth::Info => 0,
        Auth::All => 1,
        Auth::Master => 2,
        Auth::Sys => 9,
        Auth::Io => 10,
        Auth::SysIo => 11,
        Auth::Cons => 12,
        Auth::SysCons => 13,
        Auth::IoCons => 14,
        Auth::SysIoCons => 15,
    }
}

fn letter_of(mode: Mode) -> &'static str
    ensures { result.now ≡ mode_letter mode }
{
    match mode {
        Mode::Optional => "O",
        Mode::Required => "R",
        Mode::Auto => "A",
    }
}

fn user_of(console: &ConsoleRow) -> Option<&str>
    ensures { option_copied result ≡ console.now.user }
{
    match &console.user {
        Some(user) => Some(user.text()),
        None => None,
    }
}

fn auth_in(row: &Row) -> Result<Auth, StoreFault>
    ensures { (auth : TheAuth) → column row.now 1 ≡ Int (pos (auth_number auth)) → IfOk result (λ v. v ≡ auth) }
{
    match value_in::<u32>(row, 1)? {
        0 => Ok(Auth::Info),
        1 => Ok(Auth::All),
        2 => Ok(Auth::Master),
        9 => Ok(Auth::Sys),
        10 => Ok(Auth::Io),
        11 => Ok(Auth::SysIo),
        12 => Ok(Auth::Cons),
        13 => Ok(Auth::SysCons),
        14 => Ok(Auth::IoCons),
        15 => Ok(Auth::SysIoCons),
        // Only damaged tables have another number.
        _ => Err(unreadable()),
    }
}

fn mode_in(row: &Row) -> Result<Mode, StoreFault>
    ensures { (mode : TheMode) → column row.now 2 ≡ Text (mode_letter mode) → IfOk result (λ v. v ≡ mode) }
{
    match text_at(row, 2)? {
        "O" => Ok(Mode::Optional),
        "R" => Ok(Mode::Required),
        "A" => Ok(Mode::Auto),
        // Only damaged tables have another letter.
        _ => Err(unreadable()),
    }
}

/// The consoles, in order.
pub fn consoles_on<S: Alter>(
    alloc: Global,
    conn: &mut Connection<S>,
) -> Result<Rows<ConsoleRow>, StoreFault>
    requires { conn.old.in_transaction ≡ false }
    ensures mode { conn.new.in_transaction ≡ false }
    ensures looks { Looks S.Store conn.old conn.new result }
    ensures found { Finds S.Store conn.old conn.new result (λ s v. v ≡ s.board.consoles) }
{
    members_on::<_, _, ConsoleTable>(
        alloc,
        conn,
        "SELECT name, auth, mode, online, usr, monitor FROM consoles ORDER BY name",
        &[],
    )
}

/// The console of a name.
pub fn console_on<S: Alter>(
    conn: &mut Connection<S>,
    name: &ConsoleName,
) -> Result<Option<ConsoleRow>, StoreFault>
    requires { conn.old.in_transaction ≡ false }
    ensures mode { conn.new.in_transaction ≡ false }
    ensures looks { Looks S.Store conn.old conn.new result }
    ensures found { Finds S.Store conn.old conn.new result (λ s v. v ≡ console_at s.board name.now) }
{
    member_on::<_, _, ConsoleTable>(
        conn,
        "SELECT name, auth, mode, online, usr, monitor FROM consoles WHERE name = ?1 ORDER BY name",
        params![name.text()],
    )
}

/// The consoles where a user is logged on, in order.
pub fn consoles_of_on<S: Alter>(
    alloc: Global,
    conn: &mut Connection<S>,
    user: &UserId,
) -> Result<Rows<ConsoleRow>, StoreFault>
    requires { conn.old.in_transaction ≡ false }
    ensures mode { conn.new.in_transaction ≡ false }
    ensures looks { Looks S.Store conn.old conn.new result }
    ensures found { Finds S.Store conn.old conn.new result (λ s v. v ≡ consoles_of s.board user.now) }
{
    // The tested column comes first in ORDER BY, so that one key serves both; the rows come in the order of the others.
    // NULL is nobody's name, so a row with NULL there is never selected.
    members_on::<_, _, ConsoleTable>(
        alloc,
        conn,
        "SELECT name, auth, mode, online, usr, monitor FROM consoles WHERE usr = ?1 ORDER BY usr, name",
        params![user.text()],
    )
}

/// The first two online consoles with AUTH MASTER, which is 2. Two suffice to know whether there is one besides a named
/// console.
pub fn masters_on<S: Alter>(
    alloc: Global,
    conn: &mut Connection<S>,
) -> Result<Rows<ConsoleRow>, StoreFault>
    requires { conn.old.in_transaction ≡ false }
    ensures mode { conn.new.in_transaction ≡ false }
    ensures looks { Looks S.Store conn.old conn.new result }
    ensures found { Finds S.Store conn.old conn.new result (λ s v. v ≡ take 2 (masters s.board)) }
{
    members_on::<_, _, ConsoleTable>(
        alloc,
        conn,
        "SELECT name, auth, mode, online, usr, monitor FROM consoles WHERE auth = 2 AND online = 1 ORDER BY auth, online, name LIMIT 2",
        &[],
    )
}
