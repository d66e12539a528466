//! Listings of the account.
ghost use Rattle.std.specs.Prelude.{◌≡◌, ◌∷◌, [], IfOk, map, string_bytes};
ghost use Rattle.std.specs.Fmt.{decimal};
ghost use Rattle.opc_board.specs.Invariants.{Name, console_at};
ghost use Rattle.opc_board.specs.Texts.{columns};
ghost use Rattle.opc_state.specs.Asked.{Loads};
ghost use Rattle.opc_state.specs.Loads.{asked_for};
ghost use Rattle.opc_machine.specs.Effects.{IsOutcome};
ghost use Rattle.opc_machine.specs.Listings.{account_line, account_outcome};

use crate::listing::listing;
use opc_board::line::{Item, Line};
use opc_board::rows::ConsoleRow;
use opc_board::text::KeptText;
use opc_gate_rulings::requester::{Asking, requester_on, sees_all};
use opc_machine::outcome::{Outcome, refused};
use opc_rows::Rows;
use opc_state::account::AccountRow;
use opc_state::tables::Tables;
use opc_terms::fault::Fault;
use opc_terms::store_fault::StoreFault;
use std::alloc::{AllocError, Global};

fn account_text(alloc: Global, number: u64, row: &AccountRow) -> Result<String, AllocError>
    ensures { IfOk result (λ text. string_bytes text ≡ columns
        (decimal number ∷ decimal row.now.moment ∷ row.now.console ∷ row.now.user ∷ row.now.code ∷ row.now.rule ∷ [])) }
{
    let moment = row.moment;
    let (console, user) = (row.console.as_str(), row.user.as_str());
    let (code, rule) = (row.code.as_str(), row.rule.as_str());
    format!(in alloc; "{number} {moment} {console} {user} {code} {rule}")
}

fn account_line(alloc: Global, number: u64, row: &AccountRow) -> Result<Line, AllocError>
    ensures { IfOk result (λ line. line ≡ account_line (number, row.now)) }
{
    Ok(Line {
        item: Item::Plain,
        text: KeptText::from(account_text(alloc, number, row)?),
    })
}

// The lines of rows, one of each.
fn account_lines(alloc: Global, rows: &[(u64, AccountRow)]) -> Result<Rows<Line>, StoreFault>
    ensures { IfOk result (λ lines. lines ≡ map account_line rows.now) }
{
    let mut lines = Rows::new(alloc);
    for (number, row) in rows {
        let line = account_line(alloc, *number, row)?;
        lines.push(line)?;
    }
    Ok(lines)
}

// The lines of the requested rows; no other row is loaded.
fn lines_on<T: Tables>(
    tables: &mut T,
    alloc: Global,
    from: u64,
    count: u32,
) -> Result<Rows<Line>, StoreFault>
    ensures { Loads T.meaning tables.old tables.new result
        (λ s lines. lines ≡ map account_line (asked_for from count s.account)) }
{
    let rows = tables.account(alloc, from, count)?;
    account_lines(alloc, rows.as_slice())
}

/// The outcome of a listing of the account at a console, whose row is loaded: its rows from a number on, at most the
/// requested count, if the acting user is SPECIAL or AUDITOR (else E50).
pub fn account_on<T: Tables>(
    tables: &mut T,
    alloc: Global,
    console: Option<ConsoleRow>,
    from: u64,
    count: u32,
) -> Result<Outcome, StoreFault>
    ensures { Loads T.meaning tables.old tables.new result
        (λ s o. (name : Name) → console ≡ console_at s.board name → IsOutcome s (account_outcome s name from count) o) }
{
    let requester = match requester_on(tables, alloc, console)? {
        Asking::By(requester) => requester,
        Asking::Refused(refusal) => return Ok(Outcome::Refused(refusal)),
    };
    if !sees_all(&requester.user) {
        return refused(Fault::NotSpecial, None);
    }
    let lines = lines_on(tables, alloc, from, count)?;
    listing(alloc, lines)
}
