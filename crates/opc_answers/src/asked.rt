//! Where a question of `who` is asked, and by which profiles it is answered.
ghost use Rattle.std.specs.Prelude.{◌≡◌, ◌≢◌, IfErr, IfOk, Ok, Err};
ghost use Rattle.std.specs.Option.{option_copied};
ghost use Rattle.opc_terms.specs.declared.fault.Fault.TheVariants as why;
ghost use Rattle.opc_board.specs.Invariants.{console_at};
ghost use Rattle.opc_answers.specs.Who.{asked_at, decider_of, line_of_wanted, on_board, shows_by};

use crate::deciding::decider;
use crate::room::Room;
use crate::shows::{Shows, shows_by};
use crate::wanted::Wanted;
use crate::who::{AskedAt, console_of};
use opc_board::board::Board;
use opc_names::name::ConsoleName;
use opc_policy_members::profile::Profile;
use opc_terms::fault::Fault;

/// At the console of this name, which must be on the board.
#[tactic(auto, using(crate::proofs::Placed::on_board_so))]
fn on_board(board: &Board, name: &ConsoleName) -> Result<AskedAt, Fault>
    ensures { result ≡ on_board (console_at board.now name.now) }
{
    match console_of(board, name) {
        Some(console) => Ok(AskedAt::OnBoard(*console)),
        None => Err(Fault::NoConsole),
    }
}

/// Where the question is asked. A command and a LOGON need a console of the board, a level of access takes any.
fn asked_at(board: &Board, wanted: &Wanted, console: Option<&ConsoleName>) -> Result<AskedAt, Fault>
    ensures { result ≡ asked_at board.now wanted.now (option_copied console.entry) }
{
    match (wanted, console) {
        (Wanted::Logon(name), _) | (Wanted::Command(_), Some(name)) => on_board(board, name),
        (Wanted::Access { .. }, Some(name)) => Ok(AskedAt::Named(*name)),
        (Wanted::Command(_) | Wanted::Access { .. }, None) => Ok(AskedAt::Everywhere),
    }
}

/// Where a question is asked, and by which profiles it is answered.
#[derive(Drop)]
pub(crate) struct WhoBasis {
    pub(crate) at: AskedAt,
    pub(crate) decided: Option<Profile>,
    pub(crate) shows: Option<Shows>,
}

pub(crate) fn basis_in(
    room: &Room,
    wanted: &Wanted,
    console: Option<&ConsoleName>,
) -> Result<WhoBasis, Fault>
    ensures place { IfOk result (λ basis.
        asked_at room.now.board wanted.now (option_copied console.entry) ≡ Ok basis.at) }
    ensures decided { IfOk result (λ basis. basis.decided ≡ decider_of room.now.policy wanted.now) }
    ensures shows { IfOk result (λ basis. basis.shows ≡ shows_by room.now.policy (line_of_wanted wanted.now)) }
    ensures fault { IfErr result (λ fault. fault ≢ why.NoMemory
        → asked_at room.now.board wanted.now (option_copied console.entry) ≡ Err fault) }
{
    Ok(WhoBasis {
        at: asked_at(&room.board, wanted, console)?,
        decided: decider(&room.policy, wanted.class(), &wanted.resource())?,
        shows: shows_by(&room.policy, wanted.line())?,
    })
}
