//! The policy that decides.
ghost use Rattle.std.specs.Prelude.{◌≡◌, ◌≢◌, IfErr, IfOk, Ok, Err, false, string_bytes};
ghost use Rattle.opc_terms.specs.declared.fault.Fault.TheVariants as why;
ghost use Rattle.opc_answers.specs.Made.{members_of};
ghost use Rattle.opc_answers.specs.Why.{why_in};

use opc_answers::members::UserWithGroups;
use opc_answers::room::Room;
use opc_answers::why::{Explanation, why_in};
use opc_board::rows::ConsoleRow;
use opc_decide_requests::question::AccessQuestion;
use opc_policy_members::row::Row;
use opc_terms::fault::Fault;
use std::alloc::Global;
use std::marker::Model;

/// What the rows of a policy make, and the digits by which answers name it.
#[derive(Drop)]
pub struct DecidingPolicy {
    room: Room,
    name: String,
}

impl Model for DecidingPolicy {
    ghost use Rattle.std.specs.Prelude.{◌≡◌, string_bytes};
    ghost use Rattle.opc_answers.specs.Made.{members_of, state_of};
    ghost use Rattle.opc_decide_answers.specs.Decisions.{NamedState};

    ghost Value = { NamedState };

    ghost view = { λ p. record { state = state_of p.room.policy p.room.board; name = string_bytes p.name } };

    ghost invariant = { λ p. p.room.members ≡ members_of p.room.policy };
}

impl DecidingPolicy {
    ghost use Rattle.opc_machine.specs.Bootstrap.{bootstrapped};
    ghost use Rattle.opc_state.specs.State.{empty};

    /// The policy of rows, if they make one.
    pub fn of_rows(alloc: Global, rows: &[Row], name: String) -> Result<Self, Fault>
        ensures state { IfOk result (λ policy. bootstrapped rows.now empty ≡ Ok policy.state) }
        ensures name { IfOk result (λ policy. policy.name ≡ string_bytes name) }
        ensures fault { IfErr result (λ fault. fault ≢ why.NoMemory → bootstrapped rows.now empty ≡ Err fault) }
    {
        let room = Room::of_rows(alloc, rows)?;
        Ok(DecidingPolicy { room, name })
    }

    /// The digits of its name.
    pub fn name(&self) -> &str
        ensures { result.now ≡ self.now.name }
    {
        self.name.as_str()
    }

    /// Its users, with the groups of each.
    pub fn members(&self) -> &[UserWithGroups]
        ensures { result.now ≡ members_of self.now.state.policy }
    {
        self.room.members.as_slice()
    }

    /// Its consoles.
    pub fn consoles(&self) -> &[ConsoleRow]
        ensures { result.now ≡ self.now.state.board.consoles }
    {
        self.room.board.rows().consoles.as_slice()
    }

    /// What `explain` answers, without the level that is held behind each pattern.
    pub(crate) fn explained(
        &self,
        alloc: Global,
        question: &AccessQuestion,
    ) -> Result<Explanation, Fault>
        ensures ok { IfOk result (λ why. why_in self.now.state false question.now.wanted question.now.actor
            question.now.console ≡ Ok why) }
        ensures fault { IfErr result (λ fault. fault ≢ why.NoMemory → why_in self.now.state false
            question.now.wanted question.now.actor question.now.console ≡ Err fault) }
    {
        let (actor, console) = (question.actor.as_ref(), question.console.as_ref());
        why_in(alloc, &self.room, false, &question.wanted, actor, console)
    }
}
