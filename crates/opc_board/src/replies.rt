//! Replies, the log, messages and the day.
ghost use Rattle.std.specs.Prelude.{◌≡◌, ◌≢◌, Err, MatchResult};
ghost use Rattle.opc_board.specs.declared.fault.BoardFault.TheVariants.{NoMemory};
ghost use Rattle.opc_board.specs.Outcome.{ComesTo, ComesToOrNoMemory, done, done_with};
ghost use Rattle.opc_board.specs.Units.{is_holder};
ghost use Rattle.opc_board.specs.Replies.{
  has_session,
  is_on,
  resumed,
  reply as reply_outcome,
  ask as ask_outcome,
  send as send_outcome,
  log_line as log_line_outcome,
  halt as halt_outcome,
};

use crate::board::Board;
use crate::fault::BoardFault;
use crate::line::{Line, reply_line};
use crate::rows::{ConsoleRow, MessageRow, ReplyRow};
use crate::text::KeptText;
use opc_names::name::{UnitName, UserId};
use opc_names::reply_id::ReplyId;
use std::alloc::Global;

/// The name of a user's session on the board.
pub fn session_of(user: &UserId) -> UnitName
    ensures { result ≡ user.now }
{
    user.as_kind()
}

impl ConsoleRow {
    fn has_on(&self, user: &UserId) -> bool
        ensures { result ≡ is_holder user.now self.now.user }
    {
        match &self.user {
            Some(on) => on == user,
            None => false,
        }
    }
}

impl Board {
    pub(crate) fn reply(
        &mut self,
        alloc: Global,
        id: ReplyId,
        text: KeptText,
    ) -> Result<Vec<Line>, BoardFault>
        ensures { MatchResult result
            (λ lines. reply_outcome id text self.old ≡ done_with self.new lines.items)
            (λ fault. (self.new ≡ self.old) × (fault ≢ NoMemory → reply_outcome id text self.old ≡ Err fault)) }
    {
        if self.rows.replies.find(&id).is_none() {
            return Err(BoardFault::NoReply);
        }
        let mut lines = Vec::new(alloc);
        lines.push(reply_line(alloc, id, text.as_str())?)?;
        self.rows.answered.push(ReplyRow { id, text })?;
        self.rows.replies.remove(&id);
        Ok(lines)
    }

    pub(crate) fn ask(&mut self, id: ReplyId, text: KeptText) -> Result<(), BoardFault>
        ensures { ComesToOrNoMemory self.old self.new (ask_outcome id text self.old) result }
    {
        if self.rows.replies.find(&id).is_some() {
            return Err(BoardFault::ReplyExists);
        }
        self.rows.replies.insert(ReplyRow { id, text })?;
        Ok(())
    }

    fn is_on(&self, user: &UserId) -> bool
        ensures { result ≡ is_on user.now self.now }
    {
        self.rows
            .consoles
            .as_slice()
            .iter()
            .any(|console| console.has_on(user))
    }

    fn has_session(&self, user: &UserId) -> bool
        ensures { result ≡ has_session user.now self.now }
    {
        match self.rows.units.find(&session_of(user)) {
            Some(unit) => unit.kind.is_tsu(),
            None => false,
        }
    }

    pub(crate) fn send(&mut self, user: UserId, text: KeptText) -> Result<(), BoardFault>
        ensures { ComesToOrNoMemory self.old self.new (send_outcome user text self.old) result }
    {
        let reached = self.is_on(&user) | self.has_session(&user);
        if !reached {
            return Err(BoardFault::NoTarget);
        }
        self.rows.messages.push(MessageRow { user, text })?;
        Ok(())
    }

    pub(crate) fn log_line(&mut self, text: KeptText) -> Result<(), BoardFault>
        ensures { MatchResult result
            (λ _. log_line_outcome text self.old ≡ done self.new)
            (λ fault. (self.new ≡ self.old) × (fault ≡ NoMemory)) }
    {
        self.rows.log.push(text)?;
        Ok(())
    }

    pub(crate) fn halt(&mut self) -> Result<(), BoardFault>
        ensures { ComesTo self.old self.new (halt_outcome self.old) result }
    {
        if self.rows.halted {
            return Err(BoardFault::Halted);
        }
        self.rows.halted = true;
        Ok(())
    }

    pub(crate) fn resume(&mut self)
        ensures { self.new ≡ resumed self.old }
    {
        self.rows.halted = false;
    }
}
