//! A policy that is kept for many questions.
ghost use Rattle.std.specs.Prelude.{◌≡◌, IfOk};
ghost use Rattle.opc_embedded.specs.Replies.{IsAsked};

use crate::asking::reply;
use crate::reply::Reply;
use crate::room::room_of;
use crate::texts::PolicyTexts;
use opc_answers::room::Room;
use std::alloc::{AllocError, Global};
use std::marker::Model;

/// A policy that is kept: its text and, if that is a policy file whose rows make a policy, what they make.
#[derive(Drop)]
pub struct KeptPolicyText {
    text: Vec<u8>,
    room: Option<Room>,
}

impl Model for KeptPolicyText {
    ghost use Rattle.std.specs.Prelude.{ℕ, List};
    ghost use Rattle.std.specs.Option.{ForSome};
    ghost use Rattle.opc_embedded.specs.Kept.{IsMadeBy};

    ghost Value = { List ℕ };

    ghost view = { λ kept. kept.text.items };

    ghost invariant = { λ kept. ForSome kept.room (IsMadeBy kept.text.items) };
}

impl KeptPolicyText {
    /// Keeps a policy, whatever its text is: questions find what is wrong with it.
    pub fn of(alloc: Global, policy: &[u8]) -> Result<Self, AllocError>
        ensures { IfOk result (λ kept. kept ≡ policy.now) }
    {
        let mut text = Vec::new(alloc);
        text.extend_from_slice(policy)?;
        Ok(KeptPolicyText {
            text,
            room: room_of(alloc, policy),
        })
    }

    /// What `ask` replies by the text that is kept, and by that of a new policy for `diff`: `explain` and `who` are
    /// answered without reading the text, unless they have no answer.
    pub fn ask(&mut self, alloc: Global, new: &[u8], question: &[u8]) -> Reply
        ensures same { self.new ≡ self.old }
        ensures asked { IsAsked self.old new.now question.now result }
    {
        let texts = PolicyTexts {
            policy: self.text.as_slice(),
            new,
        };
        reply(alloc, &texts, &mut self.room, question)
    }
}
