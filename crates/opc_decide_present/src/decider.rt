//! What answers questions by a policy.
ghost use Rattle.std.specs.Prelude.{IfOk, MatchOption};

use crate::kind::QuestionKind;
use http::StatusCode;
use opc_board::text::KeptText;
use std::alloc::{AllocError, Global};

/// The answer to a question: the status and the body of its response, and what a log tells of it.
#[derive(Drop)]
pub struct DecidedAnswer {
    pub status: StatusCode,
    pub body: KeptText,
    pub told: KeptText,
}

/// What makes a policy of the bytes of a file, and answers questions by it. Only its calls can show what a function
/// over any decider promises by its facts.
pub trait Decider {
    ghost use Rattle.std.specs.Prelude.{ℕ, List, IfOk, MatchOption};
    ghost use Rattle.opc_decide_present.specs.declared.decider.DecidedAnswer.{DecidedAnswer};
    ghost use Rattle.opc_decide_present.specs.declared.kind.QuestionKind.{QuestionKind};

    /// What is made of the bytes of a policy file, and kept as long as that file is there.
    type Policy: Drop;

    /// These bytes are no policy file.
    ghost refuses: { Self → (file : List ℕ) → Type 0 };

    /// This was made of these bytes.
    ghost loads: { Self → (file : List ℕ) → Self.Policy → Type 0 };

    /// This is the answer to a question of a kind, which has this body, by a policy file with these bytes.
    ghost answers: { Self → (file : List ℕ) → QuestionKind → (body : List ℕ) → DecidedAnswer → Type 0 };

    /// The policy that these bytes are; nothing if they are none.
    fn load(&self, alloc: Global, file: &[u8]) -> Result<Option<Self::Policy>, AllocError>
        ensures { IfOk result (λ loaded.
            MatchOption loaded (refuses self.now file.now) (λ policy. loads self.now file.now policy)) };

    /// Answers a question.
    fn answer(
        &self,
        alloc: Global,
        policy: &Self::Policy,
        kind: QuestionKind,
        body: &[u8],
    ) -> Result<DecidedAnswer, AllocError>
        ensures { IfOk result (λ decision. (file : List ℕ) → loads self.now file policy.now
            → answers self.now file kind body.now decision) };
}
