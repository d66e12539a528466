//! What answers questions by policy files.

use crate::answering::answer_to;
use crate::loading::policy_in;
use opc_decide_answers::policy::DecidingPolicy;
use opc_decide_present::decider::{DecidedAnswer, Decider};
use opc_decide_present::kind::QuestionKind;
use std::alloc::{AllocError, Global};

/// Decides by the policy that a file is.
#[derive(Clone, Copy)]
pub struct FileDecider;

impl Decider for FileDecider {
    ghost use Rattle.std.specs.Prelude.{◌≡◌, Some, None};
    ghost use Rattle.opc_decide_files.specs.Answering.{IsAnswer};
    ghost use Rattle.opc_decide_files.specs.DecidingFiles.{policy_in};

    type Policy = DecidingPolicy;

    ghost refuses = { λ _ file. policy_in file ≡ None };

    ghost loads = { λ _ file policy. policy_in file ≡ Some policy };

    ghost answers = { λ _ file kind body answer. IsAnswer file kind body answer };

    fn load(&self, alloc: Global, file: &[u8]) -> Result<Option<DecidingPolicy>, AllocError> {
        policy_in(alloc, file)
    }

    #[tactic(auto, using(crate::proofs::Allowed::is_answer))]
    fn answer(
        &self,
        alloc: Global,
        policy: &DecidingPolicy,
        kind: QuestionKind,
        body: &[u8],
    ) -> Result<DecidedAnswer, AllocError> {
        answer_to(alloc, policy, kind, body)
    }
}
