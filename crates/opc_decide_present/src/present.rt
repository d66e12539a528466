//! The policy that is there now.
ghost use Rattle.std.specs.Prelude.{◌≡◌, IfOk};
ghost use Rattle.opc_decide_present.specs.Present.{IsDecided};

use crate::decider::{DecidedAnswer, Decider};
use crate::files::PolicyPlace;
use crate::kind::QuestionKind;
use crate::reading::{KeptPolicy, decide_by, refresh};
use std::alloc::{AllocError, Global};
use std::marker::Model;

/// A place of a policy file and what decides by it. Contracts do not see what is kept between two questions.
#[derive(Drop)]
pub struct PresentPolicy<F: PolicyPlace, D: Decider> {
    place: F,
    decider: D,
    kept: Option<KeptPolicy<F::File, D::Policy>>,
}

impl<F: PolicyPlace, D: Decider> Model for PresentPolicy<F, D> {
    ghost use Rattle.std.specs.Prelude.{IfSome};
    ghost use Rattle.opc_decide_present.specs.Present.{IsKept};

    ghost Value = { F × D };

    ghost view = { λ p. (p.place, p.decider) };

    ghost invariant = { λ p. IfSome p.kept (IsKept F.finds F.reads D.refuses D.loads p.decider) };
}

impl<F: PolicyPlace, D: Decider> PresentPolicy<F, D> {
    /// Nothing was read yet.
    pub fn new(place: F, decider: D) -> Self
        ensures { result ≡ (place, decider) }
    {
        PresentPolicy {
            place,
            decider,
            kept: None,
        }
    }

    /// The decision about a question by the policy file that is there now. The file is read if it is not the one that
    /// was read before, as its identity shows.
    pub fn decide(
        &mut self,
        alloc: Global,
        kind: QuestionKind,
        body: &[u8],
    ) -> Result<DecidedAnswer, AllocError>
        ensures decider { self.new.1 ≡ self.old.1 }
        ensures decided { IfOk result (IsDecided F.finds F.reads D.refuses D.answers self.old.0 self.old.1 kind
            body.now) }
    {
        refresh(alloc, &mut self.place, &self.decider, &mut self.kept)?;
        decide_by::<F, D>(alloc, &self.decider, &self.kept, kind, body)
    }
}
