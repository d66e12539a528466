//! The policy file, read anew if it is another one.
ghost use Rattle.std.specs.Prelude.{◌≡◌, ◌↔◌, IfOk, IfSome, IsSomeAnd, IsTrue, MatchOption, Ok, OnOk};
ghost use Rattle.opc_decide_present.specs.Present.{
  IsDecided,
  IsKept,
  IsNewlyKept,
  IsRefreshed,
  IsThere,
  IsUnread,
  no_policy,
};

use crate::decider::{DecidedAnswer, Decider};
use crate::files::{FoundFile, PolicyPlace};
use crate::identity::{FileIdentity, is_same};
use crate::kind::QuestionKind;
use http::StatusCode;
use opc_board::text::KeptText;
use std::alloc::{AllocError, Global};

/// A policy file that was read, still open, and what was made of it; nothing if it is no policy file.
#[derive(Drop)]
pub(crate) struct KeptPolicy<H, P> {
    pub file: H,
    pub identity: FileIdentity,
    pub policy: Option<P>,
}

/// Whether what is kept was made of the file that was found.
fn is_of<H, P>(kept: &Option<KeptPolicy<H, P>>, found: FileIdentity) -> bool
    ensures { IsTrue result ↔ IsSomeAnd kept.now (λ kept. kept.identity ≡ found) }
{
    match kept {
        Some(kept) => is_same(kept.identity, found),
        None => false,
    }
}

/// Reads a file that was found. Nothing is kept of it if a call fails, or if it was written to meanwhile.
fn read_found<F: PolicyPlace, D: Decider>(
    alloc: Global,
    place: &mut F,
    decider: &D,
    found: FoundFile<F::File>,
) -> Result<Option<KeptPolicy<F::File, D::Policy>>, AllocError>
    ensures { (first : F) → F.finds first (Ok found) place.old
        → IfOk result (λ kept. MatchOption kept (IsUnread F.finds F.reads first)
        (λ kept. IsNewlyKept F.finds F.reads D.refuses D.loads decider.now found.identity kept)) }
{
    let FoundFile { mut file, identity } = found;
    let Ok(read) = place.read(&mut file) else {
        return Ok(None);
    };
    if !is_same(read.identity, identity) {
        return Ok(None);
    }
    let policy = decider.load(alloc, read.bytes.as_slice())?;
    Ok(Some(KeptPolicy {
        file,
        identity,
        policy,
    }))
}

/// Brings what is kept up to date with the file that is there.
pub(crate) fn refresh<F: PolicyPlace, D: Decider>(
    alloc: Global,
    place: &mut F,
    decider: &D,
    kept: &mut Option<KeptPolicy<F::File, D::Policy>>,
) -> Result<(), AllocError>
    requires { IfSome kept.old (IsKept F.finds F.reads D.refuses D.loads decider.now) }
    ensures kept { IfSome kept.new (IsKept F.finds F.reads D.refuses D.loads decider.now) }
    ensures refreshed { OnOk result (IsRefreshed F.finds F.reads place.old kept.old kept.new) }
{
    let Ok(found) = place.find() else {
        *kept = None;
        return Ok(());
    };
    if is_of(kept, found.identity) {
        return Ok(());
    }
    *kept = None;
    *kept = read_found(alloc, place, decider, found)?;
    Ok(())
}

/// The decision if no policy is there.
fn no_policy(alloc: Global) -> Result<DecidedAnswer, AllocError>
    ensures { IfOk result (λ decision. decision ≡ no_policy) }
{
    Ok(DecidedAnswer {
        status: StatusCode::INTERNAL_SERVER_ERROR,
        body: KeptText::new(alloc, "\"no policy\"")?,
        told: KeptText::new(alloc, "- - 500 - \"no policy\" - -")?,
    })
}

/// The decision about a question by the file that is there, of which this is kept.
pub(crate) fn decide_by<F: PolicyPlace, D: Decider>(
    alloc: Global,
    decider: &D,
    kept: &Option<KeptPolicy<F::File, D::Policy>>,
    kind: QuestionKind,
    body: &[u8],
) -> Result<DecidedAnswer, AllocError>
    requires kept { IfSome kept.now (IsKept F.finds F.reads D.refuses D.loads decider.now) }
    ensures { (place : F) → MatchOption kept.now (IsUnread F.finds F.reads place)
        (λ kept. IsThere F.finds F.reads place kept.identity)
        → IfOk result (IsDecided F.finds F.reads D.refuses D.answers place decider.now kind body.now) }
{
    let Some(kept) = kept else {
        return no_policy(alloc);
    };
    match &kept.policy {
        Some(policy) => decider.answer(alloc, policy, kind, body),
        None => no_policy(alloc),
    }
}
