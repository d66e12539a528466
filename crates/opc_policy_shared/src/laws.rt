//! The laws of the shared search, as what calls without a body ensure.
ghost use Rattle.opc_policy_shared.specs.Laws.{CandidatesDecide};

/// Among the candidates for names with a beginning, the same profile decides such a name as among all profiles.
pub fn candidates_decide()
    ensures { CandidatesDecide }
{}
