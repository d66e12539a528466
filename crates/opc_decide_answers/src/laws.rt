//! What is decided is what `explain` prints, as what a call without a body ensures.
ghost use Rattle.opc_decide_answers.specs.DecisionLaws.{PermitsWhatIsAllowed};

/// Over the rows of a policy, access is permitted exactly if `explain` of the same question prints `ALLOWED`. It prints
/// this word, too, if only a warning lets pass.
pub fn permits_what_is_allowed()
    ensures { PermitsWhatIsAllowed }
{}
