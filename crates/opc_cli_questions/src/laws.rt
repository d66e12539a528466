//! What an answer by tables means for those who ask; each law is what a call without a body ensures.
ghost use Rattle.opc_cli_questions.specs.Laws.{NeedsAreTheMachines};

/// A question about a command is about what the machine finds that it needs, by the unit on the board.
pub fn needs_are_the_machines()
    ensures { NeedsAreTheMachines }
{}
