//! Laws of the board, each as what a call without a body ensures.
ghost use Rattle.opc_board.specs.Enough.{FewRowsSuffice};
ghost use Rattle.opc_board.specs.History.{
  CommandsDoTheSameAfter,
  CommandsOnlyAddToHistory,
  EventsDoTheSameAfter,
  EventsOnlyAddToHistory,
};
ghost use Rattle.opc_board.specs.Footprint.{CommandsAreLocal, EventsAreLocal, LogoffsAreLocal, LogonsAreLocal};

/// Commands and events do the same whatever histories stand before, and only add to their ends.
pub fn histories_only_grow()
    ensures commands { CommandsOnlyAddToHistory }
    ensures events { EventsOnlyAddToHistory }
    ensures commands_after { CommandsDoTheSameAfter }
    ensures events_after { EventsDoTheSameAfter }
{}

/// Commands, events, logons and logoffs do on their footprint what they do on the whole board, and leave its other rows
/// as they are. The rows that a command or an event names or depends on are enough for a footprint.
pub fn footprints_suffice()
    ensures commands { CommandsAreLocal }
    ensures events { EventsAreLocal }
    ensures logons { LogonsAreLocal }
    ensures logoffs { LogoffsAreLocal }
    ensures few { FewRowsSuffice }
{}
