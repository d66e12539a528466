//! What commands and events leave on the board, for those who look at it afterwards.
ghost use Rattle.opc_machine_laws.specs.EffectLaws.{CommandsDoWhatTheySay, EventsDoWhatTheySay};
ghost use Rattle.opc_machine_laws.specs.HindranceLaws.{
  BoardObstaclesAreFaults,
  CommandsActWithoutObstacle,
  EventObstaclesAreFaults,
  EventsHappenWithoutObstacle,
};
ghost use Rattle.opc_machine_laws.specs.LeavingLaws.{StepsKeepAMaster};

/// A command that is done ends, marks or moves what it names, keeps its text or halts the day, and changes nothing else
/// on the board.
pub fn commands_do_what_they_say()
    ensures { CommandsDoWhatTheySay }
{}

/// So does an event.
pub fn events_do_what_they_say()
    ensures { EventsDoWhatTheySay }
{}

/// A command is refused by the first obstacle on the board (E30 to E42), and if there is none, acts, unless the last
/// online console with AUTH MASTER would be lost (E41).
pub fn commands_are_refused_by_what_is_in_their_way()
    ensures refused { BoardObstaclesAreFaults }
    ensures done { CommandsActWithoutObstacle }
{}

/// So is an event (E30 to E45).
pub fn events_are_refused_by_what_is_in_their_way()
    ensures refused { EventObstaclesAreFaults }
    ensures done { EventsHappenWithoutObstacle }
{}

/// Whatever is requested and whatever happens: if an online console has AUTH MASTER, one has it afterwards (E41).
pub fn steps_keep_a_master()
    ensures { StepsKeepAMaster }
{}
