//! The laws of what is listed, as what a call without a body ensures.
ghost use Rattle.opc_answers_diff.specs.Laws.{
  DiffersAsAtNone,
  ListsWhoDiffers,
  ListsWhoLogsOn,
  MembersAreStored,
  RaisesWhereNamed,
  SamePrintsNothing,
  SameRowsDifferNowhere,
  SaysAsExplained,
};

/// A user is in a section if and only if there is a name for which the verdict differs: at a console if an entry for it
/// gives the level on a side, and else at none.
pub fn lists_exactly_who_differs()
    ensures names { ListsWhoDiffers }
    ensures elsewhere { DiffersAsAtNone }
    ensures named { RaisesWhereNamed }
{}

/// And so it is of a LOGON at each console.
pub fn lists_exactly_who_logs_on_otherwise()
    ensures { ListsWhoLogsOn }
{}

/// Two policies with the same rows print the last line alone.
pub fn same_rows_differ_nowhere()
    ensures rows { SameRowsDifferNowhere }
    ensures sections { SamePrintsNothing }
{}

/// What is said of a user is what `explain` says to the user about each resource that the profile decides.
pub fn says_as_is_explained()
    ensures explained { SaysAsExplained }
    ensures stored { MembersAreStored }
{}
