//! What the rows of an import and the operations of administration do, for those who look at the policy afterwards.
ghost use Rattle.opc_machine_laws.specs.OperationLaws.{OperationsChangeWhatTheyName};
ghost use Rattle.opc_machine_laws.specs.RowLaws.{
  ConsolesAreDefined,
  RowObstaclesAreFaults,
  RowsAreTakenWithoutObstacle,
  RowsDoWhatTheySay,
  RowsKeepAMasterOrAreRefused,
  RowsNeverDelete,
};

/// A row defines or replaces what it names, and nothing else: a profile that is there keeps its access list, and a user
/// has the flags that the row names and no other.
pub fn rows_do_what_they_say()
    ensures { RowsDoWhatTheySay }
{}

/// A console that is there gets the authority and the mode, and keeps all else; a new one is online with nobody logged
/// on.
pub fn consoles_are_defined()
    ensures { ConsolesAreDefined }
{}

/// Rows never delete: each user, group, connect, profile, entry and console that was there is still there.
pub fn rows_never_delete()
    ensures { RowsNeverDelete }
{}

/// Rows are refused by the first obstacle of the first row that has one (E52, E53), and if none has, only if the last
/// online console with AUTH MASTER would be lost by all of them (E41).
pub fn rows_are_refused_by_their_first_obstacle()
    ensures taken { RowsAreTakenWithoutObstacle }
    ensures refused { RowObstaclesAreFaults }
    ensures master { RowsKeepAMasterOrAreRefused }
{}

/// An operation that defines, alters or permits leaves what such a row leaves, and one that deletes leaves nothing of
/// what it names; all else stays.
pub fn operations_change_what_they_name()
    ensures { OperationsChangeWhatTheyName }
{}
