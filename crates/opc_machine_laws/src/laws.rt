//! What the access machine means for those who use it, each law as what a call without a body ensures.
ghost use Rattle.opc_machine_laws.specs.ChangingLaws.{
  AccountIsPaged,
  AdministersOnlyWhereAllowed,
  AdministersWhereverAllowed,
  ImportsOnlyWhereAllowed,
  ImportsWhereverAllowed,
  ListsAccountOnlyWhereShown,
  ListsAccountWhereverShown,
  ListsExactlyProfilesShown,
  ListsProfilesWhereverAsked,
  MoreSpecificProfilesComeFirst,
  RepeatsWhereverAllowed,
  SameRowsAreEqual,
};
ghost use Rattle.opc_machine_laws.specs.DisplayLaws.{
  LinesAreAboutWhatTheyList,
  ListsEachConsoleOnce,
  ListsEachUnitOnce,
  ListsEveryConsole,
  ListsEveryUnit,
  ListsTheUnit,
  ListsTheUnitOnce,
};
ghost use Rattle.opc_machine_laws.specs.FaultLaws.{
  AdministrationFaultsAreAnswered,
  BadLinesAreAnswered,
  ChangedBatchesAreAnswered,
  ImportFaultsAreAnswered,
  LogonFaultsAreAnswered,
  MissingConsolesAreAnswered,
  MissingRightsAreAnswered,
  OfflineConsolesAreAnswered,
};
ghost use Rattle.opc_machine_laws.specs.Laws.{
  ActsOnlyWhereAllowed,
  ActsWhereverAllowed,
  BoardFaultsAreAnswered,
  DenialsAreAnswered,
  AbortsChangeNothing,
  AbortsWithoutMemoryOrStore,
  ListsExactlyWhatMayBeShown,
  LogsOffOnlyWhereSomebodyIsOn,
  LogsOffWhereverSomebodyIsOn,
  LogsOnOnlyWhereAllowed,
  LogsOnWhereverAllowed,
  NothingAskedChangesNothing,
  OnlyWhatIsHeardIsDone,
  RefusalsChangeNothing,
  RefusalsNameNoOtherRule,
  RefusalsOfAuthorityNameTheirRule,
  RequestsAreJudgedInTurn,
};
ghost use Rattle.opc_machine_laws.specs.LeavingLaws.{
  AccountRowsSay,
  EventFaultsAreAnswered,
  EventsHappenWhereverPossible,
  EventsOnlyDoTheirEffect,
  RequestsNameTheirConsole,
  WhatIsDoneLeavesRest,
};
ghost use Rattle.opc_machine_laws.specs.NeedLaws.{AuthoritiesEnterTheirGroups, NeedsAreOfTheTable};
ghost use Rattle.opc_machine_laws.specs.NumberLaws.{BoardFaultsAreDistinct, LineFaultsAreDistinct};
ghost use Rattle.opc_machine_laws.specs.ObstacleLaws.{ObstaclesAreFaults, OperationsAreDoneWithoutObstacle};
ghost use Rattle.opc_machine_laws.specs.RightLaws.{
  AccountIsSeenByAuditors,
  ImportsAreOfSpecial,
  ProfilesAreSeenByReaders,
  RightsAreOfSpecialAndOwners,
};
ghost use Rattle.opc_machine_laws.specs.TakingLaws.{
  BatchesAreFoundByNumber,
  FirstPoliciesAreFirst,
  OperationsDoWhatTheySay,
  OperationsKeepAMaster,
  RowsAreTakenInTurn,
};

/// A command acts only if the written policy at that time allows it.
pub fn acts_only_where_allowed()
    ensures { ActsOnlyWhereAllowed }
{}

/// A command acts if the written policy at that time allows it, unless something on the board is in the way or the
/// request is aborted.
pub fn acts_wherever_allowed()
    ensures { ActsWhereverAllowed }
{}

/// Nothing else that is typed is done: only a line that is accepted, with a command that needs something, or with LOGON
/// or LOGOFF.
pub fn only_what_is_heard_is_done()
    ensures { OnlyWhatIsHeardIsDone }
{}

/// A command needs what the table states, which for C, FORCE, P and F depends on the kind of the unit that they name.
pub fn needs_are_of_the_table()
    ensures { NeedsAreOfTheTable }
{}

/// A console enters the command groups of its authority's row in the table, and no other.
pub fn authorities_enter_their_groups()
    ensures { AuthoritiesEnterTheirGroups }
{}

/// Each request of a list is judged by the state that those before it leave.
pub fn requests_are_judged_in_turn()
    ensures { RequestsAreJudgedInTurn }
{}

/// Without a request, nothing is answered, and nothing changes.
pub fn nothing_asked_changes_nothing()
    ensures { NothingAskedChangesNothing }
{}

/// A unit's or a console's line is listed if and only if the written policy at that time lets it be shown.
pub fn lists_exactly_what_may_be_shown()
    ensures { ListsExactlyWhatMayBeShown }
{}

/// The line of a unit or a console is about it, and is shown if READ on its resource is allowed; a plain one always is.
pub fn lines_are_about_what_they_list()
    ensures { LinesAreAboutWhatTheyList }
{}

/// `D A,L` lists every unit that may be shown,
pub fn lists_every_unit()
    ensures { ListsEveryUnit }
{}

/// `D A` with a name has a line for that unit alone.
pub fn lists_the_unit()
    ensures { ListsTheUnit }
{}

/// `D C` has a line for every console.
pub fn lists_every_console()
    ensures { ListsEveryConsole }
{}

/// They list each of these once, in the order of the board.
pub fn displays_list_each_once()
    ensures units { ListsEachUnitOnce }
    ensures unit { ListsTheUnitOnce }
    ensures consoles { ListsEachConsoleOnce }
{}

/// A user is logged on only if nobody is logged on there, the password is the user's, and the written policy at that
/// time allows it.
pub fn logs_on_only_where_allowed()
    ensures { LogsOnOnlyWhereAllowed }
{}

/// A user is logged on if all of this holds, unless the request is aborted.
pub fn logs_on_wherever_allowed()
    ensures { LogsOnWhereverAllowed }
{}

/// LOGOFF is done only if somebody is logged on.
pub fn logs_off_only_where_somebody_is_on()
    ensures { LogsOffOnlyWhereSomebodyIsOn }
{}

/// LOGOFF is done if somebody is logged on, unless the request is aborted.
pub fn logs_off_wherever_somebody_is_on()
    ensures { LogsOffWhereverSomebodyIsOn }
{}

/// Administration is done only if the written policy at that time gives the right.
pub fn administers_only_where_allowed()
    ensures { AdministersOnlyWhereAllowed }
{}

/// Administration is done if the written policy at that time gives the right, unless something is in the way or the
/// request is aborted.
pub fn administers_wherever_allowed()
    ensures { AdministersWhereverAllowed }
{}

/// The right to administer is that of SPECIAL, or of the owner of the profile that is altered, deleted or permitted.
pub fn rights_are_of_special_and_owners()
    ensures { RightsAreOfSpecialAndOwners }
{}

/// An operation does what its definition states and nothing else, and leaves an online console with AUTH MASTER if
/// there is one.
pub fn operations_do_what_they_say()
    ensures done { OperationsDoWhatTheySay }
    ensures master { OperationsKeepAMaster }
{}

/// Each operation is refused by its first obstacle (E52, E53, E55), and if there is none, is done, unless the last
/// online console with AUTH MASTER would be lost (E41).
pub fn operations_are_refused_by_what_is_in_their_way()
    ensures refused { ObstaclesAreFaults }
    ensures done { OperationsAreDoneWithoutObstacle }
{}

/// A profile's line is listed if and only if the written policy at that time lets it be shown.
pub fn lists_exactly_profiles_shown()
    ensures { ListsExactlyProfilesShown }
{}

/// Profiles are listed if the console may make a request, unless the request is aborted.
pub fn lists_profiles_wherever_asked()
    ensures { ListsProfilesWhereverAsked }
{}

/// A profile may be shown to SPECIAL, AUDITOR, its owner and whoever holds READ in it,
pub fn profiles_are_seen_by_readers()
    ensures { ProfilesAreSeenByReaders }
{}

/// and of two of a class that are listed the more specific comes first.
pub fn more_specific_profiles_come_first()
    ensures { MoreSpecificProfilesComeFirst }
{}

/// The account is listed only if the written policy at that time lets it be shown.
pub fn lists_account_only_where_shown()
    ensures { ListsAccountOnlyWhereShown }
{}

/// The account is listed if it may be shown, unless the request is aborted.
pub fn lists_account_wherever_shown()
    ensures { ListsAccountWhereverShown }
{}

/// The n-th line of such a list is the n-th row from the requested one on, with its number; there are as many as were
/// requested, or as there are rows.
pub fn account_is_paged()
    ensures { AccountIsPaged }
{}

/// The account may be shown to SPECIAL and AUDITOR.
pub fn account_is_seen_by_auditors()
    ensures { AccountIsSeenByAuditors }
{}

/// Anything is imported only if the acting user has SPECIAL.
pub fn imports_are_of_special()
    ensures { ImportsAreOfSpecial }
{}

/// An import is done only for SPECIAL, and in whole.
pub fn imports_only_where_allowed()
    ensures { ImportsOnlyWhereAllowed }
{}

/// An import with a new number is done for SPECIAL, unless a row is refused or the request is aborted,
pub fn imports_wherever_allowed()
    ensures { ImportsWhereverAllowed }
{}

/// and one whose number is stored with the same rows changes nothing.
pub fn repeats_wherever_allowed()
    ensures { RepeatsWhereverAllowed }
{}

/// Two batches are the same if their rows are equal.
pub fn same_rows_are_equal()
    ensures { SameRowsAreEqual }
{}

/// The rows of an import are taken one after another, each by what those before it leave, and all of them.
pub fn rows_are_taken_in_turn()
    ensures { RowsAreTakenInTurn }
{}

/// A first policy is taken like these rows, and only if no user is stored (E57).
pub fn first_policies_are_first()
    ensures { FirstPoliciesAreFirst }
{}

/// The batch of a number is found if and only if one is stored.
pub fn batches_are_found_by_number()
    ensures { BatchesAreFoundByNumber }
{}

/// A refusal changes nothing but the account, to which it adds its row.
pub fn refusals_change_nothing()
    ensures { RefusalsChangeNothing }
{}

/// A request that is aborted changes nothing, not even the account.
pub fn aborts_change_nothing()
    ensures { AbortsChangeNothing }
{}

/// A request is aborted only if an allocation (E90) or the store (E91) failed, and is answered like that.
pub fn aborts_without_memory_or_store()
    ensures { AbortsWithoutMemoryOrStore }
{}

/// A refusal for lack of authority names its rule, a profile, a console's group or the logon rule, and that rule denies
/// by the written policy at that time.
pub fn refusals_of_authority_name_their_rule()
    ensures { RefusalsOfAuthorityNameTheirRule }
{}

/// No refusal names another rule than one that denies, or that allowed what the board refused.
pub fn refusals_name_no_other_rule()
    ensures { RefusalsNameNoOtherRule }
{}

/// What the written policy at that time denies is answered by that denial and its rule, unless the request is aborted.
pub fn denials_are_answered()
    ensures { DenialsAreAnswered }
{}

/// If something on the board is in the way of what is allowed, its fault is answered with the rule that allowed it.
pub fn board_faults_are_answered()
    ensures { BoardFaultsAreAnswered }
{}

/// At a console that is not there (E10) or offline (E11), requests are refused.
pub fn missing_consoles_are_answered()
    ensures missing { MissingConsolesAreAnswered }
    ensures offline { OfflineConsolesAreAnswered }
{}

/// A line that is not a command is refused by its first fault.
pub fn bad_lines_are_answered()
    ensures { BadLinesAreAnswered }
{}

/// What is in the way on the board, and what is wrong with a line, is reported by its number, and no two have the same.
pub fn faults_are_distinct()
    ensures board { BoardFaultsAreDistinct }
    ensures line { LineFaultsAreDistinct }
{}

/// A LOGON is refused if somebody is logged on (E15), then if the password is not the user's (E14); LOGOFF if nobody is
/// logged on (E16).
pub fn logon_faults_are_answered()
    ensures { LogonFaultsAreAnswered }
{}

/// If the right is missing, only that is answered, whatever else is in the way: that only SPECIAL may (E50), or besides
/// it only the owner of the profile (E51).
pub fn missing_rights_are_answered()
    ensures { MissingRightsAreAnswered }
{}

/// If the right is there, what is in the way of the change or of a row is answered, and for a number that is stored
/// with other rows, that it is (E56).
pub fn what_is_in_the_way_is_answered()
    ensures administration { AdministrationFaultsAreAnswered }
    ensures rows { ImportFaultsAreAnswered }
    ensures batch { ChangedBatchesAreAnswered }
{}

/// What is done leaves the account and the batches as they are. Its row is added if and only if a warning alone let it
/// pass, and an import stores its batch.
pub fn what_is_done_leaves_the_rest()
    ensures { WhatIsDoneLeavesRest }
{}

/// A row of the account has the timestamp, the console, the outcome and the rule that decided.
pub fn account_rows_say()
    ensures { AccountRowsSay }
{}

/// A request names the console at which it is made, and an event none.
pub fn requests_name_their_console()
    ensures { RequestsNameTheirConsole }
{}

/// An event changes the board by its effect, and nothing else.
pub fn events_only_do_their_effect()
    ensures { EventsOnlyDoTheirEffect }
{}

/// It happens if the board allows it, unless it is aborted,
pub fn events_happen_wherever_possible()
    ensures { EventsHappenWhereverPossible }
{}

/// and is otherwise refused by the board's fault.
pub fn event_faults_are_answered()
    ensures { EventFaultsAreAnswered }
{}
