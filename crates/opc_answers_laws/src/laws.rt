//! Laws on answers for people; each law is what a call without a body ensures.
ghost use Rattle.opc_answers_laws.specs.CheckLaws.{FoundIsTaken, TakenIfNoneIsRefused, TakenIsFound};
ghost use Rattle.opc_answers_laws.specs.NoteLaws.{
  NotedUnlessDeciding,
  NotedUnlessMet,
  RowsInEffectAreStored,
  StoredRowsAreInEffect,
};
ghost use Rattle.opc_answers_laws.specs.ReachLaws.{
  CommandsAskSo,
  LinesAskSo,
  DecidersAreMet,
  DecidersOfCommandsAreMet,
  DecidersOfLinesAreMet,
};
ghost use Rattle.opc_answers_laws.specs.FormLaws.{
  ConsoleLinesHaveForms,
  FormsAreAskedAbout,
  NeedsHaveForms,
  UnitLinesHaveForms,
};
ghost use Rattle.opc_answers_laws.specs.AccountLaws.{
  LoadedRowsAreShown,
  RowsAreShownInOrder,
  ShownRowsAreStored,
  StoredRowsAreShown,
};
ghost use Rattle.opc_answers_laws.specs.DigestLaws.{DigestsLogOn};
ghost use Rattle.opc_answers_laws.specs.ExportLaws.{ExportsGoByKind};
ghost use Rattle.opc_answers_laws.specs.EnteringLaws.{
  EntersAfterALogon,
  EntersWithoutADigest,
  SaysNoLogonIfRefused,
  SaysNoLogonWithoutADigest,
  SaysWhichOwnUserIsShownTheLine,
  SaysWhoIsShownTheLine,
};

/// Rows are taken as a first policy if and only if none of them is refused, and otherwise refused for the first fault.
/// So E41 never occurs: with no console before it, a first policy loses no last master.
pub fn taken_if_none_is_refused()
    ensures { TakenIfNoneIsRefused }
{}

/// If a check finds rows and their policy, the rows can be loaded, and make that policy.
pub fn found_is_taken()
    ensures { FoundIsTaken }
{}

/// A check finds nothing bad in a file that can be loaded.
pub fn taken_is_found()
    ensures { TakenIsFound }
{}

/// Notes are about what is stored: once a file is loaded as a first policy, each of its rows in effect is stored, and
/// nothing else is.
pub fn rows_in_effect()
    ensures stored { RowsInEffectAreStored }
    ensures effect { StoredRowsAreInEffect }
{}

/// A profile has the note N17 exactly if the gate asks about no resource that its pattern covers.
pub fn profiles_that_are_not_met()
    ensures { NotedUnlessMet }
{}

/// One that covers such a resource has the note N20 exactly if each that it covers is covered by a pattern that comes
/// before.
pub fn profiles_that_never_decide()
    ensures { NotedUnlessDeciding }
{}

/// Every resource about which a ruling on a command or the showing of a line asks is one that `opc_check_reach` counts.
pub fn questions_count()
    ensures commands { CommandsAskSo }
    ensures lines { LinesAskSo }
{}

/// The forms of `opc_policy_deciders` are those of the command table: what a command needs has a form of its level and
/// group, what showing a line needs has one of lines, and the gate asks about each resource of a form.
pub fn forms_are_of_the_table()
    ensures needs { NeedsHaveForms }
    ensures units { UnitLinesHaveForms }
    ensures consoles { ConsoleLinesHaveForms }
    ensures asked { FormsAreAskedAbout }
{}

/// A profile whose pattern is not met decides nothing.
pub fn deciders_are_met()
    ensures questions { DecidersAreMet }
    ensures commands { DecidersOfCommandsAreMet }
    ensures lines { DecidersOfLinesAreMet }
{}

/// Each row that is shown is stored under its number and was requested; each stored row that was requested is shown,
/// unless enough are; and they are shown in the order of their numbers, so none twice.
pub fn shown_rows()
    ensures stored { ShownRowsAreStored }
    ensures shown { StoredRowsAreShown }
    ensures order { RowsAreShownInOrder }
{}

/// Without a filter a page is shown whole: as many rows are loaded as are shown.
pub fn loaded_rows()
    ensures { LoadedRowsAreShown }
{}

/// The digits that are printed for a password, in the row of a user, are read as the digest by which LOGON accepts the
/// same password.
pub fn digests_log_on()
    ensures { DigestsLogOn }
{}

/// An export has its rows kind by kind: the classes, CONSOLE first, then the groups, the users, the connects, the
/// consoles, the profiles and the permits.
pub fn exports_go_by_kind()
    ensures { ExportsGoByKind }
{}

/// What `who` says of a user and a command at a console is what the machine does, begun from the same rows: ALLOWED,
/// WARNED or HIDDEN exactly if the command is allowed after a LOGON of the user there, or without one where the console
/// acts for the user; NOLOGON exactly if the command would be allowed with the user on there, but the LOGON is refused
/// and the console does not act for the user; and of D A,name ALLOWED or WARNED exactly if the answer then is the line of
/// the unit, once the unit is on the board.
pub fn says_who_enters()
    ensures after { EntersAfterALogon }
    ensures without { EntersWithoutADigest }
    ensures refused { SaysNoLogonIfRefused }
    ensures off { SaysNoLogonWithoutADigest }
    ensures line { SaysWhoIsShownTheLine }
    ensures own_line { SaysWhichOwnUserIsShownTheLine }
{}
