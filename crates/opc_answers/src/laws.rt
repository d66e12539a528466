//! What an answer says is what the access machine rules, as what a call without a body ensures.
ghost use Rattle.opc_answers.specs.Laws.{
  AdmitsAsTheMachineDoes,
  AdmitsNobodyWithoutADigest,
  LogsOnWhereSaid,
  OwnUsersNeedNoLogon,
  RaisesWhereNamed,
  SaysTheRulingAtAConsole,
  SaysTheLogonRuling,
  SaysTheRulingElsewhere,
  SaysTheRulingWhereRaised,
  SaysWhatIsDenied,
  SaysWhoCannotLogOnThere,
  SaysWhoEntersThere,
  SaysWhoLogsOn,
  SaysWhoMayThere,
};

/// The ruling in the line of a user and a command is that with the user logged on at the console: at one console, and,
/// if no console is named, at each.
pub fn says_what_is_ruled()
    ensures at_a_console { SaysTheRulingAtAConsole }
    ensures raised { SaysTheRulingWhereRaised }
    ensures elsewhere { SaysTheRulingElsewhere }
    ensures named { RaisesWhereNamed }
{}

/// At a console a user may exactly if the command is allowed with that user on there, and so is the line that it asks
/// for, and the user can log on there: by a logon that the machine allows, for which a digest has to be stored, or as
/// the user for whom the console acts. Whether the line is shown does not matter to who enters it, nor to who cannot
/// log on.
pub fn says_who_may_there()
    ensures may { SaysWhoMayThere }
    ensures enters { SaysWhoEntersThere }
    ensures off { SaysWhoCannotLogOnThere }
    ensures admitted { AdmitsAsTheMachineDoes }
    ensures digest { AdmitsNobodyWithoutADigest }
    ensures own { OwnUsersNeedNoLogon }
{}

/// A LOGON is reported as allowed exactly if the machine allows it, for which a digest must be stored; and at an
/// unattended console it is done with the password that is stored.
pub fn says_who_logs_on()
    ensures ruling { SaysTheLogonRuling }
    ensures may { SaysWhoLogsOn }
    ensures done { LogsOnWhereSaid }
{}

/// A line with a ruling says `DENIED` exactly if the ruling denies.
pub fn says_what_is_denied()
    ensures { SaysWhatIsDenied }
{}
