//! Why a ruling is what it is, what a user holds, and for whom a console acts. Each law is what a call without a body
//! ensures.
ghost use Rattle.opc_machine_laws.specs.ActingLaws.{
  AutoConsolesActForTheirOwn,
  OptionalConsolesActAlone,
  OtherAutoConsolesActAlone,
  OthersAreAccountedToNobody,
  RequiredConsolesActForNobody,
  WhoIsOnComesFirst,
};
ghost use Rattle.opc_machine_laws.specs.HoldingLaws.{
  ConsoleEntriesRaise,
  ConsolesNeverLower,
  EntriesCountAtTheirConsole,
  FirstSourceAtConsoleDecides,
  FirstSourceDecides,
  LevelsAreGiven,
  RestrictedUsersAreNamed,
};
ghost use Rattle.opc_machine_laws.specs.RulingLaws.{LogonRuleSaysWhy, LogonRulingsSayWhy, RulingsSayWhy};

/// The logon rule denies if nobody is logged on at a REQUIRED console, and then if the acting user is revoked.
pub fn logon_rule_says_why()
    ensures { LogonRuleSaysWhy }
{}

/// A ruling is that of the logon rule, else that of the profile of OPERCMDS that decides on the acting user, else that
/// of the console's authority.
pub fn rulings_say_why()
    ensures { RulingsSayWhy }
{}

/// A user who logs on is refused if revoked, then ruled on by the profile of CONSOLE that decides, and otherwise
/// admitted.
pub fn logon_rulings_say_why()
    ensures { LogonRulingsSayWhy }
{}

/// A level above NONE is held by an entry for the user, at every console or at this one, or by the universal access.
pub fn levels_are_given()
    ensures { LevelsAreGiven }
{}

/// An entry for a console never lowers what a user holds there,
pub fn consoles_never_lower()
    ensures { ConsolesNeverLower }
{}

/// and the first source among those for a console raises it there to its level.
pub fn console_entries_raise()
    ensures { ConsoleEntriesRaise }
{}

/// An entry for a console counts there alone.
pub fn entries_count_at_their_console()
    ensures { EntriesCountAtTheirConsole }
{}

/// A RESTRICTED user has nothing of what is given to everyone: neither by `*` nor by universal access.
pub fn restricted_users_are_named()
    ensures { RestrictedUsersAreNamed }
{}

/// The user's own entry decides, then those for the user's groups, then that for everyone, then the universal access:
/// the first that is there, even if its level is NONE.
pub fn the_first_source_decides()
    ensures { FirstSourceDecides }
{}

/// Of the entries for one console, too, the first source decides what a user is raised to there.
pub fn the_first_source_at_a_console_decides()
    ensures { FirstSourceAtConsoleDecides }
{}

/// An unattended AUTO console acts for the user of its own name,
pub fn auto_consoles_act_for_their_own()
    ensures { AutoConsolesActForTheirOwn }
{}

/// and for nobody if no such user is stored.
pub fn other_auto_consoles_act_alone()
    ensures { OtherAutoConsolesActAlone }
{}

/// An unattended OPTIONAL console acts for nobody.
pub fn optional_consoles_act_alone()
    ensures { OptionalConsolesActAlone }
{}

/// An unattended REQUIRED console acts for nobody.
pub fn required_consoles_act_for_nobody()
    ensures { RequiredConsolesActForNobody }
{}

/// A console of any mode acts for the user who is logged on there.
pub fn who_is_on_comes_first()
    ensures { WhoIsOnComesFirst }
{}

/// A request at no console, or at one that is not there, is accounted to nobody.
pub fn others_are_accounted_to_nobody()
    ensures { OthersAreAccountedToNobody }
{}
