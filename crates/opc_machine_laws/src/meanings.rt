//! What tables, tests and texts mean, for those who read them.
ghost use Rattle.opc_machine_laws.specs.DisplayLaws.{BoardsGoByName, CommandsReportTheirLines};
ghost use Rattle.opc_machine_laws.specs.ExplainingLaws.{
  ExplanationsForesee,
  ExplanationsListWhatCovers,
  ExplanationsReadSo,
};
ghost use Rattle.opc_machine_laws.specs.HoldingLaws.{EachGroupCounts, LevelsIncludeThoseBelow};
ghost use Rattle.opc_machine_laws.specs.LeavingLaws.{RequestsAreAsked};
ghost use Rattle.opc_machine_laws.specs.NeedLaws.{CommandsNeedSo};
ghost use Rattle.opc_machine_laws.specs.NewStateLaws.{NewStatesAreEmpty, NumbersSuffice};
ghost use Rattle.opc_machine_laws.specs.NumberLaws.{FaultsHaveTheirNumbers};
ghost use Rattle.opc_machine_laws.specs.OrderLaws.{MembersGoByName, PatternsGoSo};
ghost use Rattle.opc_machine_laws.specs.ReadingLaws.{LinesAreReadSo};
ghost use Rattle.opc_machine_laws.specs.RowLaws.{BatchesAreKept};
ghost use Rattle.opc_machine_laws.specs.SpecificLaws.{NarrowerComesFirst, PatternsCoverSo};
ghost use Rattle.opc_machine_laws.specs.StoredLaws.{
  ConnectsConnect,
  MastersAreOnline,
  NamedIsWhoIsNamed,
  OnIsWhoIsOn,
  SessionsAreOfTheirUsers,
  StoredIsWhatIsThere,
};
ghost use Rattle.opc_machine_laws.specs.ReportingLaws.{
  LinesReadSo,
  RulesReadSo,
  SpellingsReadBack,
  TypedTextsSay,
  VerbsAreSpelledSo,
  WordsReadSo,
};

/// What each command needs: a group, a level and a resource, which names the unit as it is on the board.
pub fn commands_need_so()
    ensures { CommandsNeedSo }
{}

/// At the first difference of two patterns, the one whose character, `%`, `*` or `**` stands for less comes before the
/// other.
pub fn narrower_patterns_come_first()
    ensures { NarrowerComesFirst }
{}

/// Worked examples of what patterns cover, and of what they do not.
pub fn patterns_cover_so()
    ensures { PatternsCoverSo }
{}

/// Each of a user's groups counts: without an entry of their own users hold at least what an entry for a group gives.
pub fn each_group_counts()
    ensures { EachGroupCounts }
{}

/// A level includes itself and those below it, in the order NONE, READ, UPDATE, CONTROL, ALTER.
pub fn levels_include_those_below()
    ensures { LevelsIncludeThoseBelow }
{}

/// What is treated as stored is stored: users, groups and whom entries may be for, connects and the groups of a user,
/// who is named anywhere, who is logged on or has a session, and whether an online console has AUTH MASTER.
pub fn stored_is_what_is_there()
    ensures names { StoredIsWhatIsThere }
    ensures connects { ConnectsConnect }
    ensures named { NamedIsWhoIsNamed }
    ensures on { OnIsWhoIsOn }
    ensures sessions { SessionsAreOfTheirUsers }
    ensures masters { MastersAreOnline }
{}

/// In a new state nothing is stored, no class is active, and the day is not halted; from then on no list is full before
/// a table has no number left.
pub fn new_states_are_empty()
    ensures nothing { NewStatesAreEmpty }
    ensures room { NumbersSuffice }
{}

/// A batch that is stored is found by its number from then on, and each other one as before.
pub fn batches_are_kept()
    ensures { BatchesAreKept }
{}

/// A display lists what the board has, in its order, R shows the reply that it answers, and no other command shows
/// anything.
pub fn commands_report_their_lines()
    ensures { CommandsReportTheirLines }
{}

/// Each fault has its number.
pub fn faults_have_their_numbers()
    ensures { FaultsHaveTheirNumbers }
{}

/// Each level, class, authority and mode is read back from its text, each verb has its two words, and a typed text
/// means what is between its apostrophes.
pub fn what_is_read_is_what_is_written()
    ensures spellings { SpellingsReadBack }
    ensures verbs { VerbsAreSpelledSo }
    ensures texts { TypedTextsSay }
{}

/// Worked examples of the text of each rule, of the words in it, and of each kind of line.
pub fn rules_and_lines_read_so()
    ensures rules { RulesReadSo }
    ensures words { WordsReadSo }
    ensures lines { LinesReadSo }
{}

/// A board that is in order is sorted by names and numbers.
pub fn boards_go_by_name()
    ensures { BoardsGoByName }
{}

/// The members of a policy go by their names and ids, and of two patterns the more specific comes first.
pub fn members_go_by_name()
    ensures by_name { MembersGoByName }
    ensures examples { PatternsGoSo }
{}

/// What is explained to a user at a console is how the user's commands are ruled there, and exactly the patterns that
/// cover are listed.
pub fn explanations_foresee()
    ensures foreseen { ExplanationsForesee }
    ensures listed { ExplanationsListWhatCovers }
    ensures example { ExplanationsReadSo }
{}

/// The machine is asked what the request states, as it was sent.
pub fn requests_are_asked()
    ensures { RequestsAreAsked }
{}

/// A worked example of each command, as it is typed and as it is read.
pub fn lines_are_read_so()
    ensures { LinesAreReadSo }
{}
