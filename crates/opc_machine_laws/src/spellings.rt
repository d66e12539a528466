//! How names, authorities, lines and faults are spelled, for those who type them and read them.
ghost use Rattle.opc_machine_laws.specs.BadLineLaws.{LineFaultsReadSo, LinesAreRefusedSo};
ghost use Rattle.opc_machine_laws.specs.FaultTextLaws.{AbortsSayWhy, FaultsAreNamedSo};
ghost use Rattle.opc_machine_laws.specs.LineLaws.{LinesSayTheirFields, RulesSayTheirFields};
ghost use Rattle.opc_machine_laws.specs.NameLaws.{NamesAreSo};
ghost use Rattle.opc_machine_laws.specs.SpellingLaws.{
  AuthoritiesAreSpelledSo,
  AuthoritiesAreTypedSo,
  RepliesAreNumberedSo,
  SpellingsAreAlone,
};

/// Worked examples of each kind of name, and of what is wrong with texts that are none.
pub fn names_are_so()
    ensures { NamesAreSo }
{}

/// An authority enters what its text lists, in any order, and is shown by the same words; what may be typed for AUTH=
/// is what a policy may have, with a list in parentheses.
pub fn authorities_are_spelled_so()
    ensures spelled { AuthoritiesAreSpelledSo }
    ensures typed { AuthoritiesAreTypedSo }
{}

/// No other text is read as a level, a class or a mode than its own, nor as a verb than its two words.
pub fn spellings_are_alone()
    ensures { SpellingsAreAlone }
{}

/// A reply is answered by its number, as it is or in the two digits that are shown, and by nothing else.
pub fn replies_are_numbered_so()
    ensures { RepliesAreNumberedSo }
{}

/// Worked examples of lines that are refused, each with its first fault and the place, and of how that is reported.
pub fn lines_are_refused_so()
    ensures refused { LinesAreRefusedSo }
    ensures reported { LineFaultsReadSo }
{}

/// Each fault has its name, and says which place, user, name or row it is about; a request is aborted by the fault of
/// what failed.
pub fn faults_are_named_so()
    ensures named { FaultsAreNamedSo }
    ensures aborts { AbortsSayWhy }
{}

/// Each column of a line, and each word of a rule, is that of one field, whatever the other fields are.
pub fn lines_say_their_fields()
    ensures lines { LinesSayTheirFields }
    ensures rules { RulesSayTheirFields }
{}
