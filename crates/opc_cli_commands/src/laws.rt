//! What the table of commands has, to those who read it, and what hints mean. Each law is what a call without a body
//! ensures.
ghost use Rattle.opc_cli_commands.specs.HintLaws.{DistancesAreOfWords, HintsShowNoPassword, VerbsAreTheReaders};
ghost use Rattle.opc_cli_commands.specs.Laws.{EachFormReads, EachVerbHasAForm};

/// Each line of the table is a command, so its row says what that command needs.
pub fn each_form_reads()
    ensures { EachFormReads }
{}

/// Each verb has a form in the table.
pub fn each_verb_has_a_form()
    ensures { EachVerbHasAForm }
{}

/// The verbs that a hint names are those of the reader, and each form that it shows is one of its verb.
pub fn verbs_are_the_readers()
    ensures { VerbsAreTheReaders }
{}

/// Whatever stands behind a LOGON that is no command, the same is shown of it: no password.
pub fn hints_show_no_password()
    ensures { HintsShowNoPassword }
{}

/// A word is at distance 0 from itself alone.
pub fn distances_are_of_words()
    ensures { DistancesAreOfWords }
{}
