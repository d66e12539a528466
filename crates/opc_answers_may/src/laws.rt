//! What is said of one user is what `who` says, as what a call without a body ensures.
ghost use Rattle.opc_answers_may.specs.MayLaws.{
  BothSeeTheAccount,
  DecidesAtItsPlace,
  HasOneHead,
  HidesAsWho,
  OwnersPermit,
  RaisedAsWho,
  SaysAsWho,
  SaysAsWhoByAuthority,
  SaysAsWhoEverywhere,
  SaysLogonsAsWho,
  SaysOneUnderAHead,
  SpecialChanges,
  StandsByItsGroup,
  StandsByItsKind,
  StandsUnderItsHead,
};

/// Each form stands in one line of a section, with what is said of its kind, or by the authority of a console.
pub fn each_form_stands_once()
    ensures kind { StandsByItsKind }
    ensures group { StandsByItsGroup }
{}

/// Of the commands that are decided at a place what `who` says of the user is said: by the profile that decides them;
/// if none does, everywhere the same line, and at a console the same word by its authority. A console has a section of
/// its own as `who` has a line for it. A line of an answer is hidden as `who` says of an allowed command that asks for
/// it.
pub fn says_as_who()
    ensures place { DecidesAtItsPlace }
    ensures profile { SaysAsWho }
    ensures everywhere { SaysAsWhoEverywhere }
    ensures authority { SaysAsWhoByAuthority }
    ensures raised { RaisedAsWho }
    ensures hidden { HidesAsWho }
{}

/// What is said of a LOGON is what `who` says of it. A console has one head, and stands under it; without an entry for
/// a console alone one head says the same of all its consoles.
pub fn says_logons_as_who()
    ensures line { SaysLogonsAsWho }
    ensures head { HasOneHead }
    ensures under { StandsUnderItsHead }
    ensures alike { SaysOneUnderAHead }
{}

/// What a user may change and see is what the gate lets the user do.
pub fn says_what_the_gate_lets_change()
    ensures special { SpecialChanges }
    ensures owner { OwnersPermit }
    ensures account { BothSeeTheAccount }
{}
