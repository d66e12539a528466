//! The laws of what is found form by form, as what a call without a body ensures.
ghost use Rattle.opc_policy_deciders.specs.Laws.{
  DecidedWhereFound,
  EachHasOnePlace,
  FoundWhereDecided,
  RulesAsExplained,
  UndecidedAsExplained,
};

/// Each resource of each form is decided at one place alone: by one profile, or by none. There the form has an example,
/// and an example is a resource of its form that is decided there.
pub fn each_resource_is_decided_once()
    ensures place { EachHasOnePlace }
    ensures found { FoundWhereDecided }
    ensures decided { DecidedWhereFound }
{}

/// What a profile rules on a user is what is explained to the user about each resource that the profile decides; if none
/// decides, it is undecided.
pub fn rules_as_is_explained()
    ensures profile { RulesAsExplained }
    ensures none { UndecidedAsExplained }
{}
