//! What a page says, as what a call without a body ensures.
ghost use Rattle.opc_answers_sheet.specs.Laws.{
  EscapedTextHasNoMarkup,
  ListsAsWho,
  ListsAsWhoThere,
  ListsLogonsAsWho,
  ListsWhoMay,
  SaysTheSameOfAllForms,
};

/// The name of a policy and the texts of notes have no markup in a page, whatever their characters are.
pub fn texts_have_no_markup()
    ensures { EscapedTextHasNoMarkup }
{}

/// A user stands in a row exactly if `who --allowed` lists the user, for each form of the row, at its example: among
/// those of every console, or of one; and in the row of a console exactly if it lists the user for a LOGON there.
pub fn rows_list_who_may()
    ensures listed { ListsWhoMay }
    ensures everywhere { ListsAsWho }
    ensures there { ListsAsWhoThere }
    ensures logons { ListsLogonsAsWho }
    ensures forms { SaysTheSameOfAllForms }
{}
