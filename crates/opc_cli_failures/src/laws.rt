//! What is shown of texts; each law is what a call without a body ensures.
ghost use Rattle.opc_cli_failures.specs.Escaped.{PrintableTextsStay};
ghost use Rattle.opc_cli_failures.specs.Shown.{JoinTexts};

/// What a terminal shows of texts, one after another, is what it shows of them as one text.
pub fn texts_are_shown_as_one()
    ensures { JoinTexts }
{}

/// A text in a line is printed as it is, unless a character of it would end the line, or a terminal would act on it or
/// hide it.
pub fn printable_texts_stay()
    ensures { PrintableTextsStay }
{}
