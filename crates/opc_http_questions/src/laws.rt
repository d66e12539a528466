//! What strictness means for those who run a decision point.
ghost use Rattle.opc_http_questions.specs.StrictQuestions.{PutsTheSame, WebPagesPutNothing};

/// A strict decision point forbids what a web page may have sent. It treats what is from here as any other one does.
pub fn web_pages_put_nothing()
    ensures forbidden { WebPagesPutNothing }
    ensures same { PutsTheSame }
{}
