//! What strictness means for those who run a service.
ghost use Rattle.opc_http_requests.specs.Laws.{AsksForTheSame, WebPagesAreForbidden, WhatIsAskedIsFromHere};

/// A strict service forbids what a web page may have sent. It accepts nothing but what is from here, and treats that as
/// any other service does.
pub fn web_pages_ask_for_nothing()
    ensures forbidden { WebPagesAreForbidden }
    ensures from_here { WhatIsAskedIsFromHere }
    ensures same { AsksForTheSame }
{}
