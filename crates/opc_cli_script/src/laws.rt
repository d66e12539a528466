//! What reading a script means; each law is what a call without a body ensures.
ghost use Rattle.opc_cli_script.specs.Laws.{EventsAreSpelled, EventsReadBack, SlipsShowNoPassword};

/// An event reads back from its text.
pub fn events_read_back()
    ensures { EventsReadBack }
{}

/// A text is read as an event only if it is that event's text.
pub fn events_are_spelled()
    ensures { EventsAreSpelled }
{}

/// Whatever stands after the word that is wrong, the same is shown of a bad line: no password of a LOGON.
pub fn slips_show_no_password()
    ensures { SlipsShowNoPassword }
{}
