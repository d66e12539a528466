//! The verbs of commands.
ghost use Rattle.std.specs.Prelude.{◌≡◌};
ghost use Rattle.opc_names.specs.Spellings.{lookup};
ghost use Rattle.opc_reader.specs.Verbs.{verbs};

use opc_names::spellings::spelled_in;

/// The verb of a command (MVS System Commands), and LOGON and LOGOFF.
#[derive(Clone, Copy, PartialEq, Eq)]
pub enum Verb {
    Display,
    Cancel,
    Force,
    Start,
    Stop,
    Modify,
    Reply,
    Vary,
    Mount,
    Unload,
    Swap,
    Reset,
    Send,
    Log,
    Monitor,
    StopMonitor,
    Halt,
    Logon,
    Logoff,
}

impl Verb {
    /// The verb with this spelling: in full, or by its one abbreviation.
    pub(crate) fn spelled(text: &str) -> Option<Verb>
        ensures { result ≡ lookup verbs text.now }
    {
        let spellings = [
            ("DISPLAY", Verb::Display),
            ("D", Verb::Display),
            ("CANCEL", Verb::Cancel),
            ("C", Verb::Cancel),
            ("FORCE", Verb::Force),
            ("START", Verb::Start),
            ("S", Verb::Start),
            ("STOP", Verb::Stop),
            ("P", Verb::Stop),
            ("MODIFY", Verb::Modify),
            ("F", Verb::Modify),
            ("REPLY", Verb::Reply),
            ("R", Verb::Reply),
            ("VARY", Verb::Vary),
            ("V", Verb::Vary),
            ("MOUNT", Verb::Mount),
            ("M", Verb::Mount),
            ("UNLOAD", Verb::Unload),
            ("U", Verb::Unload),
            ("SWAP", Verb::Swap),
            ("G", Verb::Swap),
            ("RESET", Verb::Reset),
            ("E", Verb::Reset),
            ("SEND", Verb::Send),
            ("SE", Verb::Send),
            ("LOG", Verb::Log),
            ("L", Verb::Log),
            ("MONITOR", Verb::Monitor),
            ("MN", Verb::Monitor),
            ("STOPMN", Verb::StopMonitor),
            ("PM", Verb::StopMonitor),
            ("HALT", Verb::Halt),
            ("Z", Verb::Halt),
            ("LOGON", Verb::Logon),
            ("LOGOFF", Verb::Logoff),
        ];
        spelled_in(&spellings, text)
    }
}
