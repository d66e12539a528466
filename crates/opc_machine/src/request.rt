//! Requests and their answers.
use crate::operation::Operation;
use opc_board::event::Event;
use opc_board::line::Line;
use opc_board::text::KeptText;
use opc_names::class::Class;
use opc_names::name::ConsoleName;
use opc_policy_members::row::Row;
use opc_rows::Rows;
use opc_terms::fault::Fault;
use opc_terms::rule::Rule;

/// What the gate can be asked.
#[derive(Drop)]
pub enum Request {
    /// A command line as it was typed at a console.
    Command {
        console: ConsoleName,
        text: KeptText,
    },
    /// An operation of administration.
    Admin {
        console: ConsoleName,
        op: Operation,
    },
    /// The profiles of a class.
    ListProfiles {
        console: ConsoleName,
        class: Class,
    },
    /// Rows of the account from a number on (0 means 1), at most as many as requested.
    ListAccount {
        console: ConsoleName,
        from: u64,
        count: u32,
    },
    /// The rows of a written policy, as a batch with a number.
    Import {
        console: ConsoleName,
        batch: u32,
        rows: Rows<Row>,
    },
    /// What happens in the machine room.
    Event(Event),
}

/// What the gate answers.
#[derive(Drop)]
pub enum Answer {
    /// It is done: the lines that it gives, and the rule that allowed it, if it needed one.
    Done {
        lines: Rows<Line>,
        rule: Option<Rule>,
    },
    /// It is refused: why, and the rule that decided, if one did.
    Refused {
        fault: Fault,
        rule: Option<Rule>,
    },
}
