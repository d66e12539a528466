//! Command lines: the command that a line is, with its operands as they were typed, or the first fault of the line.
#![tactic(auto)]

mod form;
pub mod laws;
pub mod line;
mod operand;
mod verb;

pub use crate::line::{ReadFault, read_command};
pub use opc_reader_commands::command::{Command, Operand, Text};
pub use opc_reader_commands::piece::{Piece, Span};
pub use opc_reader_commands::{command, piece};
