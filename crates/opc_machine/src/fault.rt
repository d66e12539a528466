//! Faults of lines and of the board as faults of a request.
ghost use Rattle.std.specs.Prelude.{◌≡◌};
ghost use Rattle.opc_machine.specs.Faults.{line_fault, board_fault};

use opc_board::fault::BoardFault;
use opc_reader::line::ReadFault;
use opc_terms::fault::Fault;

/// The fault of a command line that cannot be read.
pub fn of_line(fault: ReadFault) -> Fault
    ensures { result ≡ line_fault fault }
{
    match fault {
        ReadFault::Empty => Fault::Empty,
        ReadFault::TooLong => Fault::TooLong,
        ReadFault::BadCharacter(at) => Fault::BadCharacter { at },
        ReadFault::UnknownVerb(span) => Fault::UnknownVerb {
            from: span.from,
            to: span.to,
        },
        ReadFault::BadOperand(span) => Fault::BadOperand {
            from: span.from,
            to: span.to,
        },
        ReadFault::OpenQuote(at) => Fault::OpenQuote { at },
    }
}

/// The fault of a command or an event that the board refuses.
pub fn of_board(fault: BoardFault) -> Fault
    ensures { result ≡ board_fault fault }
{
    match fault {
        BoardFault::NoUnit => Fault::NoUnit,
        BoardFault::NonCancelable => Fault::NonCancelable,
        BoardFault::Cancelable => Fault::Cancelable,
        BoardFault::UnitExists => Fault::UnitExists,
        BoardFault::NoDevice => Fault::NoDevice,
        BoardFault::DeviceState => Fault::DeviceState,
        BoardFault::DeviceInUse => Fault::DeviceInUse,
        BoardFault::NoVolume => Fault::NoVolume,
        BoardFault::NoReply => Fault::NoReply,
        BoardFault::NoTarget => Fault::NoTarget,
        BoardFault::Halted => Fault::Halted,
        BoardFault::LastMaster => Fault::LastMaster,
        BoardFault::WrongKind => Fault::WrongKind,
        BoardFault::ReplyExists => Fault::ReplyExists,
        BoardFault::NoMemory => Fault::NoMemory,
    }
}
