//! What happens to a board without a command.
use crate::rows::UnitKind;
use crate::text::KeptText;
use opc_names::name::{Device, UnitName};
use opc_names::reply_id::ReplyId;

/// An event of the machine room.
#[derive(Drop)]
pub enum Event {
    /// A unit comes.
    JobIn {
        name: UnitName,
        kind: UnitKind,
        cancelable: bool,
    },
    /// A unit ends.
    JobEnd(UnitName),
    /// Something asks the operators.
    Ask {
        id: ReplyId,
        text: KeptText,
    },
    /// A device is there from now on: online, empty and free.
    Attach(Device),
    /// A unit takes a device.
    Allocate {
        device: Device,
        unit: UnitName,
    },
    /// The unit that has a device gives it back.
    Free(Device),
    /// The day goes on after a halt.
    Resume,
}
