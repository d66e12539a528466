//! What a command or an event names.
ghost use Rattle.std.specs.Prelude.{◌≡◌, false, true};
ghost use Rattle.opc_board.specs.declared.board.BoardRows.{BoardRows};
ghost use Rattle.opc_board.specs.Invariants.{Name};
ghost use Rattle.opc_board.specs.Footprint.{IsInOrder, Footprint, IsFootprintOf, IsFootprintOfEvent};
ghost use Rattle.opc_machine.specs.Commands.{is_display};
ghost use Rattle.opc_gate_footprints.specs.BoardKeys.{HasKeys};

use opc_board::event::Event;
use opc_board::replies::session_of;
use opc_names::name::{ConsoleName, Device, UnitName, UserId};
use opc_names::reply_id::ReplyId;
use opc_reader_commands::command::Command;

/// What a command or an event names on the board or depends on, besides the console where it is typed.
#[derive(Clone, Copy)]
pub enum BoardKeys {
    Nothing,
    Unit(UnitName),
    /// A unit that may leave, with the devices that it has.
    Leaving(UnitName),
    Device(Device),
    /// A device, and where its volume and its use go.
    Swapped(Device, Device),
    /// A device, and a unit that takes it.
    Taken(Device, UnitName),
    Console(ConsoleName),
    /// A console that may be the last master.
    Varied(ConsoleName),
    /// A user to whom a message goes: the session and the consoles.
    Addressed(UserId),
    Reply(ReplyId),
}

/// What a command that does more than show names. MN and PM name nothing but the console where they are typed.
pub(crate) fn keys_of_command(command: &Command<'_>) -> BoardKeys
    requires { is_display command.now ≡ false }
    ensures { (footprint : Footprint) → (b : BoardRows) → (console : Name) → IsInOrder b → HasKeys footprint b result
        → footprint.consoles console ≡ true → IsFootprintOf footprint b command.now console }
{
    match command {
        Command::Cancel(name) => BoardKeys::Leaving(name.value),
        Command::CancelUser(user) => BoardKeys::Leaving(session_of(&user.value)),
        Command::Force(name) => BoardKeys::Leaving(name.value),
        Command::Start(member) => BoardKeys::Unit(member.value),
        Command::StartAs(_, id) => BoardKeys::Unit(id.value),
        Command::Stop(name) => BoardKeys::Unit(name.value),
        Command::Modify(name, _) => BoardKeys::Unit(name.value),
        Command::Reply(id, _) => BoardKeys::Reply(id.value),
        Command::VaryDeviceOnline(device) => BoardKeys::Device(device.value),
        Command::VaryDeviceOffline(device) => BoardKeys::Device(device.value),
        Command::VaryConsoleOnline(name) => BoardKeys::Varied(name.value),
        Command::VaryConsoleOffline(name) => BoardKeys::Varied(name.value),
        Command::VaryConsoleAuth(name, _) => BoardKeys::Varied(name.value),
        Command::Mount(device, _) => BoardKeys::Device(device.value),
        Command::Unload(device) => BoardKeys::Device(device.value),
        Command::Swap(from, to) => BoardKeys::Swapped(from.value, to.value),
        Command::ResetConsole(name) => BoardKeys::Console(name.value),
        Command::Send(_, user) => BoardKeys::Addressed(user.value),
        Command::Log(_) => BoardKeys::Nothing,
        Command::Monitor => BoardKeys::Nothing,
        Command::StopMonitor => BoardKeys::Nothing,
        Command::Halt => BoardKeys::Nothing,
        Command::Logon(..) => BoardKeys::Nothing,
        Command::Logoff => BoardKeys::Nothing,
        // Displays load whole tables, not a footprint, and the caller never passes one.
        Command::DisplayUnits
        | Command::DisplayUnit(_)
        | Command::DisplayDevices
        | Command::DisplayConsoles
        | Command::DisplayReplies => unreachable!(),
    }
}

/// What an event names.
pub(crate) fn keys_of_event(event: &Event) -> BoardKeys
    ensures { (footprint : Footprint) → (b : BoardRows) → HasKeys footprint b result
        → IsFootprintOfEvent footprint b event.now }
{
    match event {
        Event::JobIn { name, .. } => BoardKeys::Unit(*name),
        Event::JobEnd(name) => BoardKeys::Leaving(*name),
        Event::Ask { id, .. } => BoardKeys::Reply(*id),
        Event::Attach(device) => BoardKeys::Device(*device),
        Event::Allocate { device, unit } => BoardKeys::Taken(*device, *unit),
        Event::Free(device) => BoardKeys::Device(*device),
        Event::Resume => BoardKeys::Nothing,
    }
}
