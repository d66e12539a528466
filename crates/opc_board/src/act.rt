//! Commands and events on a board.
ghost use Rattle.std.specs.Prelude.{◌≡◌, ◌≢◌, IfErr, IfOk, IsSome, Err, OnErr, OnOk, true, false};
ghost use Rattle.opc_reader_commands.specs.Quotes.{text_value};
ghost use Rattle.opc_board.specs.declared.fault.BoardFault.TheVariants.{NoMemory};
ghost use Rattle.opc_board.specs.Invariants.{console_at, unit_at};
ghost use Rattle.opc_board.specs.Texts.{lines_of};
ghost use Rattle.opc_board.specs.Outcome.{ComesToOrNoMemory, done, done_with};
ghost use Rattle.opc_board.specs.Effect.{effect, event_effect, is_change, is_session_command};

use crate::board::Board;
use crate::event::Event;
use crate::fault::BoardFault;
use crate::line::{Line, console_lines, device_lines, lines_of, reply_lines, unit_lines};
use crate::replies::session_of;
use crate::text::KeptText;
use opc_names::name::{ConsoleName, UnitName};
use opc_reader_commands::command::{Command, Text};
use std::alloc::{AllocError, Global};

// What a text says, to be stored.
fn kept(alloc: Global, text: &Text<'_>) -> Result<KeptText, AllocError>
    ensures { IfOk result (λ kept. kept ≡ text_value text.now.typed.text) }
{
    Ok(KeptText::from(text.value(alloc)?))
}

impl Board {
    // The line of the unit of this name, if it is on the board.
    fn line_at(&self, alloc: Global, name: &UnitName) -> Result<Vec<Line>, AllocError>
        ensures { IfOk result (λ lines. lines.items ≡ lines_of (unit_at self.now name.now)) }
    {
        lines_of(alloc, self.rows.units.find(name))
    }

    /// Runs a command that is typed at a console of the board, and returns its lines in order, unfiltered. LOGON and
    /// LOGOFF are not the board's. After a fault, a failed allocation included, the board is as it was.
    pub fn act(
        &mut self,
        alloc: Global,
        command: &Command<'_>,
        console: &ConsoleName,
    ) -> Result<Vec<Line>, BoardFault>
        requires console { IsSome (console_at self.old console.now) }
        requires command { is_session_command command.now ≡ false }
        ensures done { IfOk result (λ lines. effect self.old command.now console.now ≡ done_with self.new lines.items) }
        ensures refused { IfErr result (λ fault. fault ≢ NoMemory
            → effect self.old command.now console.now ≡ Err fault) }
        ensures unchanged { OnErr result (self.new ≡ self.old) }
    {
        match command {
            Command::DisplayUnits => Ok(unit_lines(alloc, self.rows.units.as_slice())?),
            Command::DisplayUnit(name) => Ok(self.line_at(alloc, &name.value)?),
            Command::DisplayDevices => Ok(device_lines(alloc, self.rows.devices.as_slice())?),
            Command::DisplayConsoles => Ok(console_lines(alloc, self.rows.consoles.as_slice())?),
            Command::DisplayReplies => Ok(reply_lines(alloc, self.rows.replies.as_slice())?),
            Command::Reply(id, text) => self.reply(alloc, id.value, kept(alloc, text)?),
            // Logging on and off are calls of their own, and the caller never passes these commands.
            Command::Logon(..) | Command::Logoff => unreachable!(),
            // All others change the board or meet a fault, and give no lines.
            _ => {
                self.change(alloc, command, console)?;
                Ok(Vec::new(alloc))
            }
        }
    }

    // Runs a command that changes the board or meets a fault, and gives no lines.
    fn change(
        &mut self,
        alloc: Global,
        command: &Command<'_>,
        console: &ConsoleName,
    ) -> Result<(), BoardFault>
        requires console { IsSome (console_at self.old console.now) }
        requires command { is_change command.now ≡ true }
        ensures { ComesToOrNoMemory self.old self.new (effect self.old command.now console.now) result }
    {
        match command {
            Command::Cancel(name) => self.cancel(&name.value),
            Command::CancelUser(user) => self.cancel_user(&session_of(&user.value)),
            Command::Force(name) => self.force(&name.value),
            Command::Start(member) => self.start(member.value, member.value),
            Command::StartAs(member, id) => self.start(member.value, id.value),
            Command::Stop(name) => self.stop(&name.value),
            Command::Modify(name, text) => self.modify(&name.value, kept(alloc, text)?),
            Command::VaryDeviceOnline(device) => self.vary_online(&device.value),
            Command::VaryDeviceOffline(device) => self.vary_offline(&device.value),
            Command::VaryConsoleOnline(name) => self.vary_console_online(&name.value),
            Command::VaryConsoleOffline(name) => self.vary_console_offline(&name.value),
            Command::VaryConsoleAuth(name, auth) => self.vary_console_auth(&name.value, auth.value),
            Command::Mount(device, volume) => self.mount(&device.value, volume.value),
            Command::Unload(device) => self.unload(&device.value),
            Command::Swap(from, to) => self.swap(&from.value, &to.value),
            Command::ResetConsole(name) => self.reset_console(&name.value),
            Command::Send(text, user) => self.send(user.value, kept(alloc, text)?),
            Command::Log(text) => self.log_line(kept(alloc, text)?),
            Command::Monitor => {
                self.monitor(console, true);
                Ok(())
            }
            Command::StopMonitor => {
                self.monitor(console, false);
                Ok(())
            }
            Command::Halt => self.halt(),
            // `act` itself answers the commands that change nothing: displays, replies, LOGON and LOGOFF.
            _ => unreachable!(),
        }
    }

    /// Lets an event happen. After a fault, a failed allocation included, the board is as it was.
    pub fn event(&mut self, alloc: Global, event: &Event) -> Result<(), BoardFault>
        ensures done { OnOk result (event_effect self.old event.now ≡ done self.new) }
        ensures refused { IfErr result (λ fault. fault ≢ NoMemory → event_effect self.old event.now ≡ Err fault) }
        ensures unchanged { OnErr result (self.new ≡ self.old) }
    {
        match event {
            Event::JobIn {
                name,
                kind,
                cancelable,
            } => self.job_in(*name, *kind, *cancelable),
            Event::JobEnd(name) => self.job_end(name),
            Event::Ask { id, text } => self.ask(*id, KeptText::new(alloc, text.as_str())?),
            Event::Attach(device) => self.attach(*device),
            Event::Allocate { device, unit } => self.allocate(device, *unit),
            Event::Free(device) => self.free(device),
            Event::Resume => {
                self.resume();
                Ok(())
            }
        }
    }
}
