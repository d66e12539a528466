//! The operands of each verb.
ghost use Rattle.std.specs.Prelude.{◌≡◌};
ghost use Rattle.opc_reader.specs.Reading.{
  fixed,
  only,
  display,
  cancel,
  force,
  start,
  stop,
  modify,
  reply,
  vary_device,
  vary_console,
  vary,
  mount,
  unload,
  swap,
  reset,
  send,
  log,
  logon,
  command,
};

use crate::operand::{
    any_text, authority, last_name, name, number_prefix, quoted_prefix, quoted_text,
};
use crate::verb::Verb;
use opc_reader_commands::command::Command;
use opc_reader_commands::piece::Piece;

/// The command, if a piece is one word.
fn fixed<'a>(s: &Piece<'a>, word: &str, command: Command<'a>) -> Option<Command<'a>>
    ensures { result ≡ fixed word.now command.entry s.now }
{
    if s.folded().as_str() == word {
        Some(command)
    } else {
        None
    }
}

/// The command, if nothing is left.
fn only<'a>(s: &Piece<'a>, command: Command<'a>) -> Option<Command<'a>>
    ensures { result ≡ only command.entry s.now }
{
    if s.text().is_empty() {
        Some(command)
    } else {
        None
    }
}

#[tactic(auto, unfolding(crate::specs::Reading::display))]
fn display<'a>(s: &Piece<'a>) -> Option<Command<'a>>
    ensures { result ≡ display s.now }
{
    match s.folded().as_str() {
        "A,L" => Some(Command::DisplayUnits),
        "U" => Some(Command::DisplayDevices),
        "C" => Some(Command::DisplayConsoles),
        "R" => Some(Command::DisplayReplies),
        // The list of units comes first, so `D A,L` is never the unit L.
        _ => {
            let rest = s.word("A,")?;
            Some(Command::DisplayUnit(last_name(&rest)?))
        }
    }
}

#[tactic(auto, unfolding(crate::specs::Reading::cancel))]
fn cancel<'a>(s: &Piece<'a>) -> Option<Command<'a>>
    ensures { result ≡ cancel s.now }
{
    match s.word("U=") {
        Some(rest) => Some(Command::CancelUser(last_name(&rest)?)),
        None => Some(Command::Cancel(last_name(s)?)),
    }
}

#[tactic(auto, unfolding(crate::specs::Reading::force))]
fn force<'a>(s: &Piece<'a>) -> Option<Command<'a>>
    ensures { result ≡ force s.now }
{
    Some(Command::Force(last_name(s)?))
}

#[tactic(auto, unfolding(crate::specs::Reading::start))]
fn start<'a>(s: &Piece<'a>) -> Option<Command<'a>>
    ensures { result ≡ start s.now }
{
    let (member, rest) = name(s)?;
    match rest.word(".") {
        Some(rest) => Some(Command::StartAs(member, last_name(&rest)?)),
        None => only(&rest, Command::Start(member)),
    }
}

#[tactic(auto, unfolding(crate::specs::Reading::stop))]
fn stop<'a>(s: &Piece<'a>) -> Option<Command<'a>>
    ensures { result ≡ stop s.now }
{
    Some(Command::Stop(last_name(s)?))
}

#[tactic(auto, unfolding(crate::specs::Reading::modify))]
fn modify<'a>(s: &Piece<'a>) -> Option<Command<'a>>
    ensures { result ≡ modify s.now }
{
    let (unit, rest) = name(s)?;
    let text = any_text(rest.word(",")?)?;
    Some(Command::Modify(unit, text))
}

#[tactic(auto, unfolding(crate::specs::Reading::reply))]
fn reply<'a>(s: &Piece<'a>) -> Option<Command<'a>>
    ensures { result ≡ reply s.now }
{
    let (id, rest) = number_prefix(s)?;
    let text = any_text(rest.word(",")?)?;
    Some(Command::Reply(id, text))
}

#[tactic(auto, unfolding(crate::specs::Reading::vary_device))]
fn vary_device<'a>(s: &Piece<'a>) -> Option<Command<'a>>
    ensures { result ≡ vary_device s.now }
{
    let (device, rest) = name(s)?;
    match rest.folded().as_str() {
        ",ONLINE" => Some(Command::VaryDeviceOnline(device)),
        ",OFFLINE" => Some(Command::VaryDeviceOffline(device)),
        // A device takes no other word.
        _ => None,
    }
}

#[tactic(auto, unfolding(crate::specs::Reading::vary_console))]
fn vary_console<'a>(s: &Piece<'a>) -> Option<Command<'a>>
    ensures { result ≡ vary_console s.now }
{
    let (console, rest) = name(s)?;
    match rest.folded().as_str() {
        "),ONLINE" => Some(Command::VaryConsoleOnline(console)),
        "),OFFLINE" => Some(Command::VaryConsoleOffline(console)),
        // Only AUTH is left.
        _ => {
            let auth = authority(rest.word("),AUTH=")?)?;
            Some(Command::VaryConsoleAuth(console, auth))
        }
    }
}

#[tactic(auto, unfolding(crate::specs::Reading::vary))]
fn vary<'a>(s: &Piece<'a>) -> Option<Command<'a>>
    ensures { result ≡ vary s.now }
{
    match s.word("CN(") {
        Some(rest) => vary_console(&rest),
        None => vary_device(s),
    }
}

#[tactic(auto, unfolding(crate::specs::Reading::mount))]
fn mount<'a>(s: &Piece<'a>) -> Option<Command<'a>>
    ensures { result ≡ mount s.now }
{
    let (device, rest) = name(s)?;
    let volume = last_name(&rest.word(",VOL=")?)?;
    Some(Command::Mount(device, volume))
}

#[tactic(auto, unfolding(crate::specs::Reading::unload))]
fn unload<'a>(s: &Piece<'a>) -> Option<Command<'a>>
    ensures { result ≡ unload s.now }
{
    Some(Command::Unload(last_name(s)?))
}

#[tactic(auto, unfolding(crate::specs::Reading::swap))]
fn swap<'a>(s: &Piece<'a>) -> Option<Command<'a>>
    ensures { result ≡ swap s.now }
{
    let (from, rest) = name(s)?;
    let to = last_name(&rest.word(",")?)?;
    Some(Command::Swap(from, to))
}

#[tactic(auto, unfolding(crate::specs::Reading::reset))]
fn reset<'a>(s: &Piece<'a>) -> Option<Command<'a>>
    ensures { result ≡ reset s.now }
{
    let (console, rest) = name(&s.word("CN(")?)?;
    only(&rest.word(")")?, Command::ResetConsole(console))
}

#[tactic(auto, unfolding(crate::specs::Reading::send))]
fn send<'a>(s: &Piece<'a>) -> Option<Command<'a>>
    ensures { result ≡ send s.now }
{
    let (text, rest) = quoted_prefix(s)?;
    let (user, rest) = name(&rest.word(",USER=(")?)?;
    only(&rest.word(")")?, Command::Send(text, user))
}

#[tactic(auto, unfolding(crate::specs::Reading::log))]
fn log<'a>(s: Piece<'a>) -> Option<Command<'a>>
    ensures { result ≡ log s.entry }
{
    Some(Command::Log(quoted_text(s)?))
}

#[tactic(auto, unfolding(crate::specs::Reading::logon))]
fn logon<'a>(s: &Piece<'a>) -> Option<Command<'a>>
    ensures { result ≡ logon s.now }
{
    let (user, rest) = name(s)?;
    let password = last_name(&rest.word(",")?)?;
    Some(Command::Logon(user, password))
}

/// The command of a verb with these operands.
#[tactic(auto, unfolding(crate::specs::Reading::command))]
pub(crate) fn command<'a>(verb: Verb, s: Piece<'a>) -> Option<Command<'a>>
    ensures { result ≡ command verb s.entry }
{
    match verb {
        Verb::Display => display(&s),
        Verb::Cancel => cancel(&s),
        Verb::Force => force(&s),
        Verb::Start => start(&s),
        Verb::Stop => stop(&s),
        Verb::Modify => modify(&s),
        Verb::Reply => reply(&s),
        Verb::Vary => vary(&s),
        Verb::Mount => mount(&s),
        Verb::Unload => unload(&s),
        Verb::Swap => swap(&s),
        Verb::Reset => reset(&s),
        Verb::Send => send(&s),
        Verb::Log => log(s),
        Verb::Monitor => fixed(&s, "JOBNAMES", Command::Monitor),
        Verb::StopMonitor => fixed(&s, "JOBNAMES", Command::StopMonitor),
        Verb::Halt => fixed(&s, "EOD", Command::Halt),
        Verb::Logon => logon(&s),
        Verb::Logoff => only(&s, Command::Logoff),
    }
}
