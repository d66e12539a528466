//! Commands as they were typed.
ghost use Rattle.std.proofs.Common.{lit≤};
ghost use Rattle.opc_names.specs.Names.{user_rule};

use crate::piece::Piece;
use opc_names::auth::Auth;
use opc_names::name::{ConsoleName, Device, Name, NameKind, UnitName, UserId, Volume};
use opc_names::reply_id::ReplyId;
use opc_names::rule::{Alphabet, NameRule};

/// The kind of a password.
pub struct PasswordKind;

impl NameKind<8> for PasswordKind {
    ghost rule = { user_rule };

    ghost short = { lit≤ tt };

    ghost small = { lit≤ tt };

    fn rule() -> NameRule {
        NameRule {
            least: 1,
            most: 8,
            alphabet: Alphabet::NameCharacters,
        }
    }
}

/// A password as it was typed at LOGON, in upper case: 1 to 8 name characters, kept in place, by the rule of a
/// user's id.
pub type Password = Name<PasswordKind, 8>;

/// What an operand means, in upper case if it is a name, and how it was typed.
#[derive(Debug, Drop)]
pub struct Operand<'a, T> {
    pub value: T,
    pub typed: Piece<'a>,
}

/// A text as it was typed: quoted, with its apostrophes, or plain.
#[derive(Debug, Drop)]
pub struct Text<'a> {
    pub typed: Piece<'a>,
}

/// A command as it was typed (MVS System Commands).
#[derive(Debug, Drop)]
pub enum Command<'a> {
    /// `D A,L`: the list of units.
    DisplayUnits,
    /// `D A,name`: one unit.
    DisplayUnit(Operand<'a, UnitName>),
    /// `D U`: devices.
    DisplayDevices,
    /// `D C`: consoles.
    DisplayConsoles,
    /// `D R`: open replies.
    DisplayReplies,
    /// `C name`: a job or a started task.
    Cancel(Operand<'a, UnitName>),
    /// `C U=user`: a user's session.
    CancelUser(Operand<'a, UserId>),
    /// `FORCE name`: a unit that C does not end.
    Force(Operand<'a, UnitName>),
    /// `S member`: a started task under its member's name.
    Start(Operand<'a, UnitName>),
    /// `S member.id`: a started task under a name of its own.
    StartAs(Operand<'a, UnitName>, Operand<'a, UnitName>),
    /// `P name`: a unit is to stop.
    Stop(Operand<'a, UnitName>),
    /// `F name,text`: a text for a unit.
    Modify(Operand<'a, UnitName>, Text<'a>),
    /// `R id,text`: the answer to an open reply.
    Reply(Operand<'a, ReplyId>, Text<'a>),
    /// `V dev,ONLINE`.
    VaryDeviceOnline(Operand<'a, Device>),
    /// `V dev,OFFLINE`.
    VaryDeviceOffline(Operand<'a, Device>),
    /// `V CN(name),ONLINE`.
    VaryConsoleOnline(Operand<'a, ConsoleName>),
    /// `V CN(name),OFFLINE`.
    VaryConsoleOffline(Operand<'a, ConsoleName>),
    /// `V CN(name),AUTH=auth`: the console's authority from now on.
    VaryConsoleAuth(Operand<'a, ConsoleName>, Operand<'a, Auth>),
    /// `M dev,VOL=vol`: mounts a volume on a device.
    Mount(Operand<'a, Device>, Operand<'a, Volume>),
    /// `U dev`: removes the volume from a device.
    Unload(Operand<'a, Device>),
    /// `G from,to`: moves a volume from one device to another.
    Swap(Operand<'a, Device>, Operand<'a, Device>),
    /// `E CN(name)`: logs the user off a console.
    ResetConsole(Operand<'a, ConsoleName>),
    /// `SE 'text',USER=(user)`: a message for a user.
    Send(Text<'a>, Operand<'a, UserId>),
    /// `L 'text'`: a line for the log.
    Log(Text<'a>),
    /// `MN JOBNAMES`: the console shows job messages.
    Monitor,
    /// `PM JOBNAMES`: the console no longer does.
    StopMonitor,
    /// `Z EOD`: the end of the day.
    Halt,
    /// `LOGON user,password`.
    Logon(Operand<'a, UserId>, Operand<'a, Password>),
    /// `LOGOFF`.
    Logoff,
}
