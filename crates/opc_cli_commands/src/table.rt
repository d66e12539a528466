//! The table of commands.
ghost use Rattle.std.specs.Prelude.{◌≡◌, IfOk, map, string_bytes};
ghost use Rattle.opc_cli_commands.specs.Commands.{
  AreAscii,
  AreShort,
  console_forms,
  device_forms,
  display_forms,
  form_of,
  table_text,
  unit_forms,
};

use crate::form::CommandForm::{self, Plain, Session, StartedTask, Such};
use crate::row::push_rows;
use std::alloc::{AllocError, Global};

const HEADER: &str = "COMMAND               GROUP  LEVEL   RESOURCE\n";

/// Displays.
pub(crate) fn display_forms() -> [CommandForm; 5]
    ensures forms { map form_of result ≡ display_forms }
    ensures ascii { AreAscii result }
    ensures short { AreShort result }
{
    [
        Plain("D A,L"),
        Plain("D A,name"),
        Plain("D U"),
        Plain("D C"),
        Plain("D R"),
    ]
}

/// Commands on units, and the answer to one.
pub(crate) fn unit_forms() -> [CommandForm; 13]
    ensures forms { map form_of result ≡ unit_forms }
    ensures ascii { AreAscii result }
    ensures short { AreShort result }
{
    [
        Plain("C name"),
        StartedTask("C name"),
        Plain("C U=user"),
        Plain("FORCE name"),
        StartedTask("FORCE name"),
        Session("FORCE name"),
        Plain("S member"),
        Plain("S member.id"),
        Plain("P name"),
        StartedTask("P name"),
        Plain("F name,text"),
        StartedTask("F name,text"),
        Such("R id,text", "R 1,text"),
    ]
}

/// Commands on devices.
pub(crate) fn device_forms() -> [CommandForm; 5]
    ensures forms { map form_of result ≡ device_forms }
    ensures ascii { AreAscii result }
    ensures short { AreShort result }
{
    [
        Such("V dev,ONLINE", "V 0A80,ONLINE"),
        Such("V dev,OFFLINE", "V 0A80,OFFLINE"),
        Such("M dev,VOL=vol", "M 0A80,VOL=vol"),
        Such("U dev", "U 0A80"),
        Such("G dev,dev", "G 0A80,0A81"),
    ]
}

/// Commands on consoles, messages, the end of the day, and logging on and off.
pub(crate) fn console_forms() -> [CommandForm; 11]
    ensures forms { map form_of result ≡ console_forms }
    ensures ascii { AreAscii result }
    ensures short { AreShort result }
{
    [
        Plain("V CN(name),ONLINE"),
        Plain("V CN(name),OFFLINE"),
        Such("V CN(name),AUTH=auth", "V CN(name),AUTH=ALL"),
        Plain("E CN(name)"),
        Plain("SE 'text',USER=(user)"),
        Plain("L 'text'"),
        Plain("MN JOBNAMES"),
        Plain("PM JOBNAMES"),
        Plain("Z EOD"),
        Plain("LOGON user,password"),
        Plain("LOGOFF"),
    ]
}

/// The whole table.
pub fn table_text(alloc: Global) -> Result<String, AllocError>
    ensures { IfOk result (λ text. string_bytes text ≡ table_text) }
{
    let mut text = String::from_str(alloc, HEADER)?;
    push_rows(alloc, &mut text, &display_forms())?;
    push_rows(alloc, &mut text, &unit_forms())?;
    push_rows(alloc, &mut text, &device_forms())?;
    push_rows(alloc, &mut text, &console_forms())?;
    Ok(text)
}
