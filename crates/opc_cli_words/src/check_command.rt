//! The command `opcmds check`, as `clap` reads it.
ghost use Rattle.std.specs.Prelude.{IfOk, codes};
ghost use Rattle.opc_cli_words.specs.CommandLine.{IsCommand, check_options};

use crate::command_line::{DATABASE_FILE, POLICY_FILE, command, flag, positional, value};
use clap::Command;
use std::alloc::{AllocError, Global};

pub(crate) fn check_command<'a>(alloc: Global) -> Result<Command<'a>, AllocError>
    ensures { IfOk result (λ built. IsCommand built (codes "check") check_options) }
{
    command(
        alloc,
        "check",
        "Says what is wrong with a policy",
        "opcmds check [OPTIONS] [FILE]",
        "Shows each invalid row; or else each that loading the policy would refuse;\n\
         or else notes on what may be a mistake.\n\
         \n\
         Example: opcmds check policy.csv\n\
         Status: 0 nothing is wrong, 1 notes, 2 invalid arguments or rows,\n\
         \x20       3 out of memory or a failed device",
    )
    .arg(value(alloc, "policy", "FILE", POLICY_FILE))?
    .arg(value(alloc, "db", "FILE", DATABASE_FILE))?
    .arg(positional(alloc, "file", "FILE", POLICY_FILE))?
    .arg(value(
        alloc,
        "allow",
        "CODES",
        "The codes of notes that are left out, as N08,N09",
    ))?
    .arg(flag(alloc, "json", "Writes each line as an object of JSON"))
}
