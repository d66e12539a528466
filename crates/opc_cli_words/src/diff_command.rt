//! The command `opcmds diff`, as `clap` reads it.
ghost use Rattle.std.specs.Prelude.{◌≡◌, IfOk, codes, false};
ghost use Rattle.clap.specs.Walk.{rule_of};
ghost use Rattle.opc_cli_words.specs.CommandLine.{IsCommand, diff_options, needed_positional};

use crate::command_line::{command, flag, positional};
use clap::{Arg, Command};
use std::alloc::{AllocError, Global};

/// A positional argument that is required.
fn needed_positional<'a>(alloc: Global, name: &'a str, shown: &'a str, help: &'a str) -> Arg<'a>
    ensures rule { rule_of result ≡ needed_positional name.entry.now }
    ensures alone { result.global ≡ false }
{
    positional(alloc, name, shown, help).required(true)
}

pub(crate) fn diff_command<'a>(alloc: Global) -> Result<Command<'a>, AllocError>
    ensures { IfOk result (λ built. IsCommand built (codes "diff") diff_options) }
{
    command(
        alloc,
        "diff",
        "Says what changes from one policy to another",
        "opcmds diff OLD NEW [OPTIONS]",
        "Shows each row that differs, and who may more or less by that.\n\
         While serve has a database open, give current.csv of its --policies.\n\
         \n\
         Examples: opcmds diff policy.csv day.csv\n\
         \x20         opcmds diff db:gate.db day.csv\n\
         Status: 0 no row differs, 1 rows differ, 2 invalid arguments or policy file,\n\
         \x20       3 out of memory or a failed device",
    )
    .arg(needed_positional(
        alloc,
        "old",
        "OLD",
        "The policy file, or the database as db:FILE,\n\
         before the change",
    ))?
    .arg(needed_positional(alloc, "new", "NEW", "The same after it"))?
    .arg(flag(alloc, "json", "Answers in JSON, an object a line"))
}
