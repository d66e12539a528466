//! The command `opcmds account`, as `clap` reads it.
ghost use Rattle.std.specs.Prelude.{IfOk, [], codes};
ghost use Rattle.opc_cli_words.specs.CommandLine.{IsCommand, account_options, row_options};

use crate::command_line::{command, flag, needed, value};
use clap::Command;
use std::alloc::{AllocError, Global};

/// The command `account` before its options.
fn account_alone<'a>(alloc: Global) -> Command<'a>
    ensures { IsCommand result (codes "account") [] }
{
    command(
        alloc,
        "account",
        "Shows the account of a database file: the audit log",
        "opcmds account --db FILE [OPTIONS]",
        "It has each refusal, and each command that only a warning let pass. Neither\n\
         the file nor its log is made or changed. T is a time with its offset from UTC,\n\
         as 2026-11-27T08:00:00Z, a day in UTC, as 2026-11-27, @ and its seconds since\n\
         1970, or how long ago, in s, m, h or d: -8h is eight hours ago.\n\
         \n\
         Examples: opcmds account --db gate.db --last 1000 --user ANNA --code 'E2*'\n\
         \x20         opcmds account --db gate.db --since -8h\n\
         Status: 0 done, 2 invalid arguments, 3 out of memory or a failed device",
    )
}

/// With the options that state which rows are looked at, and how many are shown.
fn with_rows<'a>(alloc: Global) -> Result<Command<'a>, AllocError>
    ensures { IfOk result (λ built. IsCommand built (codes "account") row_options) }
{
    account_alone(alloc)
        .arg(needed(alloc, "db", "FILE", "The database file"))?
        .arg(value(
            alloc,
            "from",
            "NUMBER",
            "The number of the first row that is looked at;\n\
             1 without this",
        ))?
        .arg(value(
            alloc,
            "last",
            "NUMBER",
            "In place of --from: looks at this many rows,\n\
             the last ones",
        ))?
        .arg(value(
            alloc,
            "count",
            "NUMBER",
            "How many rows are shown at most; all without\n\
             this",
        ))
}

pub(crate) fn account_command<'a>(alloc: Global) -> Result<Command<'a>, AllocError>
    ensures { IfOk result (λ built. IsCommand built (codes "account") account_options) }
{
    with_rows(alloc)?
        .arg(value(
            alloc,
            "since",
            "T",
            "Rows of this time or later; of a day from its\n\
             begin",
        ))?
        .arg(value(
            alloc,
            "until",
            "T",
            "Rows of this time or earlier; of a day to its\n\
             end",
        ))?
        .arg(value(alloc, "user", "USER", "Rows of this user; - is nobody"))?
        .arg(value(
            alloc,
            "console",
            "CONSOLE",
            "Rows of this console; * is that of events",
        ))?
        .arg(value(
            alloc,
            "code",
            "CODE",
            "Rows of these codes, as E20,E21; with a * at its\n\
             end a code is all that begin so, as E2*",
        ))?
        .arg(flag(
            alloc,
            "json",
            "Writes a JSON object for each row, in place of\n\
             columns",
        ))
}
