//! The commands `opcmds explain`, `opcmds who` and `opcmds may`, as `clap` reads them.
ghost use Rattle.std.specs.Prelude.{IfOk, [], ◌∷◌, codes};
ghost use Rattle.opc_cli_words.specs.CommandLine.{
  IsCommand,
  explain_options,
  may_options,
  needed,
  question_options,
  who_options,
};

use crate::command_line::{
    DATABASE_FILE, POLICY_FILE, command, flag, needed, positional, preset, value,
};
use clap::Command;
use std::alloc::{AllocError, Global};

/// The command with the options for the subject of a question, and for its console.
fn with_question<'a>(alloc: Global, asking: Command<'a>) -> Result<Command<'a>, AllocError>
    ensures explain { IfOk result (λ built. IsCommand asking.entry (codes "explain") (needed (codes "user") ∷ [])
        → IsCommand built (codes "explain") (needed (codes "user") ∷ question_options)) }
    ensures who { IfOk result (λ built. IsCommand asking.entry (codes "who") []
        → IsCommand built (codes "who") question_options) }
{
    asking
        .arg(value(alloc, "command", "TEXT", "The command, as it is typed"))?
        .arg(value(
            alloc,
            "as",
            "UNIT",
            "What the unit is that it names: JOB, TSU,\n\
             or STC:MEMBER; without this what the board\n\
             of --db has, or else a job",
        ))?
        .arg(value(
            alloc,
            "resource",
            "RESOURCE",
            "The resource, in place of a command",
        ))?
        .arg(value(
            alloc,
            "level",
            "LEVEL",
            "The level that is needed on it:\n\
             NONE, READ, UPDATE, CONTROL or ALTER",
        ))?
        .arg(preset(
            alloc,
            "class",
            "CLASS",
            "The class of the resource:\n\
             OPERCMDS or CONSOLE",
            "OPERCMDS",
        ))?
        .arg(value(
            alloc,
            "console",
            "CONSOLE",
            "The console at which they act; entries for\n\
             one console alone count there",
        ))?
        .arg(flag(alloc, "json", "Answers in JSON, an object a line"))
}

/// The command `explain` before the options that it shares with `who`.
fn explain_alone<'a>(alloc: Global) -> Result<Command<'a>, AllocError>
    ensures { IfOk result (λ built. IsCommand built (codes "explain") (needed (codes "user") ∷ [])) }
{
    command(
        alloc,
        "explain",
        "Says which profile decides for a user, by a policy",
        "opcmds explain --user USER (--command TEXT | --resource R --level L)\n\
         \x20                     [OPTIONS] [FILE]",
        "Examples: opcmds explain --user ANNA --command 'C PAYROLL' --console C1 \\\n\
         \x20             --why --db gate.db\n\
         \x20         opcmds explain --user ANNA --resource MVS.CANCEL.JOB.PAYROLL \\\n\
         \x20             --level UPDATE policy.csv\n\
         Status: 0 allowed or undecided, 1 refused, 2 invalid arguments or policy file,\n\
         \x20       3 out of memory or a failed device",
    )
    .arg(needed(
        alloc,
        "user",
        "USER",
        "The user; - is nobody, with --command and\n\
         --console",
    ))
}

pub(crate) fn explain_command<'a>(alloc: Global) -> Result<Command<'a>, AllocError>
    ensures { IfOk result (λ built. IsCommand built (codes "explain") explain_options) }
{
    with_question(alloc, explain_alone(alloc)?)?
        .arg(flag(
            alloc,
            "why",
            "Shows behind each pattern which level the user\n\
             holds in its profile, and from where",
        ))?
        .arg(value(alloc, "policy", "FILE", POLICY_FILE))?
        .arg(value(alloc, "db", "FILE", DATABASE_FILE))?
        .arg(positional(alloc, "file", "FILE", POLICY_FILE))
}

/// The command `who` before its options.
fn who_alone<'a>(alloc: Global) -> Command<'a>
    ensures { IsCommand result (codes "who") [] }
{
    command(
        alloc,
        "who",
        "Says who may enter a command, or holds a level, by a policy",
        "opcmds who (--command TEXT | --resource R --level L) [OPTIONS] [FILE]",
        "Each user has a line, and so has each unattended console.\n\
         \n\
         Example: opcmds who --command 'C PAYROLL' policy.csv\n\
         Status: 0 answered, 1 refused, 2 invalid arguments or policy file,\n\
         \x20       3 out of memory or a failed device",
    )
}

pub(crate) fn who_command<'a>(alloc: Global) -> Result<Command<'a>, AllocError>
    ensures { IfOk result (λ built. IsCommand built (codes "who") who_options) }
{
    with_question(alloc, who_alone(alloc))?
        .arg(flag(alloc, "allowed", "Shows those alone who may"))?
        .arg(value(alloc, "policy", "FILE", POLICY_FILE))?
        .arg(value(alloc, "db", "FILE", DATABASE_FILE))?
        .arg(positional(alloc, "file", "FILE", POLICY_FILE))
}

/// The command `may` before its options.
fn may_alone<'a>(alloc: Global) -> Command<'a>
    ensures { IsCommand result (codes "may") [] }
{
    command(
        alloc,
        "may",
        "Says what a user may do, by a policy",
        "opcmds may --user USER [OPTIONS] [FILE]",
        "Shows where the user may log on, what each profile that decides lets the user\n\
         enter, and what of the policy the user may change or see.\n\
         \n\
         Example: opcmds may --user ANNA policy.csv\n\
         Status: 0 answered, 1 refused, 2 invalid arguments or policy file,\n\
         \x20       3 out of memory or a failed device",
    )
}

pub(crate) fn may_command<'a>(alloc: Global) -> Result<Command<'a>, AllocError>
    ensures { IfOk result (λ built. IsCommand built (codes "may") may_options) }
{
    may_alone(alloc)
        .arg(needed(alloc, "user", "USER", "The user who is asked about"))?
        .arg(value(
            alloc,
            "console",
            "CONSOLE",
            "The one console at which the user acts; entries\n\
             for it alone count there",
        ))?
        .arg(flag(alloc, "allowed", "Shows only what the user may"))?
        .arg(flag(alloc, "json", "Answers in JSON, an object a line"))?
        .arg(value(alloc, "policy", "FILE", POLICY_FILE))?
        .arg(value(alloc, "db", "FILE", DATABASE_FILE))?
        .arg(positional(alloc, "file", "FILE", POLICY_FILE))
}
