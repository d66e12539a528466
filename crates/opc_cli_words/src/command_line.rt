//! The command line, as `clap` reads it: the commands and the options of each.
ghost use Rattle.std.specs.Prelude.{◌≡◌, ◌∷◌, ℕ, List, IfOk, false, codes, []};
ghost use Rattle.clap.specs.Walk.{Rule, rule_of};
ghost use Rattle.clap.specs.Simple.{app_of};
ghost use Rattle.opc_cli_words.specs.CommandLine.{
  IsCommand,
  address_options,
  client_options,
  command_line,
  export_options,
  flag,
  import_options,
  needed,
  positional,
  preset,
  program,
  run_options,
  serve_options,
  valued,
};

use crate::account_command::account_command;
use crate::check_command::check_command;
use crate::decide_command::decide_command;
use crate::diff_command::diff_command;
use crate::question_commands::{explain_command, may_command, who_command};
use crate::sheet::sheet_command;
use crate::version::VERSION;
use clap::{Arg, ArgAction, Command};
use std::alloc::{AllocError, Global};

/// The help of a policy file by itself, and of `--policy` for questions about a policy.
pub(crate) const POLICY_FILE: &str = "The policy file, in place of standard input";

/// The help of `--db` there.
pub(crate) const DATABASE_FILE: &str = "The database file that is asked, in place of a\n\
     policy file; neither it nor its log is changed";

/// The help of `--db` if the file is opened.
const MADE_DATABASE: &str = "The database file, made if it is not there";

/// The help of a script by itself.
const SCRIPT_FILE: &str = "The script, in place of standard input";

/// What `opcmds` and its help print: the commands by what they are for. No line of it, or of any other help, is longer
/// than 78 columns.
const SCREEN: &str = "\
Decides from a written policy who may enter operator commands.

Usage: opcmds COMMAND [OPTIONS]

Ask a policy      who       who may enter a command
                  may       what one user may do
                  explain   why one user may, or may not
                  check     what is wrong with it
                  diff      what changes from one policy to another
                  sheet     a page of all that (HTML)
                  decide    answer programs that ask (AuthZEN)
Run a room        run       answer a script, or a terminal (--now)
                  serve     answer over HTTP or a Unix socket
                  account   show the audit log
Keep a policy     import    load a policy file, or a batch of rows
                  export    write the policy as a file
                  digest    make the digest of a password

opcmds commands lists what an operator may type, and what each command needs.
opcmds COMMAND --help has options, examples and statuses; man opcmds has all.
";

/// A positional argument.
pub(crate) fn positional<'a>(alloc: Global, name: &'a str, shown: &'a str, help: &'a str) -> Arg<'a>
    ensures rule { rule_of result ≡ positional name.entry.now }
    ensures alone { result.global ≡ false }
{
    Arg::new(alloc, name)
        .action(ArgAction::Set)
        .value_name(shown)
        .help(help)
}

/// An option that takes a value.
pub(crate) fn value<'a>(alloc: Global, name: &'a str, shown: &'a str, help: &'a str) -> Arg<'a>
    ensures rule { rule_of result ≡ valued name.entry.now }
    ensures alone { result.global ≡ false }
{
    positional(alloc, name, shown, help).long(name)
}

/// An option that is required.
pub(crate) fn needed<'a>(alloc: Global, name: &'a str, shown: &'a str, help: &'a str) -> Arg<'a>
    ensures rule { rule_of result ≡ needed name.entry.now }
    ensures alone { result.global ≡ false }
{
    value(alloc, name, shown, help).required(true)
}

/// An option that has a default value.
pub(crate) fn preset<'a>(
    alloc: Global,
    name: &'a str,
    shown: &'a str,
    help: &'a str,
    usual: &'a str,
) -> Arg<'a>
    ensures rule { rule_of result ≡ preset name.entry.now usual.entry.now }
    ensures alone { result.global ≡ false }
{
    value(alloc, name, shown, help).default_value(usual)
}

/// An option without a value.
pub(crate) fn flag<'a>(alloc: Global, name: &'a str, help: &'a str) -> Arg<'a>
    ensures rule { rule_of result ≡ flag name.entry.now }
    ensures alone { result.global ≡ false }
{
    Arg::new(alloc, name)
        .long(name)
        .action(ArgAction::SetTrue)
        .help(help)
}

/// A command with its help, and without an option.
pub(crate) fn command<'a>(
    alloc: Global,
    name: &'a str,
    about: &'a str,
    usage: &'a str,
    after: &'a str,
) -> Command<'a>
    ensures { IsCommand result name.entry.now [] }
{
    Command::new(alloc, name)
        .about(about)
        .override_usage(usage)
        .after_help(after)
}

/// The command `run` before its options.
fn run_alone<'a>(alloc: Global) -> Command<'a>
    ensures { IsCommand result (codes "run") [] }
{
    command(
        alloc,
        "run",
        "Answers the commands and events of a script, or of a terminal (--now)",
        "opcmds run [OPTIONS] [FILE]",
        "A line: TIME CONSOLE COMMAND, or TIME * EVENT. The time has 1 to 13\n\
         digits; with --now there is none. A script has at most 1,048,576 bytes.\n\
         \n\
         Examples: echo '1 C1 S MONPL' | opcmds run --policy policy.csv\n\
         \x20         opcmds run --now --console C1 --db gate.db\n\
         Status: 0 all done, 1 something refused, 2 invalid arguments, policy file or\n\
         \x20       line, 3 out of memory or a failed device",
    )
}

fn run_command<'a>(alloc: Global) -> Result<Command<'a>, AllocError>
    ensures { IfOk result (λ built. IsCommand built (codes "run") run_options) }
{
    run_alone(alloc)
        .arg(value(
            alloc,
            "db",
            "FILE",
            "The database file, made if it is not there;\n\
             in memory without this",
        ))?
        .arg(value(
            alloc,
            "policy",
            "FILE",
            "The first policy, for tables in which no user\n\
             is stored",
        ))?
        .arg(flag(
            alloc,
            "now",
            "Answers each line by the clock, before the next\n\
             is read",
        ))?
        .arg(value(
            alloc,
            "console",
            "CONSOLE",
            "With --now: each line is a command, typed at\n\
             this console",
        ))?
        .arg(value(
            alloc,
            "log",
            "FILE",
            "Adds a line for each request to this file:\n\
             when, where, who, what, and the outcome",
        ))?
        .arg(positional(alloc, "file", "FILE", SCRIPT_FILE))
}

fn import_command<'a>(alloc: Global) -> Result<Command<'a>, AllocError>
    ensures { IfOk result (λ built. IsCommand built (codes "import") import_options) }
{
    command(
        alloc,
        "import",
        "Loads a policy file into a database file, all its rows or none",
        "opcmds import --db FILE --batch NUMBER [OPTIONS] [FILE]",
        "A batch that is kept with equal rows changes nothing, however often it is\n\
         sent. A policy file has at most 16,777,216 bytes.\n\
         \n\
         Examples: opcmds import --db gate.db --batch 1 policy.csv\n\
         \x20         opcmds import --db gate.db --batch 7 --console C2 day.csv\n\
         Status: 0 done, 1 refused, 2 invalid arguments or policy file,\n\
         \x20       3 out of memory or a failed device",
    )
    .arg(needed(alloc, "db", "FILE", MADE_DATABASE))?
    .arg(needed(
        alloc,
        "batch",
        "NUMBER",
        "The number of the batch, 1 to 999,999,999",
    ))?
    .arg(value(
        alloc,
        "console",
        "CONSOLE",
        "The console to import at, as the user on there;\n\
         without it this is the first policy, and no\n\
         batch is kept",
    ))?
    .arg(flag(
        alloc,
        "dry-run",
        "Shows what would change, and imports nothing",
    ))?
    .arg(positional(alloc, "file", "FILE", POLICY_FILE))
}

fn export_command<'a>(alloc: Global) -> Result<Command<'a>, AllocError>
    ensures { IfOk result (λ built. IsCommand built (codes "export") export_options) }
{
    command(
        alloc,
        "export",
        "Writes the policy and the consoles of a database file as a policy file",
        "opcmds export --db FILE > POLICY",
        "Example: opcmds export --db gate.db > policy.csv\n\
         Status: 0 done, 2 invalid arguments, 3 out of memory or a failed device",
    )
    .arg(needed(alloc, "db", "FILE", "The database file"))
}

/// A command with the options that state where it listens, and what is refused there.
fn with_address<'a>(alloc: Global, command: Command<'a>) -> Result<Command<'a>, AllocError>
    ensures { IfOk result (λ built. (name : List ℕ) → (first : Rule) → IsCommand command.entry name (first ∷ [])
        → IsCommand built name (first ∷ address_options)) }
{
    command
        .arg(value(
            alloc,
            "port",
            "NUMBER",
            "The port of 127.0.0.1, or 0 for one that the\n\
             system chooses",
        ))?
        .arg(value(
            alloc,
            "socket",
            "PATH",
            "The path of a Unix socket, which is made; its\n\
             permissions say who can connect",
        ))?
        .arg(value(
            alloc,
            "socket-mode",
            "MODE",
            "The permissions of the socket: 600, 660 for its\n\
             group or 666 for everybody; 600 without this",
        ))?
        .arg(flag(
            alloc,
            "strict",
            "With --port: refuses each request that a web\n\
             page may have sent",
        ))
}

/// A command with the options that state which clients it serves, and how.
pub(crate) fn with_clients<'a>(
    alloc: Global,
    command: Command<'a>,
) -> Result<Command<'a>, AllocError>
    ensures { IfOk result (λ built. (name : List ℕ) → (first : Rule) → IsCommand command.entry name (first ∷ [])
        → IsCommand built name (first ∷ client_options)) }
{
    with_address(alloc, command)?
        .arg(preset(
            alloc,
            "count",
            "NUMBER",
            "How many connections are served",
            "1000000",
        ))?
        .arg(preset(
            alloc,
            "timeout",
            "SECONDS",
            "How long an exchange may take; with 0 as long\n\
             as it takes",
            "30",
        ))?
        .arg(flag(
            alloc,
            "log",
            "Writes a line for each exchange to standard\n\
             error: when, where, who, what, and the outcome",
        ))
}

fn serve_command<'a>(alloc: Global) -> Result<Command<'a>, AllocError>
    ensures { IfOk result (λ built. IsCommand built (codes "serve") serve_options) }
{
    let serve = command(
        alloc,
        "serve",
        "Answers requests over HTTP, at a port of 127.0.0.1 or a Unix socket",
        "opcmds serve --db FILE (--port NUMBER | --socket PATH) [OPTIONS]",
        "Prints LISTENING 127.0.0.1:PORT or LISTENING unix:PATH once it answers. It\n\
         serves one connection after another.\n\
         \n\
         Example: opcmds serve --db gate.db --port 8011 --count 1 &\n\
         \x20        curl -s --retry 5 --retry-connrefused -d '{\"text\":\"D U\"}' \\\n\
         \x20            http://127.0.0.1:8011/consoles/C1/command\n\
         Status: 0 all connections were served, 2 invalid arguments,\n\
         \x20       3 out of memory or a failed device",
    )
    .arg(needed(alloc, "db", "FILE", MADE_DATABASE))?;
    with_clients(alloc, serve)?.arg(value(
        alloc,
        "policies",
        "FOLDER",
        "Keeps the policy there as current.csv, and each\n\
         state of it under its time and its SHA-256",
    ))
}

fn digest_command<'a>(alloc: Global) -> Command<'a>
    ensures { IsCommand result (codes "digest") [] }
{
    command(
        alloc,
        "digest",
        "Makes the digest of a password, as a user's row in a policy file has it",
        "opcmds digest",
        "The password is a line of standard input: 1 to 8 of A to Z, 0 to 9, #, $\n\
         and @. It is read in capitals, as at LOGON.\n\
         \n\
         Example: printf ABC | opcmds digest\n\
         Status: 0 done, 2 invalid arguments or no password,\n\
         \x20       3 out of memory or a failed device",
    )
}

fn commands_command<'a>(alloc: Global) -> Command<'a>
    ensures { IsCommand result (codes "commands") [] }
{
    command(
        alloc,
        "commands",
        "Lists what an operator may type, and what each command needs",
        "opcmds commands",
        "A command needs the level on the resource, of class OPERCMDS. If no profile\n\
         decides, the authority of the console does, by the group. C, FORCE, P and F\n\
         have a row for a job, and more for a started task or a user's session if\n\
         the resource is another then.\n\
         \n\
         Example: opcmds commands | grep '^V '\n\
         Status: 0 done, 2 invalid arguments, 3 out of memory or a failed device",
    )
}

/// The program before its commands. The help names it as the documents do, whatever its file is called. With a version
/// `clap` takes `--version`; what is printed then is our own line.
fn program<'a>(alloc: Global) -> Command<'a>
    ensures { app_of result ≡ program }
{
    Command::new(alloc, "opcmds")
        .override_usage("opcmds COMMAND [OPTIONS]")
        .override_help(SCREEN)
        .version(VERSION)
        .arg_required_else_help(true)
        .subcommand_required(true)
        .no_binary_name(true)
}

/// The whole command line.
pub(crate) fn command_line<'a>(alloc: Global) -> Result<Command<'a>, AllocError>
    ensures { IfOk result (λ built. app_of built ≡ command_line) }
{
    program(alloc)
        .subcommand(explain_command(alloc)?)?
        .subcommand(run_command(alloc)?)?
        .subcommand(import_command(alloc)?)?
        .subcommand(export_command(alloc)?)?
        .subcommand(serve_command(alloc)?)?
        .subcommand(who_command(alloc)?)?
        .subcommand(check_command(alloc)?)?
        .subcommand(account_command(alloc)?)?
        .subcommand(digest_command(alloc))?
        .subcommand(commands_command(alloc))?
        .subcommand(may_command(alloc)?)?
        .subcommand(diff_command(alloc)?)?
        .subcommand(sheet_command(alloc)?)?
        .subcommand(decide_command(alloc)?)
}
