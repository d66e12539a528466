//! The command `opcmds decide`, as `clap` reads it.
ghost use Rattle.std.specs.Prelude.{IfOk, codes};
ghost use Rattle.opc_cli_words.specs.CommandLine.{IsCommand, decide_options};

use crate::command_line::{command, needed, value, with_clients};
use clap::Command;
use std::alloc::{AllocError, Global};

pub(crate) fn decide_command<'a>(alloc: Global) -> Result<Command<'a>, AllocError>
    ensures { IfOk result (λ built. IsCommand built (codes "decide") decide_options) }
{
    let decide = command(
        alloc,
        "decide",
        "Answers other programs by a policy file, over HTTP (AuthZEN 1.0)",
        "opcmds decide --policy FILE (--port NUMBER | --socket PATH) [OPTIONS]",
        "Prints LISTENING 127.0.0.1:PORT or LISTENING unix:PATH once it answers. It\n\
         reads FILE anew when the file was replaced, and writes no file.\n\
         \n\
         Example: opcmds decide --policy policy.csv --port 8012 --count 1 &\n\
         \x20        curl -s --retry 5 --retry-connrefused \\\n\
         \x20            http://127.0.0.1:8012/.well-known/authzen-configuration\n\
         Status: 0 all connections were served, 2 invalid arguments or policy file,\n\
         \x20       3 out of memory or a failed device",
    )
    .arg(needed(
        alloc,
        "policy",
        "FILE",
        "The policy file, as current.csv in the folder of\n\
         serve --policies",
    ))?;
    with_clients(alloc, decide)?.arg(value(
        alloc,
        "base",
        "URL",
        "The URL at which clients find it, if that is\n\
         not http://127.0.0.1:PORT",
    ))
}
