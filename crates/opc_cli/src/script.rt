//! A script over a gate, with the number with which a program ends.
ghost use Rattle.std.specs.Prelude.{◌≡◌};
ghost use Rattle.opc_cli_failures.specs.Statuses.{number_of};
ghost use Rattle.opc_cli.specs.Calls.{IsScript, status_of_script};

use opc_cli_failures::status::Status;
use opc_cli_script::run;
use opc_cli_script::script::ScriptFault;
use opc_gate::gate::Gate;
use opc_io::sink::Sink;
use opc_state::tables::Tables;
use std::alloc::Global;

/// Runs a script over a gate, and writes the transcript of its answers. The number is 0 if all is done, 1 if anything
/// was refused, 2 if a line is bad, which is reported, and nothing is run; and 3 if an allocation, the tables or the
/// output failed. This is for callers with a gate of their own: the program makes one over the tables that its
/// arguments name.
pub fn run_script<T: Tables, K: Sink>(
    alloc: Global,
    gate: &mut Gate<T>,
    script: &str,
    output: &mut K,
) -> u8
    ensures sure { T.meaning.is_sure gate.new → T.meaning.is_sure gate.old }
    ensures ran { IsScript T.meaning gate.old gate.new K.held K.has_failed script.now
        output.old output.new result }
{
    number_of(run::run_script(gate, alloc, script, output))
}

fn number_of(ran: Result<Status, ScriptFault>) -> u8
    ensures { result ≡ number_of (status_of_script ran) }
{
    match ran {
        Ok(status) => status.number(),
        Err(ScriptFault::BadLine(_)) => Status::BadInput.number(),
        Err(ScriptFault::NoMemory | ScriptFault::Output(_)) => Status::Failed.number(),
    }
}
