//! Scripts, read.
ghost use Rattle.std.specs.Prelude.{◌≡◌, ◌++◌, IfErr, IfOk, OnOk, None, false, map};
ghost use Rattle.std.specs.Option.{option_to_list};
ghost use Rattle.std.specs.Str.Lines.{lines};
ghost use Rattle.opc_cli_script.specs.Refusals.{IsLineUnread, IsUnread};
ghost use Rattle.opc_cli_script.specs.Scripts.{bad_line, is_bad, request_in, requests_in};

use crate::line::{is_blank, request_in};
use opc_gate::request::Request;
use std::alloc::{AllocError, AllocFailed, Global};
use std::io;
use thiserror::Error;

/// The most bytes of a script.
pub const SCRIPT_LIMIT: u32 = 1_048_576;

/// Why a script was not run to its end.
#[derive(Clone, Copy, Debug, Error)]
pub enum ScriptFault {
    /// The line with this number, from 1 on, is neither blank nor a request; 0 stands for a script that is too long or
    /// is not UTF-8. Nothing was run.
    #[error("bad line {0}")]
    BadLine(usize),
    #[error("no memory")]
    NoMemory,
    /// The output took no more.
    #[error("{0}")]
    Output(io::Error),
}

impl From<AllocError> for ScriptFault {
    ghost use Rattle.std.specs.Prelude.{◌≡◌};
    ghost use Rattle.opc_cli_script.specs.declared.script.ScriptFault.TheVariants.{NoMemory};

    ghost from_gives = { λ _ fault. fault ≡ NoMemory };

    fn from(_: AllocError) -> Self {
        ScriptFault::NoMemory
    }
}

impl<T: Drop> From<AllocFailed<T>> for ScriptFault {
    ghost use Rattle.std.specs.Prelude.{◌≡◌};
    ghost use Rattle.opc_cli_script.specs.declared.script.ScriptFault.TheVariants.{NoMemory};

    ghost from_gives = { λ _ fault. fault ≡ NoMemory };

    fn from(_: AllocFailed<T>) -> Self {
        ScriptFault::NoMemory
    }
}

impl From<io::Error> for ScriptFault {
    ghost use Rattle.std.specs.Prelude.{◌≡◌};
    ghost use Rattle.opc_cli_script.specs.declared.script.ScriptFault.TheVariants.{Output};

    ghost from_gives = { λ error fault. fault ≡ Output error };

    fn from(error: io::Error) -> Self {
        ScriptFault::Output(error)
    }
}

fn lines_of(alloc: Global, script: &str) -> Result<Vec<&str>, AllocError>
    ensures { IfOk result (λ v. map (λ line. line.now) v.items ≡ lines script.now) }
{
    script.lines().collect(alloc)
}

// Reads the line with this number: its request goes after those before it, unless it is blank.
#[tactic(auto, using(crate::proofs::Lines::blank_asks_nothing))]
fn read_line(
    alloc: Global,
    number: usize,
    line: &str,
    requests: &mut Vec<(u64, Request)>,
) -> Result<(), ScriptFault>
    ensures good { OnOk result (is_bad line.now ≡ false) }
    ensures request { OnOk result (requests.new.items ≡ requests.old.items ++ option_to_list (request_in line.now)) }
    ensures bad { IfErr result (IsLineUnread number line.now) }
{
    if is_blank(line) {
        return Ok(());
    }
    match request_in(alloc, line)? {
        Some(request) => Ok(requests.push(request)?),
        None => Err(ScriptFault::BadLine(number)),
    }
}

/// The requests of a script with their timestamps, or its first bad line, or a failed allocation.
pub(crate) fn requests_in(alloc: Global, script: &str) -> Result<Vec<(u64, Request)>, ScriptFault>
    ensures good { OnOk result (bad_line script.now ≡ None) }
    ensures requests { IfOk result (λ requests. requests.items ≡ requests_in script.now) }
    ensures bad { IfErr result (IsUnread script.now) }
{
    if script.len() > SCRIPT_LIMIT as usize {
        return Err(ScriptFault::BadLine(0));
    }
    let lines = lines_of(alloc, script)?;
    let mut requests = Vec::new(alloc);
    for (at, line) in lines.iter().enumerate() {
        read_line(alloc, at + 1, line, &mut requests)?;
    }
    Ok(requests)
}
