//! Where the lines of a run go.
ghost use Rattle.std.specs.Prelude.{◌≡◌, MatchResult, None};
ghost use Rattle.opc_cli_log.specs.RunLines.{logged};
ghost use Rattle.opc_cli_log.specs.RunLogs.{IsAdded, IsLineCut, IsLineWhole};

use crate::line::run_line;
use opc_cli_script::printer::write_bytes;
use opc_io::sink::Sink;
use opc_io::watched::Watched;
use opc_machine::request::{Answer, Request};
use opc_names::name::UserId;
use opc_terms::store_fault::StoreFault;
use std::alloc::Global;
use std::io;
use std::io::Write;

/// Where lines are added, and what failed, if a line could not be added as a whole. No further one is added then.
#[derive(Drop)]
pub struct RunLog<W> {
    pub output: Watched<W>,
    pub fault: Option<io::Error>,
}

impl<W> RunLog<W> {
    /// Nothing has failed yet.
    pub fn new(output: W) -> Self
        ensures output { result.output.inner ≡ output }
        ensures fine { result.fault ≡ None }
    {
        RunLog {
            output: Watched::new(output),
            fault: None,
        }
    }
}

/// Writes the line of a request.
fn write_line<K: Sink>(
    alloc: Global,
    output: &mut K,
    moment: u64,
    request: &Request,
    user: &Result<Option<UserId>, StoreFault>,
    answer: &Answer,
    row: &Result<Option<u64>, StoreFault>,
) -> io::Result<()>
    ensures { MatchResult result
        (λ _. IsLineWhole (logged moment request.now user.now answer.now row.now) (K.held output.old)
        (K.held output.new))
        (λ _. IsLineCut (logged moment request.now user.now answer.now row.now) (K.held output.old)
        (K.held output.new)) }
{
    let line = run_line(alloc, moment, request, user, answer, row)?;
    write_bytes(output, line.as_slice())
}

impl<W: Write> RunLog<W> {
    /// Adds the line of a request, unless one failed before.
    pub(crate) fn add(
        &mut self,
        alloc: Global,
        moment: u64,
        request: &Request,
        user: &Result<Option<UserId>, StoreFault>,
        answer: &Answer,
        row: &Result<Option<u64>, StoreFault>,
    )
        ensures { IsAdded W.contents (logged moment request.now user.now answer.now row.now) self.old self.new }
    {
        if self.fault.is_some() {
            return;
        }
        let output = &mut self.output;
        if let Err(error) = write_line(alloc, output, moment, request, user, answer, row) {
            self.fault = Some(error);
        }
    }
}
