//! A gate, what it begins with, and exchanges with it.
use crate::trials;
use anyhow::{Context, Result, bail};
use opc_cli_failures::status::Status;
use opc_cli_script::run::run_script;
use opc_gate::gate::Gate;
use opc_http::{LinkFault, Served, exchange};
use opc_http_requests::routes::Routes;
use opc_import::fault::ImportFault;
use opc_import::read::read_policy;
use opc_io::watched::Watched;
use opc_io_failing::reader::FailingReader;
use opc_io_failing::writer::FailingWriter;
use opc_state::tables::Tables;
use opc_state_cache::cached::Cached;
use opc_terms::fault::Fault;
use std::alloc::Global;

const HEADER: &str = "kind,class,name,id,value,owner,flags,digest,when,restricted\n";

/// What ends the program if a request is aborted.
pub(crate) const ABORTED: &str = "the tables failed, or out of memory";

/// The most rows of the account that are counted.
const MOST_ROWS: u32 = 1000;

/// The routes, a gate, and what the next gate begins with: a policy file, and a script.
#[derive(Drop)]
pub struct TrialRoom<T: Tables + Drop> {
    routes: Routes,
    gate: Option<Gate<Cached<T>>>,
    policy: String,
    beginning: String,
}

/// The outcome of an exchange, in words, and the bytes that were written.
#[derive(Drop)]
pub(crate) struct TrialExchange {
    pub(crate) words: String,
    pub(crate) written: Vec<u8>,
}

impl TrialExchange {
    /// The outcome of this exchange, which wrote these bytes.
    pub(crate) fn of(
        alloc: Global,
        outcome: Result<Served, LinkFault>,
        written: Vec<u8>,
    ) -> Result<Self> {
        Ok(TrialExchange {
            words: words_of(alloc, outcome)?,
            written,
        })
    }
}

fn gate_over<T: Tables + Drop>(alloc: Global, tables: T) -> Result<Gate<Cached<T>>> {
    match Gate::new(alloc, tables) {
        Ok(gate) => Ok(gate),
        Err((fault, _tables)) => aborted(fault),
    }
}

impl<T: Tables + Drop> TrialRoom<T> {
    /// No gate yet, and nothing to begin with.
    pub fn new(alloc: Global) -> Result<Self> {
        Ok(TrialRoom {
            routes: routes(alloc)?,
            gate: None,
            policy: String::from_str(alloc, HEADER)?,
            beginning: String::new(alloc),
        })
    }

    /// A new gate over these tables, which takes the first policy and runs the script of the beginning.
    pub fn begin(&mut self, alloc: Global, tables: T) -> Result<String> {
        let mut gate = gate_over(alloc, tables)?;
        let rows = match read_policy(alloc, self.policy.as_str()) {
            Ok(rows) => rows,
            Err(ImportFault::NoMemory) => bail!("out of memory"),
            Err(_) => bail!("no policy"),
        };
        if let Err(fault) = gate.bootstrap(alloc, rows.as_slice()) {
            return aborted(fault);
        }
        let printed = ran(alloc, &mut gate, self.beginning.as_str())?;
        self.gate = Some(gate);
        Ok(printed)
    }

    /// The outcome of a line.
    pub fn answer(&mut self, alloc: Global, line: &str) -> Result<String> {
        let (word, rest) = line.split_once(' ').unwrap_or((line, ""));
        match word {
            "row" => {
                add_line(&mut self.policy, rest)?;
                Ok(String::new(alloc))
            }
            "begin" => {
                add_line(&mut self.beginning, rest)?;
                Ok(String::new(alloc))
            }
            "script" => self.script(alloc, rest),
            "many" => self.script(alloc, many(alloc, rest)?.as_str()),
            "cached" => Ok(format!(in alloc; "{}\n", self.cached()?)?),
            "rows" => Ok(format!(in alloc; "{}\n", self.account_length(alloc)?)?),
            _ => trials::exchanged(alloc, self, word.parse::<u64>()?, rest),
        }
    }

    fn script(&mut self, alloc: Global, lines: &str) -> Result<String> {
        ran(alloc, self.gate.as_mut().context("no gate")?, lines)
    }

    fn cached(&self) -> Result<u32> {
        Ok(self.gate.as_ref().context("no gate")?.cached())
    }

    /// How many rows the account has, up to `MOST_ROWS`. The gate goes on with an empty cache.
    pub(crate) fn account_length(&mut self, alloc: Global) -> Result<usize> {
        let gate = self.gate.take().context("no gate")?;
        let mut tables = gate.into_store();
        let rows = tables.account(alloc, 1, MOST_ROWS);
        self.gate = Some(gate_over(alloc, tables)?);
        match rows {
            Ok(rows) => Ok(rows.len()),
            Err(fault) => aborted(Fault::from(fault)),
        }
    }

    /// One exchange with the gate: what it returns, and the bytes that were written.
    pub(crate) fn tried(
        &mut self,
        alloc: Global,
        moment: u64,
        reader: FailingReader<'_>,
        writer: FailingWriter,
    ) -> Result<(Result<Served, LinkFault>, Vec<u8>)> {
        let mut source = Watched::new(reader);
        let mut sink = Watched::new(writer);
        let gate = self.gate.as_mut().context("no gate")?;
        let outcome = exchange(alloc, &self.routes, &mut source, &mut sink, gate, moment);
        let writer = sink.inner;
        if writer.lacks_memory {
            bail!("out of memory");
        }
        Ok((outcome, writer.bytes))
    }

    /// One exchange with the gate, in words. If an allocation fails, it is an error.
    pub(crate) fn exchange(
        &mut self,
        alloc: Global,
        moment: u64,
        reader: FailingReader<'_>,
        writer: FailingWriter,
    ) -> Result<TrialExchange> {
        let (outcome, written) = self.tried(alloc, moment, reader, writer)?;
        TrialExchange::of(alloc, outcome, written)
    }
}

/// What an exchange returns, in words.
fn words_of(alloc: Global, outcome: Result<Served, LinkFault>) -> Result<String> {
    let (what, handled) = match outcome {
        Ok(Served { status: 500, .. }) => bail!(ABORTED),
        Ok(served) => (served.status.to_string(alloc)?, served.handled),
        Err(LinkFault::Read) => (String::from_str(alloc, "Read")?, false),
        Err(LinkFault::Write { handled }) => (String::from_str(alloc, "Write")?, handled),
        Err(LinkFault::NoMemory { .. }) => bail!("out of memory"),
    };
    let handled = if handled { "handled" } else { "not handled" };
    Ok(format!(in alloc; "{what} {handled}")?)
}

/// How a gate answers the lines of a script.
fn ran<T: Tables + Drop>(alloc: Global, gate: &mut Gate<Cached<T>>, lines: &str) -> Result<String> {
    let mut printed = Watched::new(Vec::new(alloc));
    match run_script(gate, alloc, lines, &mut printed) {
        Ok(Status::Failed) => bail!(ABORTED),
        Ok(_) => Ok(String::from_utf8(printed.inner)?),
        Err(fault) => bail!("no script: {fault}"),
    }
}

/// A line for each number of a range.
fn many(alloc: Global, words: &str) -> Result<String> {
    let (from, rest) = words.split_once(' ').context("no range")?;
    let (to, line) = rest.split_once(' ').context("no range")?;
    let mut lines = String::new(alloc);
    for number in from.parse::<u32>()?..to.parse::<u32>()? {
        let number = format!(in alloc; "{number}")?;
        add_line(
            &mut lines,
            line.replace(alloc, "#", number.as_str())?.as_str(),
        )?;
    }
    Ok(lines)
}

fn routes(alloc: Global) -> Result<Routes> {
    match Routes::new(alloc) {
        Ok(routes) => Ok(routes),
        Err(_) => bail!("out of memory"),
    }
}

fn add_line(text: &mut String, line: &str) -> Result<()> {
    text.push_str(line)?;
    text.push('\n')?;
    Ok(())
}

/// A failed allocation, or a fault of the tables: the end of the program.
fn aborted<T: Drop>(fault: Fault) -> Result<T> {
    match fault {
        Fault::NoMemory => bail!("out of memory"),
        fault => bail!("{fault}"),
    }
}
