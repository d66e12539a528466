//! Tables in memory, a gate over such tables, and what each line does to them.
use crate::disks;
use crate::memory::Fresh;
use crate::searches::searched;
use anyhow::{Context, Result};
use opc_http_trials::room::TrialRoom;
use opc_state::change::Edit;
use opc_store_trials::edits::{after_each, committed, edit_in, fill, many};
use opc_store_trials::loads::loaded;
use opc_store_trials::records::HEADER;
use std::alloc::Global;
use std::mem;

/// Tables, the base policy, the edits of the next change, the statements of older tables, and exchanges with a gate.
#[derive(Drop)]
pub struct StoreRoom<T: Fresh> {
    tables: Option<T>,
    base: String,
    edits: Vec<Edit>,
    older: String,
    exchanges: TrialRoom<T>,
}

impl<T: Fresh> StoreRoom<T> {
    /// No tables yet, and the head of a policy file.
    pub fn new(alloc: Global) -> Result<Self> {
        Ok(StoreRoom {
            tables: None,
            base: String::from_str(alloc, HEADER)?,
            edits: Vec::new(alloc),
            older: String::new(alloc),
            exchanges: TrialRoom::new(alloc)?,
        })
    }

    /// The outcome of a line.
    pub fn answer(&mut self, alloc: Global, line: &str) -> Result<String> {
        let (verb, words) = line.split_once(' ').unwrap_or((line, ""));
        match verb {
            "" | "#" => Ok(String::new(alloc)),
            "commit" | "each" | "load" | "search" => self.asked(alloc, verb, words),
            "disk" => disks::answer(alloc, self.older.as_str(), words),
            "http" => self.exchanged(alloc, words),
            _ => {
                self.gather(alloc, verb, words)?;
                Ok(String::new(alloc))
            }
        }
    }

    /// A line of which nothing is printed.
    fn gather(&mut self, alloc: Global, verb: &str, words: &str) -> Result<()> {
        match verb {
            "base" => add_line(&mut self.base, words)?,
            "older" => {
                let statement = words.replace(alloc, "\\n", "\n")?;
                add_line(&mut self.older, statement.as_str())?;
            }
            "new" => self.tables = Some(begun(alloc, words, self.base.as_str())?),
            "limit" => {
                let tables = self.tables.take().context("no tables")?;
                self.tables = Some(tables.limited(alloc, words.parse::<u64>()?)?);
            }
            "many" => many(alloc, &mut self.edits, words)?,
            _ => self.edits.push(edit_in(alloc, verb, words)?)?,
        }
        Ok(())
    }

    /// A line that the tables answer.
    fn asked(&mut self, alloc: Global, verb: &str, words: &str) -> Result<String> {
        let tables = self.tables.as_mut().context("no tables")?;
        match verb {
            "search" => return searched(alloc, tables, self.base.as_str(), words),
            "load" => return loaded(alloc, tables, words),
            _ => {}
        }
        let edits = mem::replace(&mut self.edits, Vec::new(alloc));
        if verb == "each" {
            after_each(alloc, tables, edits, words)
        } else {
            committed(alloc, tables, edits, words)
        }
    }

    /// A line about exchanges.
    fn exchanged(&mut self, alloc: Global, line: &str) -> Result<String> {
        match line {
            "new" => self.exchanges.begin(alloc, T::fresh(alloc)?),
            line => self.exchanges.answer(alloc, line),
        }
    }
}

/// The tables that a case begins with.
fn begun<T: Fresh>(alloc: Global, words: &str, base: &str) -> Result<T> {
    let mut tables = T::fresh(alloc)?;
    if words == "base" {
        fill(alloc, &mut tables, base)?;
    }
    Ok(tables)
}

fn add_line(text: &mut String, line: &str) -> Result<()> {
    text.push_str(line)?;
    text.push('\n')?;
    Ok(())
}
