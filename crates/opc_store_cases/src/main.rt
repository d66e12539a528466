//! Cases of the store that no other program can show, apart from `opc_cases`, since this program is generic over tables
//! and gates, and takes longer to compile: loads by key and what they read, edits that no request makes, disks that
//! stop, readers and writers that fail, and names that are cached.
//!
//! Each line of the input is printed again, and after it the outcome, indented by two spaces. The lines, besides those
//! that `opc_store_trials` and `opc_http_trials` have:
//!
//! - `# TEXT`, and an empty line: no outcome.
//! - `base RECORD`: one more row of the base policy, written as in a policy file.
//! - `new`: new tables in memory. `new base`: such tables with the base policy, and a row of the account.
//! - `limit STEPS`: a limit on the steps of each later query.
//! - `search deciding NAME`, `search listed NAME` (with its access list), `search order NAME`, `search head HEAD` and
//!   `search all CLASS`: whether the tables find and count what a search over the base policy in memory does.
//! - `search counts NAME`: the pattern that decides, the heads that were searched and the profiles that were read.
//!   `search first NAME`: the first pattern in order that covers, and the profiles that were read. `search read NAME`:
//!   the profiles that were read, alone.
//! - `older STATEMENT`: one more statement that makes the tables of an older version; `\n` stands for a line end.
//! - `disk WORDS`: tables over files in memory, most of which stop. Such a case cannot distinguish a failed
//!   allocation from the stop that it tests.
//! - `http LINE`: a line of `opc_http_trials`. `http new`: a new gate, over new tables in memory.
#![tactic(auto)]

mod disks;
mod files;
mod memory;
mod older_disks;
mod room;
mod searches;

use crate::memory::Fresh;
use crate::room::StoreRoom;
use anyhow::Result;
use opc_store::store::Store;
use sqlite::MemStore;

fn main(rt: HostRuntime) -> Result<()> {
    answer_all::<Store<MemStore>>(&rt)
}

/// Answers each line of the input, over tables in memory of this kind.
fn answer_all<T: Fresh>(rt: &HostRuntime) -> Result<()> {
    let mut room: StoreRoom<T> = StoreRoom::new(rt.alloc())?;
    for line in rt.lines(rt.alloc()) {
        let line = line?;
        let answer = room.answer(rt.alloc(), line.as_str())?;
        println!(rt; "{line}")?;
        for part in answer.lines() {
            println!(rt; "  {part}")?;
        }
    }
    Ok(())
}
