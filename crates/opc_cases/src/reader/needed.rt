//! What commands need.
use anyhow::Result;
use opc_names::name::UnitName;
use opc_reader::line::read_command;
use opc_reader_commands::command::Command;
use opc_table::need;
use opc_terms::need::Need;
use opc_terms::unit_kind::UnitKindAt;
use std::alloc::Global;

/// What a command needs, whatever the unit that it names is, or for each kind of unit.
pub fn needs(alloc: Global, line: &str) -> Result<String> {
    let command = read_command(line)?;
    let member = UnitName::read("MEMBER88")?;
    let absent = reported(alloc, &command, UnitKindAt::Absent)?;
    let job = reported(alloc, &command, UnitKindAt::Job)?;
    let task = reported(alloc, &command, UnitKindAt::Stc { member })?;
    let session = reported(alloc, &command, UnitKindAt::Tsu)?;
    if absent == job && job == task && task == session {
        return Ok(absent);
    }
    Ok(format!(in alloc; "absent {absent}; job {job}; task {task}; session {session}")?)
}

fn reported(alloc: Global, command: &Command<'_>, kind: UnitKindAt) -> Result<String> {
    match need(command, kind) {
        Some(
            Need {
                resource,
                level,
                group,
            },
        ) => Ok(format!(in alloc; "{group} {level} {resource}")?),
        None => Ok(String::from_str(alloc, "nothing")?),
    }
}
