//! Cases of checks. Each case is a form and a policy file with escaped line ends, and what is printed is what a check
//! finds in the file.
use crate::escapes::unescaped;
use crate::words::first_word;
use anyhow::{Result, bail};
use opc_check::checked::{Checked, check};
use opc_check::form::Form;
use opc_names::name::ConsoleName;
use std::alloc::Global;

fn found(alloc: Global, form: Form, text: &str) -> Result<String> {
    // Named for the prover, which otherwise cannot infer the type of a row's console.
    let _nowhere: Option<ConsoleName> = None;
    match check(alloc, text, form)? {
        Checked::Bad(lines) => Ok(lines),
        Checked::Taken(rows, policy) => {
            let (rows, active) = (rows.len(), policy.active.opercmds);
            Ok(format!(in alloc; "{rows} rows are taken; OPERCMDS is active: {active}\n")?)
        }
    }
}

/// The answer to a case. An unknown form ends the program.
pub fn answer(alloc: Global, case: &str) -> Result<String> {
    let (form, file) = first_word(case);
    let file = unescaped(alloc, file)?;
    match form {
        "text" => found(alloc, Form::Text, file.as_str()),
        "json" => found(alloc, Form::Json, file.as_str()),
        _ => bail!("no form: {form}"),
    }
}
