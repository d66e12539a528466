//! The policy that a file is.
ghost use Rattle.std.specs.Prelude.{◌≡◌, IfOk, string_bytes};
ghost use Rattle.std.specs.Option.{option_copied, option_map};
ghost use Rattle.opc_decide_files.specs.DecidingFiles.{policy_in, policy_of_rows, rows_in, text_in, text_of};

use opc_check::unread::POLICY_LIMIT;
use opc_decide_answers::policy::DecidingPolicy;
use opc_import::fault::ImportFault;
use opc_import::read::read_policy;
use opc_names::name::ConsoleName;
use opc_policy_folder::name::digits_of;
use opc_policy_members::row::Row;
use opc_terms::fault::Fault;
use std::alloc::{AllocError, Global};
use std::str;

/// The text that some bytes are.
#[tactic(auto, using(crate::proofs::Texts::text_none, crate::proofs::Texts::text_some))]
fn text_of(bytes: &[u8]) -> Option<&str>
    ensures { option_copied result ≡ text_of bytes.now }
{
    match str::from_utf8(bytes) {
        Ok(text) => Some(text),
        Err(_) => None,
    }
}

/// The same, unless they are too many.
fn text_in(file: &[u8]) -> Option<&str>
    ensures { option_copied result ≡ text_in file.now }
{
    if file.len() > POLICY_LIMIT as usize {
        return None;
    }
    text_of(file)
}

/// The rows of a policy file.
fn rows_in(alloc: Global, file: &[u8]) -> Result<Option<Vec<Row>>, AllocError>
    ensures { IfOk result (λ rows. option_map (λ rows. rows.items) rows ≡ rows_in file.now) }
{
    // Named for the prover, which otherwise cannot infer the type of a row's console.
    let _nowhere: Option<ConsoleName> = None;
    let Some(text) = text_in(file) else {
        return Ok(None);
    };
    match read_policy(alloc, text) {
        Ok(rows) => Ok(Some(rows)),
        Err(ImportFault::NoMemory) => Err(AllocError),
        Err(ImportFault::Row { .. }) => Ok(None),
    }
}

/// The policy that rows make, if they make one.
fn policy_of_rows(
    alloc: Global,
    rows: &[Row],
    name: String,
) -> Result<Option<DecidingPolicy>, AllocError>
    ensures { IfOk result (λ policy. policy ≡ policy_of_rows (string_bytes name) rows.now) }
{
    match DecidingPolicy::of_rows(alloc, rows, name) {
        Ok(policy) => Ok(Some(policy)),
        Err(Fault::NoMemory) => Err(AllocError),
        // The rows make no policy.
        Err(_) => Ok(None),
    }
}

/// The policy that a file is, if it is one.
pub fn policy_in(alloc: Global, file: &[u8]) -> Result<Option<DecidingPolicy>, AllocError>
    ensures { IfOk result (λ policy. policy ≡ policy_in file.now) }
{
    let Some(rows) = rows_in(alloc, file)? else {
        return Ok(None);
    };
    let name = digits_of(alloc, file)?;
    policy_of_rows(alloc, rows.as_slice(), name)
}
