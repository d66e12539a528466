//! The number that a script ends with, and what is printed.
use super::refused_memory;
use super::room::{RULE, UserTables};
use opc_cli::run_script;
use opc_gate::gate::Gate;
use opc_http::writer::FailingWriter;
use opc_io::watched::Watched;
use std::alloc::Global;
use std::process::Abort;
use std::test::Fail;

/// A script of which one request is refused, and what is printed.
const REFUSED: &str = "1 C1 C PAYROLL\n2 * RESUME\n";

fn printed_of(alloc: Global) -> Result<String, Fail> {
    Ok(format!(in alloc; "1 REFUSED E20 DeniedProfile {RULE}\n2 DONE -\n")?)
}

/// The account after the request that is refused.
fn account_of(alloc: Global) -> Result<String, Fail> {
    Ok(format!(in alloc; "1 C1 ANNA E20 {RULE}\n")?)
}

#[test]
fn a_script_ends_with_its_number(rt: HostRuntime) -> Result<(), Fail> {
    let refused = printed_of(rt.alloc())?;
    for (script, printed, number) in [
        ("", "", 0),
        ("1 * RESUME\n", "1 DONE -\n", 0),
        (REFUSED, refused.as_str(), 1),
        ("1 * RESUME\n1\n", "BAD LINE 2\n", 2),
        ("1 * ATTACH 0A80\n", "1 REFUSED E91 Store -\n", 3),
    ] {
        let mut output = Watched::new(Vec::with_capacity(rt.alloc(), 200)?);
        let mut gate = Gate::over(UserTables::of_anna(rt.alloc())?);
        let ended = run_script(rt.alloc(), &mut gate, script, &mut output);
        if ended == 3 && number != 3 {
            return Err(refused_memory());
        }
        assert_eq!(rt; ended, number, "{script}");
        assert_eq!(rt; output.inner.as_slice(), printed.as_bytes(), "{script}");
    }
    Ok(())
}

/// An output that fails after this many writes of one byte: what was handled before stays done.
fn fails_after(
    rt: &(impl AllocGlobal + Abort),
    writes: usize,
    printed: &str,
    account: &str,
) -> Result<(), Fail> {
    let mut output = Watched::new(FailingWriter::new(rt.alloc(), 1, writes));
    let mut gate = Gate::over(UserTables::of_anna(rt.alloc())?);
    let ended = run_script(rt.alloc(), &mut gate, REFUSED, &mut output);
    let kept = gate.into_tables().account;
    let written = output.inner.bytes;
    if kept.is_empty() || written.len() < writes {
        return Err(refused_memory());
    }
    assert_eq!(rt; ended, 3, "after {writes} writes");
    assert_eq!(rt; written.len(), writes);
    assert!(rt; printed.as_bytes().starts_with(written.as_slice()));
    assert_eq!(rt; kept.as_str(), account);
    Ok(())
}

#[test]
fn an_output_that_fails_at_any_write_ends_the_script(rt: HostRuntime) -> Result<(), Fail> {
    let printed = printed_of(rt.alloc())?;
    let account = account_of(rt.alloc())?;
    for writes in 0..printed.len() {
        fails_after(&rt, writes, printed.as_str(), account.as_str())?;
    }
    Ok(())
}
