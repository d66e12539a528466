//! What is printed over tables that fail, and to writers that fail.
use super::refused_memory;
use super::room::UserTables;
use opc_cli_failures::status::Status;
use opc_cli_script::run::run_script;
use opc_cli_script::script::ScriptFault;
use opc_gate::gate::Gate;
use opc_io::watched::Watched;
use std::io;
use std::io::{ErrorKind, Write};
use std::process::Abort;
use std::test::Fail;

/// A writer that takes one byte at a time, this many in all, and then fails, or takes nothing more.
#[derive(Drop)]
struct Narrow {
    bytes: Vec<u8>,
    room: usize,
    fails: bool,
}

impl Write for Narrow {
    fn write(&mut self, buf: &[u8]) -> io::Result<usize> {
        if buf.is_empty() || (self.bytes.len() == self.room && !self.fails) {
            return Ok(0);
        }
        if self.bytes.len() == self.room || self.bytes.push(buf[0]).is_err() {
            return Err(io::Error::from(ErrorKind::BrokenPipe));
        }
        Ok(1)
    }

    fn flush(&mut self) -> io::Result<()> {
        Ok(())
    }
}

const SCRIPT: &str = "1 C1 D U\n\n2 * RESUME\n";

const PRINTED: &str = "1 REFUSED E91 Store -\n2 REFUSED E91 Store -\n";

#[test]
fn each_request_is_answered(rt: HostRuntime) -> Result<(), Fail> {
    for (script, printed, wanted) in [
        (SCRIPT, PRINTED, Status::Failed),
        ("", "", Status::Done),
        ("   \n \r\n\n", "", Status::Done),
    ] {
        let mut output = Watched::new(Vec::with_capacity(rt.alloc(), 100)?);
        let mut gate = Gate::over(UserTables::failing(rt.alloc()));
        match run_script(&mut gate, rt.alloc(), script, &mut output) {
            Ok(status) => assert_eq!(rt; status, wanted),
            Err(fault) => return Err(end_of(&rt, fault)),
        }
        assert_eq!(rt; output.inner.as_slice(), printed.as_bytes());
        assert!(rt; !output.failed);
    }
    Ok(())
}

/// How a test that meets a fault ends: as out of memory, or as failed.
fn end_of(rt: &impl Abort, fault: ScriptFault) -> Fail {
    assert!(rt; matches!(fault, ScriptFault::NoMemory));
    refused_memory()
}

#[test]
fn a_bad_line_is_reported_and_nothing_is_run(rt: HostRuntime) -> Result<(), Fail> {
    let mut long = String::with_capacity(rt.alloc(), 1_048_577)?;
    for _ in 0..1_048_577 {
        long.push('\n')?;
    }
    for (script, printed, line) in [
        ("1 C1 D U\n   \n\n1\n", "BAD LINE 4\n", 4),
        (long.as_str(), "BAD LINE 0\n", 0),
    ] {
        let mut output = Watched::new(Vec::with_capacity(rt.alloc(), 100)?);
        let mut gate = Gate::over(UserTables::failing(rt.alloc()));
        match run_script(&mut gate, rt.alloc(), script, &mut output) {
            Err(ScriptFault::BadLine(number)) => assert_eq!(rt; number, line),
            Err(fault) => return Err(end_of(&rt, fault)),
            Ok(_) => assert!(rt; false),
        }
        assert_eq!(rt; output.inner.as_slice(), printed.as_bytes());
        assert!(rt; !output.failed);
    }
    Ok(())
}

/// The output ends where the writer does, and its error is returned.
fn stops_at(rt: &(impl AllocGlobal + Abort), room: usize, fails: bool) -> Result<(), Fail> {
    let bytes = Vec::with_capacity(rt.alloc(), PRINTED.len())?;
    let mut output = Watched::new(Narrow { bytes, room, fails });
    let mut gate = Gate::over(UserTables::failing(rt.alloc()));
    match run_script(&mut gate, rt.alloc(), SCRIPT, &mut output) {
        Err(ScriptFault::Output(error)) if fails => {
            assert_eq!(rt; error.kind(), ErrorKind::BrokenPipe);
        }
        Err(ScriptFault::Output(error)) => assert_eq!(rt; error.kind(), ErrorKind::WriteZero),
        Err(fault) => return Err(end_of(rt, fault)),
        Ok(_) => assert!(rt; false),
    }
    assert!(rt; output.failed);
    assert_eq!(rt; output.inner.bytes.len(), room);
    assert!(rt;
        PRINTED
            .as_bytes()
            .starts_with(output.inner.bytes.as_slice())
    );
    Ok(())
}

#[test]
fn a_writer_that_fails_ends_the_run(rt: HostRuntime) -> Result<(), Fail> {
    for room in 0..PRINTED.len() {
        stops_at(&rt, room, true)?;
        stops_at(&rt, room, false)?;
    }
    Ok(())
}
