//! Lines that are answered one by one, over tables that fail: what is called, in which order.
use super::refused_memory;
use super::room::UserTables;
use opc_board::text::KeptText;
use opc_cli_failures::reason::Reason;
use opc_cli_failures::status::Status;
use opc_cli_script::fault::NowFault;
use opc_cli_script::reading_now::Typed;
use opc_cli_script::session::answer_lines;
use opc_cli_script::terminal::Terminal;
use opc_gate::gate::Gate;
use std::alloc::{AllocError, Global};
use std::io;
use std::io::ErrorKind;
use std::process::Abort;
use std::test::Fail;

const LINES: [&str; 4] = ["C1 D U", "", "x", "* RESUME"];

/// Types the lines, at timestamps from 7 on, and records its calls.
#[derive(Drop)]
struct Typist {
    typed: usize,
    moment: u64,
    calls: String,
}

impl Typist {
    fn next_line(&mut self, alloc: Global) -> Result<Typed, AllocError> {
        self.calls.push_str("read\n")?;
        let lines = LINES;
        match lines.get(self.typed) {
            Some(line) => {
                self.typed = self.typed.wrapping_add(1);
                Ok(Typed::Line(KeptText::new(alloc, line)?))
            }
            None => Ok(Typed::End),
        }
    }
}

fn no_memory() -> io::Error {
    io::Error::from(ErrorKind::OutOfMemory)
}

impl Terminal for Typist {
    ghost use Rattle.std.specs.Prelude.{⊤, None, false};

    ghost reads = { λ _ _ _. ⊤ };

    ghost dates = { λ _ _ _. ⊤ };

    ghost says = { λ _ _ _. ⊤ };

    ghost held = { λ _. None };

    ghost has_failed = { λ _. false };

    ghost identity = { λ _. (0, 0) };

    fn read_line(&mut self, alloc: Global) -> Result<Typed, NowFault> {
        match self.next_line(alloc) {
            Ok(typed) => Ok(typed),
            Err(_) => Err(NowFault::Input(no_memory())),
        }
    }

    fn moment(&mut self) -> Result<u64, NowFault> {
        let moment = self.moment;
        self.moment = moment.wrapping_add(1);
        match self.calls.push_str("moment\n") {
            Ok(()) => Ok(moment),
            Err(_) => Err(NowFault::Clock(no_memory())),
        }
    }

    fn say(&mut self, text: &str) -> Result<(), NowFault> {
        // (a call that is not recorded fails the test)
        let _ = self.calls.push_str(text);
        Ok(())
    }

    fn note(&self, _: &Reason) {}
}

#[test]
fn a_line_is_answered_before_the_next_is_read(rt: HostRuntime) -> Result<(), Fail> {
    let mut typist = Typist {
        typed: 0,
        moment: 7,
        calls: String::with_capacity(rt.alloc(), 200)?,
    };
    let mut gate = Gate::over(UserTables::failing(rt.alloc()));
    match answer_lines(&mut gate, rt.alloc(), &None, &mut typist) {
        Ok(status) => assert_eq!(rt; status, Status::Failed),
        Err(fault) => return Err(end_of(&rt, fault)),
    }
    let wanted = "read\nmoment\n7 REFUSED E91 Store -\nread\nread\nBAD LINE 3\n\
                  read\nmoment\n8 REFUSED E91 Store -\nread\n";
    assert_eq!(rt; typist.calls.as_str(), wanted);
    Ok(())
}

/// How a test that meets a fault ends: as out of memory, or as failed.
fn end_of(rt: &impl Abort, fault: NowFault) -> Fail {
    let is_memory = match fault {
        NowFault::Input(error) | NowFault::Clock(error) | NowFault::Output(error) => {
            error.kind() == ErrorKind::OutOfMemory
        }
        NowFault::NoMemory => true,
    };
    assert!(rt; is_memory);
    refused_memory()
}
