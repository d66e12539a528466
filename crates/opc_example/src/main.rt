//! A program of one's own that asks a policy: may a user enter these commands? `opc_example ANNA "C PAYROLL" "D A,L"`
//! reads the policy from standard input, and prints a line for each command.
#![tactic(auto)]

use opc_cli_failures::status::Status;
use opc_embedded::asking::ask;
use opc_embedded::reply::Reply;
use opc_embedded::texts::PolicyTexts;
use std::alloc::{AllocError, Global};
use std::io::{Read, Write};
use std::process::ExitCode;
use std::{env, io};

fn main(rt: HostRuntime) -> ExitCode {
    match answer(&rt) {
        Ok(()) => ExitCode::from(0),
        Err(_) => ExitCode::from(1),
    }
}

fn answer(rt: &HostRuntime) -> io::Result<()> {
    let alloc = rt.alloc();
    let words: Vec<String> = env::args(rt)?.collect(alloc)?;
    let mut policy = Vec::new(alloc);
    rt.stdin().read_to_end(&mut policy)?;
    let [_, user, commands @ ..] = words.as_slice() else {
        return Ok(());
    };
    for command in commands {
        let question = question(alloc, user.as_str(), command.as_str())?;
        let texts = PolicyTexts {
            policy: policy.as_slice(),
            new: b"",
        };
        let reply = ask(alloc, &texts, question.as_str().as_bytes());
        writeln!(rt.stdout(), "{}: {}", command.as_str(), verdict(&reply))?;
    }
    Ok(())
}

/// The words of the question, with a NUL between each two.
fn question(alloc: Global, user: &str, command: &str) -> Result<String, AllocError> {
    let mut words = String::from_str(alloc, "explain\0--user\0")?;
    words.push_str(user)?;
    words.push_str("\0--command\0")?;
    words.push_str(command)?;
    Ok(words)
}

fn verdict(reply: &Reply) -> &'static str {
    match reply.status {
        Status::Done => "yes",
        Status::Refused => "no",
        Status::BadInput | Status::Failed => "?",
    }
}
