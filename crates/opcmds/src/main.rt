//! The program `opcmds`.
#![tactic(auto)]

mod streams;

use opc_cli::run_words;
use opc_cli_failures::announced::Announced;
use opc_cli_failures::failure::{Failure, NO_PATHS};
use opc_cli_failures::screen::Screen;
use opc_cli_failures::status::Status;
use opc_io::watched::Watched;
use opc_terms::fault::Fault;
use std::io::{ErrorKind, IsTerminal, Write};
use std::process::ExitCode;
use std::rt::{Stderr, Stdin};
use std::{env, io};

fn main(rt: HostRuntime) -> ExitCode {
    streams::hold_closed();
    ExitCode::from(status(&rt))
}

fn status(rt: &HostRuntime) -> u8 {
    let mut errors = Watched::new(screen(rt, rt.stderr()));
    match given_words(rt) {
        Ok(words) => run_words(
            rt,
            words.as_slice(),
            &mut input(rt, words.as_slice()),
            &mut Watched::new(screen(rt, rt.stdout())),
            &mut errors,
        ),
        Err(error) if error.kind() == ErrorKind::OutOfMemory => Failure::from(Fault::NoMemory)
            .report(&NO_PATHS, &mut errors)
            .number(),
        Err(_) => {
            let _ = writeln!(errors.inner, "error: a word is not UTF-8");
            Status::BadInput.number()
        }
    }
}

/// Standard input. If it is typed at a terminal that also shows standard error, its first read is announced; `digest`
/// prompts by itself.
fn input(rt: &HostRuntime, words: &[String]) -> Announced<Stdin, Stderr> {
    let (inner, errors) = (rt.stdin(), rt.stderr());
    let is_typed = inner.is_terminal() && errors.is_terminal();
    let is_digest = words.get(1).is_some_and(|word| word.as_str() == "digest");
    Announced {
        inner,
        errors: if is_typed && !is_digest {
            Some(errors)
        } else {
            None
        },
    }
}

/// A standard stream that is written. On a terminal, what the terminal would act on or hide is shown escaped; a file or
/// a program gets the bytes as they are.
fn screen<W: IsTerminal>(rt: &HostRuntime, inner: W) -> Screen<W> {
    Screen {
        is_terminal: inner.is_terminal(),
        inner,
        alloc: rt.alloc(),
    }
}

/// The arguments of the command line, the program's own name first.
fn given_words(rt: &HostRuntime) -> io::Result<Vec<String>> {
    Ok(env::args(rt)?.collect(rt.alloc())?)
}
