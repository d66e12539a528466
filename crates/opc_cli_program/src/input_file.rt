//! Files that operations read in the place of the standard input.
ghost use Rattle.std.specs.Prelude.{◌≡◌, ◌+◌, IfErr, IfOk, IfSome, take};
ghost use Rattle.opc_cli_failures.specs.Statuses.{IsFailure};
ghost use Rattle.opc_cli_program.specs.InputFiles.{AreBytesOf, limit_of, path_of};

use opc_check::unread::POLICY_LIMIT;
use opc_cli_failures::failure::{Failure, Place};
use opc_cli_questions::openings::Openings;
use opc_cli_questions::streams::read_up_to;
use opc_cli_script::script::SCRIPT_LIMIT;
use std::alloc::Global;
use std::io;

/// A file that an operation reads in the place of the standard input.
#[derive(Clone, Copy)]
pub enum InputFile<'a> {
    /// The script at this path.
    Script(&'a str),
    /// The policy file at this path.
    Policy(&'a str),
}

impl<'a> InputFile<'a> {
    /// Where it is.
    pub fn path(self) -> &'a str
        ensures { result.now ≡ path_of self.entry }
    {
        match self {
            InputFile::Script(path) | InputFile::Policy(path) => path,
        }
    }

    /// The most bytes that it may have.
    fn limit(self) -> u32
        ensures { result ≡ limit_of self.entry }
    {
        match self {
            InputFile::Script(_) => SCRIPT_LIMIT,
            InputFile::Policy(_) => POLICY_LIMIT,
        }
    }

    /// What a message names.
    fn place(self) -> Place {
        match self {
            InputFile::Script(_) => Place::Script,
            InputFile::Policy(_) => Place::PolicyFile,
        }
    }
}

/// The bytes of the file at a path, up to one more than the limit.
fn first_bytes<F: Openings>(alloc: Global, files: &F, path: &str, limit: u32) -> io::Result<Vec<u8>>
    ensures { IfOk result (λ bytes. IfSome (F.holds files.now path.now)
        (λ all. bytes.items ≡ take (limit + 1) all)) }
{
    let mut file = files.open_to_read(path)?;
    read_up_to(alloc, &mut file, limit)
}

/// The bytes of a file, up to one more than it may have.
pub fn read_file<H: AllocGlobal + Openings>(rt: &H, file: InputFile<'_>) -> Result<Vec<u8>, Failure>
    ensures bytes { IfOk result (λ bytes. AreBytesOf (H.holds rt.now) file.entry bytes.items) }
    ensures fault { IfErr result (λ failure. IsFailure failure.fault) }
{
    match first_bytes(rt.alloc(), rt, file.path(), file.limit()) {
        Ok(bytes) => Ok(bytes),
        Err(error) => Err(Failure::at(file.place(), error)),
    }
}
