//! The reply to a question.
use opc_cli_failures::status::Status;
use opc_io::watched::Watched;

/// The status, and what the program would write to its output and to standard error.
#[derive(Drop)]
pub struct Reply {
    pub status: Status,
    pub output: Watched<Vec<u8>>,
    pub errors: Watched<Vec<u8>>,
}
