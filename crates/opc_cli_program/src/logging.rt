//! The log of a run.
ghost use Rattle.opc_cli_program.specs.Logging.{IsLogAt, IsLoggedEnd};

use crate::log_stream::LogStream;
use opc_cli_failures::failure::{Failure, Place};
use opc_cli_failures::status::Status;
use opc_cli_log::log::RunLog;
use std::io;

/// The log at a path, if one is named.
pub(crate) fn log_at<H: LogStream>(
    rt: &H,
    path: Option<&str>,
) -> Result<Option<RunLog<H::LogFile>>, Failure>
    ensures { IsLogAt (H.opens rt.now) path.entry result }
{
    let Some(path) = path else {
        return Ok(None);
    };
    match rt.open_log(path) {
        Ok(file) => Ok(Some(RunLog::new(file))),
        Err(error) => Err(Failure::at(Place::Log, error)),
    }
}

/// The outcome of a run with a log. If a line could not be added, the run failed.
pub(crate) fn logged_end(
    ran: Result<Status, Failure>,
    fault: Option<io::Error>,
) -> Result<Status, Failure>
    ensures { IsLoggedEnd ran fault result }
{
    match (ran, fault) {
        (Ok(_), Some(error)) => Err(Failure::at(Place::Log, error)),
        (Ok(status), None) => Ok(status),
        (Err(failure), _) => Err(failure),
    }
}
