//! What made the program fail, and how that is reported.
ghost use Rattle.std.specs.Prelude.{◌≡◌, IfErr, OnOk, Some, false};
ghost use Rattle.std.specs.IoError.{error_kind};
ghost use Rattle.opc_cli_failures.specs.Printing.{Grows, IsReported};
ghost use Rattle.opc_cli_failures.specs.Statuses.{IsFailure, cause_in_gate, fault_of_kind, status_of, status_of_end};

use crate::printing::{print_failure, print_note};
use crate::reason::Reason;
use crate::status::Status;
use opc_io::sink::Sink;
use opc_terms::fault::{Fault, Subject};
use std::io;
use std::io::ErrorKind;

/// The files that the arguments name.
#[derive(Clone, Copy)]
pub struct Paths<'a> {
    pub database: Option<&'a str>,
    pub policy: Option<&'a str>,
    pub socket: Option<&'a str>,
    pub log: Option<&'a str>,
    pub policies: Option<&'a str>,
}

/// No file is named.
pub const NO_PATHS: Paths<'static> = Paths {
    database: None,
    policy: None,
    socket: None,
    log: None,
    policies: None,
};

/// What the program reads, writes or opens.
#[derive(Clone, Copy, PartialEq, Eq)]
pub enum Place {
    Input,
    Output,
    PolicyFile,
    Database,
    Clock,
    /// A port of 127.0.0.1.
    Port(u16),
    /// A Unix socket.
    Socket,
    /// Accepting a connection.
    Connection,
    /// A console, at which a request is made.
    Console(Subject),
    /// A script: the file that is named, or else the input.
    Script,
    /// The file of a log.
    Log,
    /// The folder into which a policy is brought.
    Policies,
}

/// A fault, and what failed and why, if that is known.
#[derive(Drop)]
pub struct Failure {
    pub fault: Fault,
    pub cause: Option<(Place, Reason)>,
}

impl From<Fault> for Failure {
    ghost use Rattle.std.specs.Prelude.{◌≡◌};

    ghost from_gives = { λ fault failure. failure.fault ≡ fault };

    fn from(fault: Fault) -> Self {
        Failure { fault, cause: None }
    }
}

impl Failure {
    /// A read, a write or an opening that failed there.
    pub fn at(place: Place, error: io::Error) -> Self
        ensures fault { result.fault ≡ fault_of_kind (error_kind error) }
        ensures cause { result.cause ≡ Some (place, Reason.System error) }
        ensures failure { IsFailure result.fault }
    {
        Failure {
            fault: fault_of(&error),
            cause: Some((place, Reason::System(error))),
        }
    }

    /// A fault of this place.
    pub fn of(fault: Fault, place: Place, reason: Reason) -> Self
        ensures fault { result.fault ≡ fault }
        ensures cause { result.cause ≡ Some (place, reason) }
    {
        Failure {
            fault,
            cause: Some((place, reason)),
        }
    }

    /// A fault that the gate returns: if its store failed, the database is the cause.
    pub fn of_gate(fault: Fault) -> Self
        ensures fault { result.fault ≡ fault }
        ensures cause { result.cause ≡ cause_in_gate fault }
    {
        match fault {
            Fault::Store => Failure::of(fault, Place::Database, Reason::Unreadable),
            // The code and the text of every other fault already say why.
            _ => Failure { fault, cause: None },
        }
    }

    /// Prints the fault, as its code and its text, and then, in a line of its own, what failed and why. Returns the
    /// status. Allocates nothing, so that it can print after a failed allocation; then it prints the first line alone.
    pub fn report<K: Sink>(&self, paths: &Paths<'_>, errors: &mut K) -> Status
        ensures status { result ≡ status_of self.now.fault }
        ensures reported { K.has_failed errors.new ≡ false
            → IsReported self.now.fault (K.held errors.old) (K.held errors.new) }
        ensures kept { K.has_failed errors.new ≡ false → K.has_failed errors.old ≡ false }
    {
        // The status reports the failure even if nothing can be printed.
        let _ = print_failure(self, paths, errors);
        status_of(&self.fault)
    }
}

/// Prints what is wrong there and why, in a line of its own.
pub fn note<K: Sink>(place: Place, reason: &Reason, errors: &mut K)
    ensures noted { K.has_failed errors.new ≡ false → Grows (K.held errors.old) (K.held errors.new) }
    ensures kept { K.has_failed errors.new ≡ false → K.has_failed errors.old ≡ false }
{
    // (if it fails, the answer and the status still report that something is wrong)
    let _ = print_note(&place, reason, &NO_PATHS, errors);
}

/// The status of a result; a failure is reported.
pub fn reported<K: Sink>(end: Result<Status, Failure>, paths: &Paths<'_>, errors: &mut K) -> Status
    ensures status { result ≡ status_of_end end }
    ensures reported { IfErr end (λ failure. K.has_failed errors.new ≡ false
        → IsReported failure.fault (K.held errors.old) (K.held errors.new)) }
    ensures silent { OnOk end (errors.new ≡ errors.old) }
    ensures kept { K.has_failed errors.new ≡ false → K.has_failed errors.old ≡ false }
{
    match end {
        Ok(status) => status,
        Err(failure) => failure.report(paths, errors),
    }
}

/// The status with which a fault ends the program: bad input, a failed allocation or device, or a refusal.
fn status_of(fault: &Fault) -> Status
    ensures { result ≡ status_of fault.now }
{
    match fault {
        Fault::RowFault { .. } => Status::BadInput,
        Fault::NoMemory | Fault::Store | Fault::NotOurs { .. } => Status::Failed,
        // All others are refusals of a request.
        _ => Status::Refused,
    }
}

/// The fault of a failed allocation, or of a failed device.
fn fault_of(error: &io::Error) -> Fault
    ensures { result ≡ fault_of_kind (error_kind error.now) }
{
    match error.kind() {
        ErrorKind::OutOfMemory => Fault::NoMemory,
        // No other kind of error is a failed allocation.
        _ => Fault::Store,
    }
}
