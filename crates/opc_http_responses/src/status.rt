//! The status of each answer and of each refusal, and its phrase.
ghost use Rattle.std.specs.Prelude.{◌≡◌};
ghost use Rattle.opc_http_responses.specs.Statuses.{fault_status, phrase, refusal_status, status_of};

use http::StatusCode;
use opc_http_requests::refusal::HttpRefusal;
use opc_machine::request::Answer;
use opc_terms::fault::Fault;

#[tactic(auto, unfolding(crate::specs::Statuses::fault_status))]
fn fault_status(fault: &Fault) -> StatusCode
    ensures { result ≡ fault_status fault.now }
{
    match fault {
        Fault::Empty
        | Fault::TooLong
        | Fault::BadCharacter { .. }
        | Fault::UnknownVerb { .. }
        | Fault::BadOperand { .. }
        | Fault::OpenQuote { .. }
        | Fault::RowFault { .. } => StatusCode::BAD_REQUEST,
        Fault::ConsoleOffline
        | Fault::LogonRequired
        | Fault::Revoked
        | Fault::BadLogon
        | Fault::AlreadyOn(_)
        | Fault::NotOn
        | Fault::DeniedConsole
        | Fault::DeniedProfile
        | Fault::DeniedGroup
        | Fault::NotSpecial
        | Fault::NotOwner => StatusCode::FORBIDDEN,
        Fault::NoConsole => StatusCode::NOT_FOUND,
        Fault::NoUnit
        | Fault::NonCancelable
        | Fault::Cancelable
        | Fault::UnitExists
        | Fault::NoDevice
        | Fault::DeviceState
        | Fault::DeviceInUse
        | Fault::NoVolume
        | Fault::NoReply
        | Fault::NoTarget
        | Fault::Halted
        | Fault::LastMaster
        | Fault::WrongKind
        | Fault::ReplyExists
        | Fault::Exists(_)
        | Fault::Missing(_)
        | Fault::InUse(_)
        | Fault::BatchChanged => StatusCode::CONFLICT,
        Fault::NotEmpty | Fault::NoMemory | Fault::Store | Fault::NotOurs { .. } => {
            StatusCode::INTERNAL_SERVER_ERROR
        }
    }
}

/// The status of an answer.
pub fn status_of(answer: &Answer) -> StatusCode
    ensures { result ≡ status_of answer.now }
{
    match answer {
        Answer::Done { .. } => StatusCode::OK,
        Answer::Refused { fault, .. } => fault_status(fault),
    }
}

/// The status of a refusal.
pub(crate) fn refusal_status(refusal: &HttpRefusal) -> StatusCode
    ensures { result ≡ refusal_status refusal.now }
{
    match *refusal {
        HttpRefusal::BadRequest(_) => StatusCode::BAD_REQUEST,
        HttpRefusal::Forbidden => StatusCode::FORBIDDEN,
        HttpRefusal::NotFound => StatusCode::NOT_FOUND,
        HttpRefusal::MethodNotAllowed(_) => StatusCode::METHOD_NOT_ALLOWED,
        HttpRefusal::TooLarge => StatusCode::PAYLOAD_TOO_LARGE,
        HttpRefusal::BadRow { row, why } => fault_status(&Fault::RowFault { row, why }),
    }
}

/// The phrase of a status.
#[tactic(auto, unfolding(crate::specs::Statuses::phrase))]
pub(crate) fn phrase(status: StatusCode) -> &'static str
    ensures { result.now ≡ phrase status }
{
    status.canonical_reason().unwrap_or("")
}
