//! Refusals of what is not a request.
use crate::body_key::BodyKey;
use opc_terms::fault::Why;
use std::alloc::{AllocError, AllocFailed};

/// The part of a request that is invalid.
#[derive(Clone, Copy, Debug, PartialEq, Eq)]
pub enum InvalidPart {
    /// The first bytes are not a whole head of HTTP, or the head is too long.
    Head,
    /// The head states a transfer coding.
    Coding,
    /// The length of the body is not a number, or there are several.
    Length,
    /// The input ends within the body.
    CutShort,
    /// The console of the path.
    Console,
    /// The number of its batch.
    Batch,
    /// Its class.
    Class,
    /// The first number of its listing.
    First,
    /// How many rows are listed.
    Count,
    /// The body is not JSON.
    Json,
    /// The body is not an object.
    Object,
    /// The object does not have this key.
    MissingKey(BodyKey),
    /// The value of this key is not of its kind.
    Value(BodyKey),
    /// The object has all keys of the request, and others.
    OtherKeys,
    /// The body is not UTF-8.
    Utf8,
}

/// A method that some path has.
#[derive(Clone, Copy, Debug, PartialEq, Eq)]
pub enum Method {
    Get,
    Post,
}

/// Why what was read is not a request.
#[derive(Clone, Copy, Debug, PartialEq, Eq)]
pub enum HttpRefusal {
    /// A part of the request is invalid, or the input ends within it. Responses do not say which part.
    BadRequest(InvalidPart),
    /// A web page may have sent it, and that is not accepted.
    Forbidden,
    /// No route has this path.
    NotFound,
    /// The path has this method alone.
    MethodNotAllowed(Method),
    /// The body is too long.
    TooLarge,
    /// The first bad row of a policy file, counted from 1, with the header as row 0.
    BadRow { row: u32, why: Why },
}

/// Why no request was read: it is refused, or an allocation failed.
#[derive(Clone, Copy, PartialEq, Eq)]
pub enum AskFault {
    Refused(HttpRefusal),
    NoMemory,
}

impl From<HttpRefusal> for AskFault {
    ghost use Rattle.std.specs.Prelude.{◌≡◌};
    ghost use Rattle.opc_http_requests.specs.declared.refusal.AskFault.TheVariants.{Refused};

    ghost from_gives = { λ refusal fault. fault ≡ Refused refusal };

    fn from(refusal: HttpRefusal) -> AskFault {
        AskFault::Refused(refusal)
    }
}

impl From<InvalidPart> for AskFault {
    ghost use Rattle.std.specs.Prelude.{◌≡◌};
    ghost use Rattle.opc_http_requests.specs.declared.refusal.AskFault.TheVariants.{Refused};
    ghost use Rattle.opc_http_requests.specs.declared.refusal.HttpRefusal.TheVariants.{BadRequest};

    ghost from_gives = { λ part fault. fault ≡ Refused (BadRequest part) };

    fn from(part: InvalidPart) -> AskFault {
        AskFault::Refused(HttpRefusal::BadRequest(part))
    }
}

impl From<AllocError> for AskFault {
    ghost use Rattle.std.specs.Prelude.{◌≡◌};
    ghost use Rattle.opc_http_requests.specs.declared.refusal.AskFault.TheVariants.{NoMemory};

    ghost from_gives = { λ _ fault. fault ≡ NoMemory };

    fn from(_error: AllocError) -> AskFault {
        AskFault::NoMemory
    }
}

impl<T: Drop> From<AllocFailed<T>> for AskFault {
    ghost use Rattle.std.specs.Prelude.{◌≡◌};
    ghost use Rattle.opc_http_requests.specs.declared.refusal.AskFault.TheVariants.{NoMemory};

    ghost from_gives = { λ _ fault. fault ≡ NoMemory };

    fn from(_error: AllocFailed<T>) -> AskFault {
        AskFault::NoMemory
    }
}
