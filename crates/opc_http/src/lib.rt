//! One exchange over HTTP: a request is read and handled, and its response is written, with its log entry, if one is
//! requested. It re-exports what an exchange takes: the routes, and what remembers whether a reader or a writer failed,
//! with a reader and a writer that fail for tests.
#![tactic(auto)]

mod exchanging;
pub mod laws;
pub mod telling;
pub mod trail;

pub use crate::exchanging::{LinkFault, Served, exchange, exchange_told, respond};
pub use crate::telling::Exchanged;
pub use opc_http_requests::routes;
pub use opc_http_requests::routes::Routes;
pub use opc_io::{sink, source, watched};
pub use opc_io_failing::{reader, writer};
