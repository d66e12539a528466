//! The log entry of an exchange.
use opc_board::text::KeptText;
use opc_http_requests::refusal::HttpRefusal;
use opc_machine::request::{Answer, Request};
use opc_names::name::UserId;
use opc_policy_folder::fault::PolicyFault;
use opc_terms::store_fault::StoreFault;

/// An exchange that is over.
#[derive(Drop)]
pub struct LogEntry {
    /// When its connection was accepted.
    pub moment: u64,
    /// What was requested, if that was read.
    pub request: Option<Request>,
    /// For whom the console acted before the request, if that could be loaded.
    pub user: Result<Option<UserId>, StoreFault>,
    /// The reply: the answer to the request, or the refusal of what is not one. Nothing if nothing was read.
    pub reply: Option<Result<Answer, HttpRefusal>>,
    /// The number of the row that the account got for the request, if it got one and the number could be loaded.
    pub row: Result<Option<u64>, StoreFault>,
    /// The name of the state of the policy that was brought into its folder, if one was, or why it was not.
    pub policy: Result<Option<KeptText>, PolicyFault>,
    /// The status of the response, if that was written whole.
    pub status: Option<u16>,
}
