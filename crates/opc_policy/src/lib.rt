//! Decisions: which profile decides, and what it rules on a user. It re-exports what policies are made of, and their
//! faults, rules and needs.
#![tactic(auto)]

pub mod cases;
pub mod covering;
pub mod explained;
pub mod laws;
pub mod plain;
pub mod policy_source;
pub mod ruling;
mod searching;
pub mod source;
pub mod verdict;

pub use crate::explained::{Explained, explain};
pub use crate::policy_source::ClassProfiles;
pub use crate::ruling::{Ruling, rule_on};
pub use crate::searching::{Found, search};
pub use crate::source::{ProfileSource, Taken};
pub use crate::verdict::Verdict;
pub use opc_policy_members::entry::Entry;
pub use opc_policy_members::policy::Policy;
pub use opc_policy_members::profile::Profile;
pub use opc_policy_members::row::Row;
pub use opc_policy_members::user::User;
pub use opc_terms::fault::Fault;
pub use opc_terms::mode::Mode;
pub use opc_terms::need::Need;
pub use opc_terms::rule::Rule;
pub use opc_terms::store_fault::StoreFault;
pub use opc_terms::unit_kind::UnitKindAt;
