//! Questions of other programs, in the form of the OpenID AuthZEN Authorization API 1.0: what the body of a request asks.
#![tactic(auto)]

pub mod action;
pub mod body;
pub mod context;
pub mod evaluations;
pub mod fault;
pub mod key;
pub mod parts;
pub mod question;
pub mod subject;
