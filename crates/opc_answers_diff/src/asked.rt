//! What is asked about on both sides.
use opc_policy_deciders::kind::AskedKind;

/// What is asked about: resources of commands and of lines of answers, or a LOGON at a console.
#[derive(Clone, Copy)]
pub enum Asked {
    Resource(AskedKind),
    Logon,
}
