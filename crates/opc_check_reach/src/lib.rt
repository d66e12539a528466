//! Which profiles of class OPERCMDS decide nothing: their patterns cover no resource about which the gate asks, or each
//! that they cover is covered by a pattern that comes before. It asks about what commands need, and, for each line of an
//! answer about a unit or a console, about what showing it needs. A law of `opc_answers_laws` states that these are the
//! questions of the machine. A question about any other resource, such as one of `who`, decides nothing.
#![tactic(auto)]

mod forms;
pub mod laws;
pub mod met;
