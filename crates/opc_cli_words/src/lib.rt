//! The arguments of the command line: the options of each command, what they ask for, or what is wrong with them.
#![tactic(auto)]

mod account;
mod account_command;
mod asking;
mod check;
mod check_command;
mod clients;
mod command_line;
mod command_question;
mod decide;
mod decide_command;
mod diff;
mod diff_command;
mod flag;
mod import;
pub mod joined;
mod may;
pub mod mistake;
pub mod moment;
mod number;
mod question;
mod question_commands;
mod quotes;
mod run;
mod serve;
mod sheet;
mod slip;
mod source;
mod span;
mod value;
mod version;
mod who;
pub mod words;
