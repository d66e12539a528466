//! What the program `opcmds` does over tables that are open, runs, imports, exports and the service; and how it answers
//! other programs.
#![tactic(auto)]

pub mod decide;
pub mod dry_run;
pub mod import;
pub mod input_file;
pub mod lines;
mod listening;
pub mod log_stream;
mod logging;
pub mod ports;
mod printing;
mod refusals;
pub mod run;
pub mod serve;
mod streams;
pub mod wall_clock;
pub mod work;
