//! Operations over the tables of a database file.
use opc_names::name::ConsoleName;
use std::time::Duration;

/// Which lines are answered, and how.
#[derive(Clone, Copy)]
pub enum Lines<'a> {
    /// Those of a script, each at its own timestamp: the file at this path, or the one on the input.
    Script(Option<&'a str>),
    /// Those of the input, each as it is read, by the clock; at this console, if one is named.
    Now(Option<ConsoleName>),
}

/// What is imported: a batch with a number at a console or, if none is named, a first policy.
#[derive(Clone, Copy)]
pub struct Import<'a> {
    pub batch: u32,
    pub console: Option<ConsoleName>,
    /// The policy file: the one at this path, or the one on the input.
    pub file: Option<&'a str>,
}

/// Where a service listens.
#[derive(Clone, Copy)]
pub enum Address<'a> {
    /// This port of 127.0.0.1; 0 is one that the system chooses.
    Port(u16),
    /// The Unix socket at this path, with these permissions.
    Socket { path: &'a str, mode: u32 },
}

/// Which clients are served, and how: those at an address, and how many.
#[derive(Clone, Copy)]
pub struct Clients<'a> {
    pub address: Address<'a>,
    pub count: u32,
    /// The longest that an exchange may take.
    pub timeout: Option<Duration>,
    /// What a web page can send is refused.
    pub strict: bool,
    /// Each exchange is logged.
    pub log: bool,
}

/// Operators are served.
#[derive(Clone, Copy)]
pub struct Serve<'a> {
    pub clients: Clients<'a>,
    /// The folder at this path gets each state of the policy.
    pub policies: Option<&'a str>,
}

/// The questions of other programs are answered, by the policy file at a path.
#[derive(Clone, Copy)]
pub struct Decide<'a> {
    pub policy: &'a str,
    /// The URL at which clients find it; that of its address if none is given.
    pub base: Option<&'a str>,
    pub clients: Clients<'a>,
}

/// An operation over tables.
#[derive(Clone, Copy)]
pub enum Work<'a> {
    /// The first policy is taken, if a file of one is named, and then the lines are answered.
    Run {
        policy: Option<&'a str>,
        lines: Lines<'a>,
        /// Each request is logged in the file at this path.
        log: Option<&'a str>,
    },
    /// A policy file is put into the tables, at the time of the clock.
    Import(Import<'a>),
    /// The policy is written as a policy file.
    Export,
    /// Clients are served over HTTP.
    Serve(Serve<'a>),
}
