//! What the command line asks for.
use crate::question::{Comparison, PolicyQuestion};
use crate::source::PolicySource;
use crate::work::{Decide, Import, Lines, Work};
use opc_account::asked::AskedQuery;

/// What the arguments ask for.
#[derive(Clone, Copy)]
pub enum Task<'a> {
    /// A question about the policy from this source is answered.
    Ask(PolicySource<'a>, PolicyQuestion<'a>),
    /// Two policies are compared.
    Diff(Comparison<'a>),
    /// Rows of the account in the database file at this path are shown.
    Account(&'a str, AskedQuery<'a>),
    /// This operation runs over the tables of the database file at this path.
    Work(&'a str, Work<'a>),
    /// What this import would change in the database file at this path is shown, and nothing is imported.
    DryRun(&'a str, Import<'a>),
    /// Lines are answered over tables in memory, after a first policy if a file of one is named.
    InMemory {
        policy: Option<&'a str>,
        lines: Lines<'a>,
        /// Each request is logged in the file at this path.
        log: Option<&'a str>,
    },
    /// Other programs are answered over HTTP.
    Decide(Decide<'a>),
    /// The digest of the password on the input is printed.
    Digest,
    /// The table of the commands that an operator may type is printed.
    Commands,
}
