//! The outcome of the program.
ghost use Rattle.std.specs.Prelude.{◌≡◌};
ghost use Rattle.opc_cli_failures.specs.Statuses.{number_of};

/// The outcome of a run or a question.
#[derive(Clone, Copy, Debug, PartialEq, Eq)]
pub enum Status {
    Done,
    /// Something was refused.
    Refused,
    /// The arguments, the policy file or a line of the script are invalid, and nothing was done.
    BadInput,
    /// An allocation, a device or the store failed.
    Failed,
}

impl Status {
    /// The number with which the program ends.
    pub fn number(self) -> u8
        ensures { result ≡ number_of self }
    {
        match self {
            Status::Done => 0,
            Status::Refused => 1,
            Status::BadInput => 2,
            Status::Failed => 3,
        }
    }
}
