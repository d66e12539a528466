//! The account of refusals and warnings.
use opc_board::text::KeptText;

/// A row of the account; its number is its place in it, from 1. The console is `*` for an event, and the user `-` if
/// nobody acted. The code is a fault's, or `WARN`; the rule is the text of the rule that decided, or `-`.
#[derive(Drop)]
pub struct AccountRow {
    pub moment: u64,
    pub console: KeptText,
    pub user: KeptText,
    pub code: KeptText,
    pub rule: KeptText,
}
