//! Which rows of the account are requested.
ghost use Rattle.std.specs.Prelude.{◌≡◌};
ghost use Rattle.opc_account.specs.Filters.{is_code, is_wanted, is_within, meets, takes_all};

use crate::codes::is_among;
use opc_state::account::AccountRow;

/// What a row must meet: not before one time nor after another, of a user, of a console, and with one of some codes,
/// written with commas between them. `-` is nobody, and `*` is the console of an event.
#[derive(Clone, Copy)]
pub struct Filter<'a> {
    pub since: Option<u64>,
    pub until: Option<u64>,
    pub user: Option<&'a str>,
    pub console: Option<&'a str>,
    pub codes: Option<&'a str>,
}

fn is_code(codes: Option<&str>, code: &str) -> bool
    ensures { result ≡ is_code codes.entry code.now }
{
    match codes {
        Some(text) => is_among(text, code),
        None => true,
    }
}

fn is_wanted(wanted: Option<&str>, text: &str) -> bool
    ensures { result ≡ is_wanted wanted.entry text.now }
{
    match wanted {
        Some(wanted) => text == wanted,
        None => true,
    }
}

fn is_within(since: Option<u64>, until: Option<u64>, moment: u64) -> bool
    ensures { result ≡ is_within since until moment }
{
    let is_early = match since {
        Some(first) => moment < first,
        None => false,
    };
    let is_late = match until {
        Some(last) => last < moment,
        None => false,
    };
    !is_early && !is_late
}

impl Filter<'_> {
    /// Whether the filter is empty, so that every row meets it.
    pub fn takes_all(&self) -> bool
        ensures { result ≡ takes_all self.now }
    {
        self.since.is_none()
            && self.until.is_none()
            && self.user.is_none()
            && self.console.is_none()
            && self.codes.is_none()
    }

    /// Whether a row meets the filter.
    pub fn meets(&self, row: &AccountRow) -> bool
        ensures { result ≡ meets self.now row.now }
    {
        is_within(self.since, self.until, row.moment)
            && is_wanted(self.user, row.user.as_str())
            && is_wanted(self.console, row.console.as_str())
            && is_code(self.codes, row.code.as_str())
    }
}
