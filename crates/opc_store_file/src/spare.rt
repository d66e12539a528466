//! Which logs hold something, and which files a refused opening leaves that nobody needs.
ghost use Rattle.std.specs.Prelude.{◌≡◌};
ghost use Rattle.opc_store_file.specs.Spare.{has_page, is_spare_database, is_spare_log};

/// The bytes of the least log with a page in it: its header, that of a page, and the smallest page.
const ONE_PAGE: u64 = 32 + 24 + 512;

/// What was at a path before the opening.
#[derive(Clone, Copy, PartialEq, Eq)]
pub struct Prior {
    /// Nothing was, and the opening made the database file.
    pub is_made: bool,
    /// How many bytes the database file had.
    pub length: u64,
    pub has_log: bool,
}

/// Whether a log of this many bytes may have a page.
pub(crate) fn has_page(log_length: u64) -> bool
    ensures { result ≡ has_page log_length }
{
    log_length >= ONE_PAGE
}

/// Whether the database file, which has this many bytes now, is one that the opening made and nothing is in it.
pub fn is_spare_database(prior: Prior, length: u64) -> bool
    ensures { result ≡ is_spare_database prior length }
{
    prior.is_made && length == 0
}

/// Whether the log is one that the opening made and nothing that counts is in it: no page, nor the mark by which an
/// opening distinguishes a file that is half made from one that is damaged.
pub fn is_spare_log(prior: Prior, length: u64, log_length: u64) -> bool
    ensures { result ≡ is_spare_log prior length log_length }
{
    let may_be_half_made = prior.length <= 1 && length > 1;
    !prior.has_log && !has_page(log_length) && !may_be_half_made
}
