//! Scripts and lists over tables that fail, and to writers that fail; listings, services over loopback, and the faults
//! of an opening.
mod answered;
mod listings;
mod lists;
mod openings;
mod room;
mod runs;
mod scripts;
mod services;

use std::alloc::AllocError;
use std::test::Fail;

/// How a test ends if an allocation of the tested call fails, so that the test cannot find what it looks for.
fn refused_memory() -> Fail {
    Fail::from(AllocError)
}
