//! Tests of scripts, lists of requests, listings and services by their public calls, over tables of a small room and
//! tables that fail, and to writers that fail.
#![tactic(auto)]

#[cfg(test)]
mod tests;
