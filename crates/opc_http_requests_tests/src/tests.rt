//! Requests that are read, and what is refused.
mod asked;
mod cut;
mod heads;
mod reading;
mod refusals;
mod strict;
