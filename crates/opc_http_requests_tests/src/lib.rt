//! Tests of `opc_http_requests` by its public calls, over readers in memory.
#![tactic(auto)]

#[cfg(test)]
mod tests;
