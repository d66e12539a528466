//! Tests of `opc_http_connections` over the sockets, the files and the clock of the system.
#![tactic(auto)]

#[cfg(test)]
mod tests;
