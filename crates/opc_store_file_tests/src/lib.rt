//! Tests of `opc_store_file` over the files of the system.
#![tactic(auto)]

#[cfg(test)]
mod tests;
