//! Tests of `opc_policy` and `opc_import` that no program can print: sources and allocations that fail.
#![tactic(auto)]

#[cfg(test)]
mod tests;
