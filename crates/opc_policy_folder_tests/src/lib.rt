//! Tests of `opc_policy_folder` over the files of the system.
#![tactic(auto)]

#[cfg(test)]
mod tests;
