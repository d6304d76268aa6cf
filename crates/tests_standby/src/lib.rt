//! Tests of a standby: what is left on its disk after each stop and each fault.
#![tactic(auto)]

#[cfg(test)]
mod stops;
