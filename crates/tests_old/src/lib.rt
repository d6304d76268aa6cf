//! Tests of runs over an archive in memory of which each call stops or fails in turn.
#![tactic(auto)]

#[cfg(test)]
mod failing;
#[cfg(test)]
mod running;
#[cfg(test)]
mod stopping;
