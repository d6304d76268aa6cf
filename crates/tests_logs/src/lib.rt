//! Tests of hostile logs: what the store says of a log's bytes, against a plain reading of its format.
#![tactic(auto)]

#[cfg(test)]
mod changes;
#[cfg(test)]
mod judging;
#[cfg(test)]
mod pipeline;
#[cfg(test)]
mod reading;
