//! Tests of files in blocks: what their changes leave, and which records they make.
#![tactic(auto)]

#[cfg(test)]
mod changes;
