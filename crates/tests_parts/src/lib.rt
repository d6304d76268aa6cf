//! Tests of the parts: records, the text of a trace, the plain history, the book and the pool of blocks, each through public calls.
#![tactic(auto)]

#[cfg(test)]
mod book;
#[cfg(test)]
mod plain;
#[cfg(test)]
mod pool;
#[cfg(test)]
mod record;
#[cfg(test)]
mod trace;

use std::test::Fail;

// What a test needs, whatever the fault by which it isn't had.
fn had<T, E: Drop>(found: Result<T, E>) -> Result<T, Fail> {
    match found {
        Ok(value) => Ok(value),
        Err(_fault) => Err(Fail::new("what a test needs isn't had")),
    }
}
