//! Tests of stops and faults: the adapters over a real folder, an opening, and runs over disks and streams in memory of which each call
//! fails in turn.
#![tactic(auto)]

#[cfg(test)]
mod failing;
#[cfg(test)]
mod host;
#[cfg(test)]
mod recover;
#[cfg(test)]
mod running;
#[cfg(test)]
mod stopping;
#[cfg(test)]
mod streams;
