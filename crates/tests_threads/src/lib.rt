//! Tests of threads that are held back until another one is as far.
#![tactic(auto)]

#[cfg(test)]
mod aside;
#[cfg(test)]
mod crowd;
#[cfg(test)]
mod entering;
#[cfg(test)]
mod inside;
#[cfg(test)]
mod judging;
#[cfg(test)]
mod running;
#[cfg(test)]
mod saving;
#[cfg(test)]
mod turns;
