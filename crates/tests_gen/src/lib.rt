//! Tests of traces that a number draws: their text, as a program draws it that shares no code with this one.
#![tactic(auto)]

#[cfg(test)]
mod drawn;
#[cfg(test)]
mod expected;
