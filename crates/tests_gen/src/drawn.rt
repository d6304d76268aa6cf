//! The first hundred lines of the traces of three numbers.
use crate::expected::{GREATEST, ONE, ZERO};
use pass_gen::generate;
use pass_trace::{parse, print};
use std::alloc::Global;
use std::test::Fail;

/// The text of a number's trace.
fn drawn(alloc: Global, number: u64) -> Result<Vec<u8>, Fail> {
    let trace = generate(alloc, number, 200)?;
    Ok(print(alloc, &trace)?)
}

/// The text of a trace with the bytes of each write in base 16.
fn written_out(alloc: Global, text: &[u8]) -> Result<Vec<u8>, Fail> {
    let Ok(trace) = parse(alloc, text) else {
        return Err(Fail::new("the text is no trace"));
    };
    Ok(print(alloc, &trace)?)
}

/// Whether the text of a number's trace begins with these lines.
fn begins_with(alloc: Global, number: u64, lines: &[u8]) -> Result<bool, Fail> {
    let text = drawn(alloc, number)?;
    let wanted = written_out(alloc, lines)?;
    Ok(text.starts_with(wanted.as_slice()))
}

#[test]
fn the_first_hundred_lines_are_drawn(rt: HostRuntime) -> Result<(), Fail> {
    let alloc = rt.alloc();
    assert!(rt; begins_with(alloc, 0, ZERO)?);
    assert!(rt; begins_with(alloc, 1, ONE)?);
    assert!(rt; begins_with(alloc, u64::MAX, GREATEST)?);
    Ok(())
}
