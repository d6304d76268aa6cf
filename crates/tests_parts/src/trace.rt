//! A trace that is read and written again.
use crate::had;
use pass_trace::{parse, print};
use std::test::Fail;

#[test]
fn written_and_read_again(rt: HostRuntime) -> Result<(), Fail> {
    let text =
        b"1 creat 3 cat\n1 write 3 t:abc\n# a pipe\n1 pipe 6 7\n1 fork 2\n2 exec cat in -r\n2 write 7 buf";
    let trace = had(parse(rt.alloc(), text))?;
    assert_eq!(rt;
        print(rt.alloc(), &trace)?.as_slice(),
        b"1 creat 3 cat\n1 write 3 x:616263\n1 pipe 6 7\n1 fork 2\n2 exec cat in -r\n2 write 7 buf\n".as_slice()
    );
    Ok(())
}
