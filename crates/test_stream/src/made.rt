//! Streams that numbers give.
use bf_gen::generate;
use bf_io::{MemSink, PlainSink, SinkFault};
use std::test::Fail;

const THREE: &[u8] = b"\
commit refs/heads/main
mark :1
committer gen <gen> 0 +0000
data 3
c0
commit refs/heads/main
mark :2
committer gen <gen> 1 +0000
data 3
c1
from :1
commit refs/heads/main
mark :3
committer gen <gen> 2 +0000
data 3
c2
from :1
";

// The end of the stream of ten commits that 3 gives.
const TEN_ENDS: &[u8] = b"\
c7
from :7
merge :6
commit refs/heads/main
mark :9
committer gen <gen> 8 +0000
data 3
c8
from :8
merge :7
commit refs/heads/main
mark :10
committer gen <gen> 9 +0000
data 3
c9
from :7
";

#[test]
fn streams_of_three_commits_and_of_one(rt: HostRuntime) -> Result<(), Fail> {
    let mut sink = PlainSink::new(rt.alloc());
    generate(rt.alloc(), 0, 3, &mut sink)?;
    assert_eq!(rt; sink.bytes(), THREE);
    let mut sink = PlainSink::new(rt.alloc());
    generate(rt.alloc(), 18_446_744_073_709_551_615, 1, &mut sink)?;
    assert_eq!(rt; sink.bytes(), &THREE[..69]);
    Ok(())
}

#[test]
fn a_merge_has_its_second_parent(rt: HostRuntime) -> Result<(), Fail> {
    let mut sink = PlainSink::new(rt.alloc());
    generate(rt.alloc(), 3, 10, &mut sink)?;
    assert!(rt; sink.bytes().ends_with(TEN_ENDS));
    Ok(())
}

#[test]
fn a_fault_of_the_sink_is_told(rt: HostRuntime) -> Result<(), Fail> {
    let mut sink = MemSink::new(rt.alloc(), 100, vec![in rt.alloc(); 2]?);
    assert_eq!(rt;
        generate(rt.alloc(), 0, 3, &mut sink),
        Err(SinkFault::Failed)
    );
    assert_eq!(rt; sink.bytes(), &THREE[..100]);
    Ok(())
}
