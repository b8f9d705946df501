//! Requests behind a stream.
ghost use Rattle.std.specs.Prelude.{◌<◌, ◌≤◌};

use crate::late::Late;
use bf_import::{ImportFault, Limits, import_with_rest};
use bf_io::{Bytes, MemSource, PlainSink};
use bf_lines::serve_lines;
use std::alloc::Global;
use std::test::Fail;

static STREAM: &[u8] = b"\
# comment
feature done
commit refs/heads/main
mark :1
committer T <t@e> 0 +0000
data 5
done
commit refs/heads/main
committer T <t@e> 1 +0000
data <<E
done
E
from :1

done
";

fn stream() -> &'static [u8] {
    STREAM
}

/// The replies to what stands behind a stream, and how many commits it has.
fn replies(
    alloc: Global,
    input: &[u8],
    piece: usize,
    limit: u64,
) -> Result<(Bytes, u32), ImportFault>
    requires some { 0 < piece }
    requires within { limit ≤ 1073741824 }
{
    let mut source = MemSource::new(Bytes::from_slice(alloc, input)?, piece, Vec::new(alloc));
    let mut limits = Limits::standard();
    limits.stream = limit;
    let (history, rest) = import_with_rest(alloc, &mut source, limits)?;
    let mut sink = PlainSink::new(alloc);
    let mut late = Late::new(alloc);
    let mut replies = 0;
    let _ = serve_lines(alloc, rest, &mut source, &mut sink, &mut late, &mut replies);
    Ok((sink.into_bytes(), history.len()))
}

#[test]
fn what_stands_behind_done_is_left(rt: HostRuntime) -> Result<(), Fail> {
    let alloc = rt.alloc();
    let size = stream().len();
    let mut input = Bytes::from_slice(alloc, stream())?;
    input.append(b"a\nbb\nc")?;
    for piece in [1, 2, 7, 64, 1_000] {
        for limit in [size as u64, 1_000_000] {
            assert!(rt; limit <= 1_073_741_824);
            let (text, commits) = replies(alloc, input.as_slice(), piece, limit)?;
            assert_eq!(rt; commits, 2);
            assert_eq!(rt; text.as_slice(), b"\na\n".as_slice());
        }
    }
    Ok(())
}
