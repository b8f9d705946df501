//! Streams that are refused for their form, each with the kind and the line of its refusal.
use crate::stream::end_of;
use bf_stream::{Limit, Limits, StreamFault};
use std::alloc::{AllocError, Global};
use std::test::Fail;

// What a stream shows, the stream, and its refusal.
const REFUSED: [(&str, &str, StreamFault); 24] = [
    (
        "the input ends inside a data part",
        "commit refs/heads/main\ncommitter A <a@b> 0 +0000\ndata 10\nabc\n",
        StreamFault::Truncated { line: 3 },
    ),
    (
        "the input ends inside a delimited data part",
        "commit refs/heads/main\nmark :1\ncommitter T <t@e> 0 +0000\ndata <<END\nc0\n",
        StreamFault::Truncated { line: 4 },
    ),
    (
        "the input ends behind the first line of a commit",
        "commit refs/heads/main\n",
        StreamFault::Truncated { line: 2 },
    ),
    (
        "a data part is longer than the limit",
        "blob\ndata 67108865\n",
        StreamFault::TooLarge { what: Limit::Data },
    ),
    (
        "a ref has a space",
        "commit refs/heads/a b\n",
        StreamFault::Syntax { line: 1 },
    ),
    (
        "a mark is zero",
        "commit refs/heads/main\nmark :0\ncommitter T <t@e> 0 +0000\ndata 2\nc0\n",
        StreamFault::Syntax { line: 2 },
    ),
    (
        "a mark needs 65 bits",
        "commit refs/heads/main\nmark :18446744073709551616\ncommitter T <t@e> 0 +0000\ndata 2\nc0\n",
        StreamFault::Syntax { line: 2 },
    ),
    (
        "a commit has no committer",
        "commit refs/heads/main\nmark :1\ndata 2\nc0\n",
        StreamFault::Syntax { line: 3 },
    ),
    (
        "an empty line stands before the committer",
        "commit refs/heads/main\nmark :1\n\ncommitter T <t@e> 0 +0000\ndata 2\nc0\n",
        StreamFault::Syntax { line: 3 },
    ),
    (
        "a committer has no email",
        "commit refs/heads/main\nmark :1\ncommitter T 0 +0000\ndata 2\nc0\n",
        StreamFault::Syntax { line: 3 },
    ),
    (
        "a time is in words",
        "commit refs/heads/main\nmark :1\ncommitter T <t@e> now\ndata 2\nc0\n",
        StreamFault::Unsupported { line: 3 },
    ),
    (
        "a time has 19 digits",
        "commit refs/heads/main\nmark :1\ncommitter T <t@e> 1111111111111111111 +0000\ndata 2\nc0\n",
        StreamFault::Unsupported { line: 3 },
    ),
    (
        "a zone is behind +1400",
        "commit refs/heads/main\nmark :1\ncommitter T <t@e> 0 +1401\ndata 2\nc0\n",
        StreamFault::Unsupported { line: 3 },
    ),
    (
        "a commit has a signature",
        "commit refs/heads/main\nmark :1\ncommitter T <t@e> 0 +0000\ngpgsig sha1 x\ndata 2\nc0\n",
        StreamFault::Unsupported { line: 4 },
    ),
    (
        "a commit has a second from",
        "commit refs/heads/main\nmark :1\ncommitter T <t@e> 0 +0000\ndata 2\nc0\n\
         commit refs/heads/x\ncommitter T <t@e> 0 +0000\ndata 2\nc1\nfrom :1\nfrom :1\n",
        StreamFault::Syntax { line: 11 },
    ),
    (
        "a file has no name of its content, and the from before it is unknown",
        "commit refs/heads/main\nmark :1\ncommitter T <t@e> 0 +0000\ndata 2\nc0\n\
         commit refs/heads/x\ncommitter T <t@e> 0 +0000\ndata 2\nc1\nfrom :7\nM 100644 x\n",
        StreamFault::Syntax { line: 11 },
    ),
    (
        "a file has the mode of a directory",
        "commit refs/heads/main\nmark :1\ncommitter T <t@e> 0 +0000\ndata 2\nc0\n\
         M 040000 1111111111111111111111111111111111111111 a\n",
        StreamFault::Unsupported { line: 6 },
    ),
    (
        "a file has an unknown mode",
        "commit refs/heads/main\nmark :1\ncommitter T <t@e> 0 +0000\ndata 2\nc0\n\
         M 100600 1111111111111111111111111111111111111111 a\n",
        StreamFault::Syntax { line: 6 },
    ),
    (
        "a file is copied",
        "blob\nmark :9\ndata 1\nx\n\
         commit refs/heads/main\nmark :1\ncommitter T <t@e> 0 +0000\ndata 2\nc0\n\
         M 100644 :9 a\nC a b\n",
        StreamFault::Unsupported { line: 11 },
    ),
    (
        "a tag has no from",
        "commit refs/heads/main\nmark :1\ncommitter T <t@e> 0 +0000\ndata 2\nc0\n\
         tag t\ndata 0\n",
        StreamFault::Syntax { line: 7 },
    ),
    (
        "a command is not read",
        "checkpoint\n",
        StreamFault::Unsupported { line: 1 },
    ),
    (
        "a feature is unknown",
        "feature notes\ncommit refs/heads/main\nmark :1\ncommitter T <t@e> 0 +0000\ndata 2\nc0\n",
        StreamFault::Unsupported { line: 1 },
    ),
    (
        "the line done is missing in a stream of one line",
        "feature done\n",
        StreamFault::NoDone { line: 2 },
    ),
    (
        "the line done is missing behind a commit",
        "feature done\ncommit refs/heads/main\nmark :1\ncommitter T <t@e> 0 +0000\ndata 2\nc0\n",
        StreamFault::NoDone { line: 7 },
    ),
];

#[test]
fn streams_are_refused_at_their_lines(rt: HostRuntime) -> Result<(), Fail> {
    for (shows, stream, fault) in REFUSED {
        let end = end_of(rt.alloc(), stream.as_bytes(), 65_536, Limits::standard())?;
        assert_eq!(rt; end, Some(fault), "{shows}");
    }
    Ok(())
}

// The fronts of lines that are one byte longer than the limit: of a comment and of a command.
const FRONTS: [&str; 2] = ["#", "progress "];

fn put_longer(stream: &mut Vec<u8>) -> Result<(), AllocError> {
    stream.resize(65_536, b'x')?;
    stream.extend_from_slice(b"\ncommit refs/heads/main\nmark :1\n")?;
    stream.extend_from_slice(b"committer T <t@e> 0 +0000\ndata 2\nc0\n")
}

fn end_of_longer(alloc: Global, front: &str) -> Result<Option<StreamFault>, AllocError> {
    let mut stream = Vec::from_slice(alloc, front.as_bytes())?;
    put_longer(&mut stream)?;
    end_of(alloc, stream.as_slice(), 65_536, Limits::standard())
}

#[test]
fn longer_lines_are_refused(rt: HostRuntime) -> Result<(), Fail> {
    for front in FRONTS {
        let fault = StreamFault::TooLarge { what: Limit::Line };
        assert_eq!(rt; end_of_longer(rt.alloc(), front)?, Some(fault), "{front:?}");
    }
    Ok(())
}
