//! What `check` answers to texts, each a list of lines.
use crate::calls::{checked, checked_without};
use crate::streams::{EIGHT, FORK};
use bf_io::{Bytes, put_decimal};
use bf_output::{Status, StreamKind};
use std::alloc::{AllocError, Global};
use std::test::Fail;

pub(crate) const VERSION: &[u8] = b"certificate 1\n";

pub(crate) const BAD: &[u8] = b"bad f570778fec974dd2b05ee862e235ff38a61118d3\n";

pub(crate) const GOOD: &[u8] = b"good cf280beb8e59855da6095186b2544590849cd8dd\n";

pub(crate) const REACH: &[u8] =
    b"reach 56b29d9c130e2ec4b506a48d4fe5a18d92d8d1e3 from cf280beb8e59855da6095186b2544590849cd8dd\n";

pub(crate) const END: &[u8] = b"end\n";

/// The lines of certificates that hold over the fork, and the answer.
const HELD: [(&[&[u8]], &[u8]); 8] = [
    (
        &[VERSION, BAD, GOOD, REACH, END],
        b"certificate holds for f570778fec974dd2b05ee862e235ff38a61118d3\n",
    ),
    (
        &[VERSION, BAD, GOOD, GOOD, REACH, END],
        b"certificate holds for f570778fec974dd2b05ee862e235ff38a61118d3\n",
    ),
    (
        &[VERSION, BAD, GOOD, REACH, REACH, END],
        b"certificate holds for f570778fec974dd2b05ee862e235ff38a61118d3\n",
    ),
    (
        &[
            VERSION,
            b"bad 56b29d9c130e2ec4b506a48d4fe5a18d92d8d1e3\n",
            END,
        ],
        b"certificate holds for 56b29d9c130e2ec4b506a48d4fe5a18d92d8d1e3\n",
    ),
    (
        &[
            VERSION,
            b"bad 56b29d9c130e2ec4b506a48d4fe5a18d92d8d1e3\n",
            b"first-parent\n",
            END,
        ],
        b"certificate holds for 56b29d9c130e2ec4b506a48d4fe5a18d92d8d1e3\n",
    ),
    (
        &[VERSION, BAD, b"first-parent\n", GOOD, REACH, END],
        b"certificate holds for f570778fec974dd2b05ee862e235ff38a61118d3\n",
    ),
    (
        &[
            VERSION,
            BAD,
            b"good 56b29d9c130e2ec4b506a48d4fe5a18d92d8d1e3\n",
            END,
        ],
        b"certificate holds for f570778fec974dd2b05ee862e235ff38a61118d3\n",
    ),
    (
        &[
            VERSION,
            BAD,
            b"good f570778fec974dd2b05ee862e235ff38a61118d3\n",
            b"reach 56b29d9c130e2ec4b506a48d4fe5a18d92d8d1e3 from f570778fec974dd2b05ee862e235ff38a61118d3\n",
            END,
        ],
        b"certificate holds for f570778fec974dd2b05ee862e235ff38a61118d3\n",
    ),
];

/// The lines of texts that are none, and the line at fault.
const REFUSED: [(&[&[u8]], u32); 43] = [
    // A line is left out.
    (&[BAD, GOOD, REACH, END], 1),
    (&[VERSION, GOOD, REACH, END], 2),
    (&[VERSION, BAD, REACH, END], 3),
    (&[VERSION, BAD, GOOD, END], 4),
    (&[VERSION, BAD, GOOD, REACH], 5),
    // A line stands twice.
    (&[VERSION, VERSION, BAD, GOOD, REACH, END], 2),
    (&[VERSION, BAD, BAD, GOOD, REACH, END], 3),
    (&[VERSION, BAD, GOOD, REACH, END, END], 6),
    // A line stands before the one that it follows.
    (&[BAD, VERSION, GOOD, REACH, END], 1),
    (&[VERSION, GOOD, BAD, REACH, END], 2),
    (&[VERSION, BAD, REACH, GOOD, END], 3),
    (&[VERSION, BAD, GOOD, END, REACH], 4),
    (&[VERSION, BAD, GOOD, REACH, GOOD, END], 5),
    (&[VERSION, BAD, GOOD, b"first-parent\n", REACH, END], 4),
    // A line is cut short.
    (&[b"certificate\n", BAD, GOOD, REACH, END], 1),
    (
        &[
            VERSION,
            b"bad f570778fec974dd2b05ee862e235ff38a61118d\n",
            GOOD,
            REACH,
            END,
        ],
        2,
    ),
    (
        &[
            VERSION,
            BAD,
            b"good cf280beb8e59855da6095186b2544590849cd8d\n",
            REACH,
            END,
        ],
        3,
    ),
    (
        &[
            VERSION,
            BAD,
            GOOD,
            b"reach 56b29d9c130e2ec4b506a48d4fe5a18d92d8d1e3 from cf280beb8e59855da6095186b2544590849cd8d\n",
            END,
        ],
        4,
    ),
    (
        &[
            VERSION,
            BAD,
            GOOD,
            b"reach 56b29d9c130e2ec4b506a48d4fe5a18d92d8d1e3\n",
            END,
        ],
        4,
    ),
    (&[VERSION, BAD, GOOD, REACH, b"en\n"], 5),
    (&[VERSION, BAD, GOOD, REACH, b"end"], 5),
    (&[VERSION, BAD, GOOD, REACH, b"\n", END], 5),
    // A line is longer.
    (&[b"certificate 1 \n", BAD, GOOD, REACH, END], 1),
    (
        &[
            VERSION,
            b"bad f570778fec974dd2b05ee862e235ff38a61118d30\n",
            GOOD,
            REACH,
            END,
        ],
        2,
    ),
    (
        &[
            VERSION,
            BAD,
            b"good cf280beb8e59855da6095186b2544590849cd8dd \n",
            REACH,
            END,
        ],
        3,
    ),
    (
        &[
            VERSION,
            BAD,
            GOOD,
            b"reach 56b29d9c130e2ec4b506a48d4fe5a18d92d8d1e3 from  cf280beb8e59855da6095186b2544590849cd8dd\n",
            END,
        ],
        4,
    ),
    (&[VERSION, BAD, GOOD, REACH, b"end \n"], 5),
    (&[VERSION, BAD, GOOD, REACH, b"end\r\n"], 5),
    // A line has another digit.
    (&[b"certificate 2\n", BAD, GOOD, REACH, END], 1),
    (
        &[
            VERSION,
            b"bad e570778fec974dd2b05ee862e235ff38a61118d3\n",
            GOOD,
            REACH,
            END,
        ],
        2,
    ),
    (
        &[
            VERSION,
            BAD,
            b"good df280beb8e59855da6095186b2544590849cd8dd\n",
            REACH,
            END,
        ],
        3,
    ),
    (
        &[
            VERSION,
            BAD,
            GOOD,
            b"reach 66b29d9c130e2ec4b506a48d4fe5a18d92d8d1e3 from cf280beb8e59855da6095186b2544590849cd8dd\n",
            END,
        ],
        4,
    ),
    (
        &[
            VERSION,
            BAD,
            GOOD,
            b"reach 56b29d9c130e2ec4b506a48d4fe5a18d92d8d1e3 from cf280beb8e59855da6095186b2544590849cd8de\n",
            END,
        ],
        4,
    ),
    (
        &[
            VERSION,
            b"bad F570778FEC974DD2B05EE862E235FF38A61118D3\n",
            GOOD,
            REACH,
            END,
        ],
        2,
    ),
    // A line is no step.
    (
        &[
            VERSION,
            BAD,
            GOOD,
            b"reach f570778fec974dd2b05ee862e235ff38a61118d3 from cf280beb8e59855da6095186b2544590849cd8dd\n",
            END,
        ],
        4,
    ),
    (
        &[
            VERSION,
            BAD,
            GOOD,
            b"reach 56b29d9c130e2ec4b506a48d4fe5a18d92d8d1e3 from f570778fec974dd2b05ee862e235ff38a61118d3\n",
            END,
        ],
        4,
    ),
    (
        &[
            VERSION,
            BAD,
            GOOD,
            b"reach cf280beb8e59855da6095186b2544590849cd8dd from 56b29d9c130e2ec4b506a48d4fe5a18d92d8d1e3\n",
            END,
        ],
        4,
    ),
    (&[VERSION, BAD, b"first-parent\n", GOOD, END], 5),
    (&[VERSION, BAD, END], 3),
    // No line, and one of another kind.
    (&[], 1),
    (&[b"certificate 1"], 1),
    (&[b"\n"], 1),
    (&[VERSION], 2),
];

/// The text of these lines.
pub(crate) fn joined(alloc: Global, lines: &[&[u8]]) -> Result<Bytes, AllocError> {
    let mut text = Bytes::new(alloc);
    for line in lines {
        text.append(line)?;
    }
    Ok(text)
}

/// The line that names the line at fault.
fn refusal_at(alloc: Global, line: u32) -> Result<Bytes, AllocError> {
    let mut text = Bytes::from_slice(alloc, b"certificate fails at line ")?;
    put_decimal(&mut text, u64::from(line))?;
    text.append(b"\n")?;
    Ok(text)
}

/// Whether a text is refused at this line.
pub(crate) fn is_refused(
    alloc: Global,
    stream: &[u8],
    lines: &[&[u8]],
    line: u32,
) -> Result<bool, AllocError> {
    let answered = checked(alloc, stream, joined(alloc, lines)?)?;
    let expected = refusal_at(alloc, line)?;
    Ok(answered.is(Status::CertRefused { line }, expected.as_slice()))
}

#[test]
fn texts_that_hold(rt: HostRuntime) -> Result<(), Fail> {
    for &(lines, text) in &HELD {
        let answered = checked(rt.alloc(), FORK, joined(rt.alloc(), lines)?)?;
        assert!(rt; answered.is(Status::Done, text), "{lines:?}");
    }
    Ok(())
}

#[test]
fn lines_at_fault(rt: HostRuntime) -> Result<(), Fail> {
    for &(lines, line) in &REFUSED {
        assert!(rt; is_refused(rt.alloc(), FORK, lines, line)?, "{lines:?}");
    }
    // A certificate of another history.
    assert!(rt; is_refused(rt.alloc(), EIGHT, &[VERSION, BAD, GOOD, REACH, END], 3)?);
    Ok(())
}

#[test]
fn words_streams_and_files(rt: HostRuntime) -> Result<(), Fail> {
    let alloc = rt.alloc();
    let usage = checked_without(alloc, &[b"check"], FORK)?;
    assert!(rt; usage.is(Status::Usage { word: 1 }, b"usage fault at word 1\n"));
    let usage = checked_without(alloc, &[b"check", b"a", b"b"], FORK)?;
    assert!(rt; usage.is(Status::Usage { word: 2 }, b"usage fault at word 2\n"));
    let missing = checked_without(alloc, &[b"check", b"a"], FORK)?;
    assert!(rt; missing.is(Status::NoFile, b"no such file\n"));
    let stream = checked_without(alloc, &[b"check", b"a"], b"checkpoint")?;
    let (line, kind) = (1, StreamKind::Unsupported);
    let text = b"stream refused at line 1: unsupported\n";
    assert!(rt; stream.is(Status::StreamRefused { line, kind }, text));
    Ok(())
}
