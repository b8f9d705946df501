//! Whole logs, good and refused.
use bf_io::Bytes;
use bf_reading::*;
use std::process::Abort;
use std::test::Fail;

/// A log with lines of every kind, as git-bisect and people write them.
const LOG: &[u8] = b"# bad: [12] c2
git bisect start '--first-parent' '--term-new' 'slow' --term-good=fast '12' 10 --no-checkout --
# git bisect good 10
 \tgit-bisect\tskip 1'1'
git bisect
git bisectgood 10
git bisect 'it'\\''s' a\\!b\\c'' ";

/// Logs that are refused, with the line that refuses them.
const REFUSED: [(&[u8], u32); 11] = [
    (b"git bisect start 'a", 1),
    (b"git bisect good a\n\ngit bisect good 'a' '\n", 3),
    (b"git bisect \t\n", 1),
    (b"git bisect good", 1),
    (b"git bisect good a b\ngit bisect bad", 1),
    (b"git bisect -good a\n", 1),
    (b"git bisect good a\ngit bisect good -a", 2),
    (b"git bisect start a --term-new", 1),
    (b"git bisect start -x", 1),
    (b"git bisect start -- a", 1),
    (
        b"git bisect start --term-new --\ngit bisect start --term-old=\ngit bisect start --term",
        3,
    ),
];

/// Fails unless this line is a mark of this word and name.
fn assert_mark(rt: &impl Abort, line: &LogLine, number: u32, word: (&[u8], &[u8])) {
    assert_eq!(rt; line.line, number);
    match &line.word {
        LogWord::MarkWord { term, rev } => {
            assert_eq!(rt; (term.as_slice(), rev.as_slice()), word);
        }
        LogWord::Start { .. } => panic!(rt; "a start"),
    }
}

fn assert_names(rt: &impl Abort, revs: &[Bytes]) {
    let [bad, good] = revs else {
        panic!(rt; "other names");
    };
    assert_eq!(rt; bad.as_slice(), b"12".as_slice());
    assert_eq!(rt; good.as_slice(), b"10".as_slice());
}

/// Fails unless this line is the start of the log.
fn assert_start(rt: &impl Abort, line: &LogLine) {
    assert_eq!(rt; line.line, 2);
    match &line.word {
        LogWord::Start {
            first_parent,
            new,
            old,
            revs,
        } => {
            assert!(rt; *first_parent);
            assert_eq!(rt;
                new.as_ref().map(|term| term.as_slice()),
                Some(b"slow".as_slice())
            );
            assert_eq!(rt;
                old.as_ref().map(|term| term.as_slice()),
                Some(b"fast".as_slice())
            );
            assert_names(rt, revs.as_slice());
        }
        LogWord::MarkWord { .. } => panic!(rt; "a mark"),
    }
}

fn assert_lines(rt: &impl Abort, lines: &[LogLine]) {
    let [start, skip, other] = lines else {
        panic!(rt; "{} lines", lines.len());
    };
    assert_start(rt, start);
    assert_mark(rt, skip, 4, (b"skip", b"11"));
    let word: (&[u8], &[u8]) = (b"it's", b"a!b\\c");
    assert_mark(rt, other, 7, word);
}

#[test]
fn a_log_is_read(rt: HostRuntime) -> Result<(), Fail> {
    let lines = read_log(rt.alloc(), LOG)?;
    assert_lines(&rt, lines.as_slice());
    Ok(())
}

#[test]
fn logs_are_refused_at_a_line(rt: HostRuntime) {
    for (log, line) in REFUSED {
        match read_log(rt.alloc(), log) {
            Ok(_) => panic!(rt; "a log is read that is to be refused at line {line}"),
            Err(fault) => assert_eq!(rt; fault, LogFault::Line { line }),
        }
    }
}

#[test]
fn a_log_may_say_nothing(rt: HostRuntime) -> Result<(), Fail> {
    assert!(rt; read_log(rt.alloc(), b"\n\ngit  bisect good a\ngit bisect")?.is_empty());
    Ok(())
}
