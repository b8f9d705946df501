//! Replays of small logs over a fork: `a`, and `b` and `c` that both come from it.
ghost use Rattle.std.specs.Prelude.{◌≡◌, ◌<◌, length};

use bf_import::{History, ImportFault, Limits, import};
use bf_io::{Bytes, MemSource, put_decimal};
use bf_names::NameFault;
use bf_reach::Reach;
use bf_reading::read_log;
use bf_replay::{ReplayFault, Replayed, replay};
use bf_search::{Entry, Mark};
use bf_state::State;
use std::alloc::{AllocError, Global};
use std::process::Abort;
use std::test::Fail;

fn fork(alloc: Global) -> Result<History, ImportFault> {
    let mut source = MemSource::new(Bytes::from_slice(alloc, FORK)?, 4096, Vec::new(alloc));
    import(alloc, &mut source, Limits::standard())
}

// The entries that a log led to, the places that the state knows, and the terms.
fn described(alloc: Global, replayed: &Replayed) -> Result<Bytes, AllocError> {
    let mut out = Bytes::new(alloc);
    put_entries(&mut out, replayed.entries.as_slice())?;
    put_state(&mut out, &replayed.state)?;
    Ok(out)
}

fn put_entries(out: &mut Bytes, entries: &[Entry]) -> Result<(), AllocError> {
    for entry in entries {
        put_entry(out, entry)?;
        out.push(b'\n')?;
    }
    Ok(())
}

fn put_state(out: &mut Bytes, state: &State) -> Result<(), AllocError> {
    put_ends(out, b"ends", state.bad, state.goods.as_slice())?;
    out.push(b'\n')?;
    out.append(state.terms.new_term())?;
    out.push(b'/')?;
    out.append(state.terms.old_term())?;
    if state.terms_open {
        out.append(b" open")?;
    }
    if state.first_parent {
        out.append(b" by first parents")?;
    }
    Ok(())
}

fn put_entry(out: &mut Bytes, entry: &Entry) -> Result<(), AllocError> {
    match entry {
        Entry::Start { bad, goods, .. } => put_ends(out, b"start", *bad, goods.as_slice()),
        Entry::Marked { mark, place } => put_places(out, word_of(*mark), &[*place]),
        Entry::SkippedBase { place } => put_places(out, b"skipped base", &[*place]),
        Entry::FirstBadFound { .. } | Entry::OnlySkippedLeft { .. } => out.append(b"an end"),
    }
}

fn word_of(mark: Mark) -> &'static [u8] {
    match mark {
        Mark::Good => b"good",
        Mark::Bad => b"bad",
        Mark::Skip => b"skip",
    }
}

fn put_ends(
    out: &mut Bytes,
    word: &[u8],
    bad: Option<u32>,
    goods: &[u32],
) -> Result<(), AllocError> {
    out.append(word)?;
    if let Some(bad) = bad {
        put_places(out, b"", &[bad])?;
    }
    put_places(out, b"", goods)
}

fn put_places(out: &mut Bytes, word: &[u8], places: &[u32]) -> Result<(), AllocError> {
    out.append(word)?;
    for place in places {
        out.push(b' ')?;
        put_decimal(out, u64::from(*place))?;
    }
    Ok(())
}

fn refused() -> &'static [(&'static [u8], ReplayFault)] {
    &REFUSED
}

fn replayed() -> &'static [(&'static [u8], &'static [u8])] {
    &REPLAYED
}

/// What a log leads to, or why it leads to nothing.
fn told(
    alloc: Global,
    history: &History,
    reach: &Reach,
    log: &[u8],
) -> Result<Result<Bytes, ReplayFault>, Fail>
    requires reach { reach.now ≡ history.now.parents }
    requires most { length log.now < 1000 }
{
    let lines = read_log(alloc, log)?;
    match replay(alloc, history, reach, lines.as_slice()) {
        Ok(found) => Ok(Ok(described(alloc, &found)?)),
        Err(fault) => Ok(Err(fault)),
    }
}

// The history and the reach stand apart from the loops over the tables: what a function owns is dropped on each of
// its ways out, and each drop is a step of its proof.
fn lead_to_states(
    rt: &impl Abort,
    alloc: Global,
    history: &History,
    reach: &Reach,
) -> Result<(), Fail>
    requires { reach.now ≡ history.now.parents }
{
    for &(log, text) in replayed() {
        assert!(rt; log.len() < 1000);
        match told(alloc, history, reach, log)? {
            Ok(found) => assert_eq!(rt; found.as_slice(), text),
            Err(fault) => panic!(rt; "refused: {fault:?}"),
        }
    }
    Ok(())
}

fn lead_to_none(
    rt: &impl Abort,
    alloc: Global,
    history: &History,
    reach: &Reach,
) -> Result<(), Fail>
    requires { reach.now ≡ history.now.parents }
{
    for &(log, fault) in refused() {
        assert!(rt; log.len() < 1000);
        match told(alloc, history, reach, log)? {
            Ok(_) => panic!(rt; "no refusal {fault:?}"),
            Err(found) => assert_eq!(rt; found, fault),
        }
    }
    Ok(())
}

fn lead_as_told(
    rt: &impl Abort,
    alloc: Global,
    history: &History,
    reach: &Reach,
) -> Result<(), Fail>
    requires { reach.now ≡ history.now.parents }
{
    lead_to_states(rt, alloc, history, reach)?;
    lead_to_none(rt, alloc, history, reach)
}

#[test]
fn logs_lead_to_states_or_are_refused(rt: HostRuntime) -> Result<(), Fail> {
    let alloc = rt.alloc();
    let history = fork(alloc)?;
    let reach = Reach::build(alloc, history.graph())?;
    lead_as_told(&rt, alloc, &history, &reach)
}

// A history of three commits.
const FORK: &[u8] = b"\
commit refs/heads/a
mark :1
committer T <t@e> 0 +0000
data 2
c0
commit refs/heads/b
mark :2
committer T <t@e> 1 +0000
data 2
c1
from :1
commit refs/heads/c
committer T <t@e> 2 +0000
data 2
c2
from :1
";

// Logs, with what they lead to.
static REPLAYED: [(&[u8], &[u8]); 5] = [
    (
        b"git bisect start b c\ngit bisect skip a\ngit bisect good c~1\n",
        b"start 1 2\nskip 0\nskipped base 0\ngood 0\nends 1 2 0\nbad/good",
    ),
    (
        b"git bisect start\ngit bisect skip a\ngit bisect new b\ngit bisect old c",
        b"start\nskip 0\nbad 1\ngood 2\nends 1 2\nnew/old",
    ),
    (
        b"git bisect start\n# good: [a] c0\ngit bisect skip a",
        b"start\nskip 0\nends\nbad/good open",
    ),
    (
        b"git bisect start b a\ngit bisect skip a\ngit bisect start --first-parent c b b",
        b"start 2 1\nends 2 1\nbad/good by first parents",
    ),
    (
        b"git bisect start --term-new slow\ngit bisect good a\ngit bisect slow b",
        b"start\ngood 0\nbad 1\nends 1 0\nslow/good",
    ),
];

// Logs that lead to no state, and why.
static REFUSED: [(&[u8], ReplayFault); 10] = [
    (b"", ReplayFault::NotStarted { line: 1 }),
    (
        b"# a log\ngit bisect good a",
        ReplayFault::NotStarted { line: 2 },
    ),
    (
        b"git bisect start b\n\ngit bisect good x\n",
        ReplayFault::Name {
            line: 3,
            fault: NameFault::Unknown,
        },
    ),
    (
        b"git bisect start b a^2",
        ReplayFault::Name {
            line: 1,
            fault: NameFault::NoParent,
        },
    ),
    (
        b"git bisect start --term-new=good x",
        ReplayFault::Term { line: 1 },
    ),
    (
        b"git bisect start --term-old= b",
        ReplayFault::Term { line: 1 },
    ),
    (
        b"git bisect start\ngit bisect bad b\ngit bisect old c",
        ReplayFault::Term { line: 3 },
    ),
    (
        b"git bisect start b\ngit bisect new b",
        ReplayFault::Term { line: 2 },
    ),
    (
        b"git bisect start b\ngit bisect fine x",
        ReplayFault::Term { line: 2 },
    ),
    (
        b"git bisect start --term-new=slow --term-old=fast\ngit bisect bad b",
        ReplayFault::Term { line: 2 },
    ),
];
