//! Two commands search over one history, and share workers.
ghost use Rattle.std.specs.Prelude.{◌≡◌, ◌≤◌, false, length, All, IfOk};
ghost use Rattle.bf_examples.specs.Searches.{AreFresh, IsFresh};
ghost use Rattle.bf_many.specs.Teams.{AreWhole};

use crate::line::{history, stream};
use bf_core::Core;
use bf_import::History;
use bf_io::{Bytes, Word};
use bf_many::{ManyCase, ReadySearch, run_shared};
use bf_names::{NameFault, resolve};
use bf_oid::oid_hex;
use bf_reach::Reach;
use bf_search::Ending;
use bf_spec::Table;
use bf_state::State;
use bf_terms::Terms;
use bf_tester::{ProcessTester, Tester};
use std::alloc::{AllocError, Global};
use std::process::{Processes, SystemProcess};
use std::sync::Wait;
use std::test::Fail;
use std::thread::Threads;
use std::time::Clock;

/// A tester that starts a script of a shell, in which `$0` is the name of the commit.
fn tester_of(alloc: Global, script: &[u8]) -> Result<ProcessTester, AllocError>
    ensures { IfOk result (λ tester. ⟦<ProcessTester as Tester>⟧.is_split tester ≡ false) }
{
    let mut words = Vec::new(alloc);
    words.push(Bytes::from_slice(alloc, b"sh")?)?;
    words.push(Bytes::from_slice(alloc, b"-c")?)?;
    words.push(Bytes::from_slice(alloc, script)?)?;
    let mut tester = ProcessTester::new(alloc).silent();
    tester.prepare(words.as_slice(), false)?;
    Ok(tester)
}

/// The search between the commits `main` and `old`, of which no outcome is known.
fn search(alloc: Global, history: &History) -> Result<ReadySearch, NameFault>
    ensures { IfOk result (IsFresh (length history.now.parents)) }
{
    let bad = resolve(alloc, history, b"main")?;
    let good = resolve(alloc, history, b"old")?;
    let terms = Terms::standard(alloc)?;
    let len = history.len();
    let state = State::new(alloc, len, terms, false, false, Some(bad), &[good])?;
    let table = Table::new(alloc, len)?;
    Ok(ReadySearch { state, table })
}

/// Two such searches.
fn two(alloc: Global, history: &History) -> Result<Vec<ReadySearch>, NameFault>
    ensures { IfOk result (λ searches. AreFresh (length history.now.parents) searches.items) }
{
    let first = search(alloc, history)?;
    let second = search(alloc, history)?;
    let mut searches = Vec::new(alloc);
    searches.push(first)?;
    searches.push(second)?;
    Ok(searches)
}

/// Adds what a search found with these outcomes.
fn add_found(
    alloc: Global,
    history: &History,
    reach: &Reach,
    table: Table,
    text: &mut Bytes,
) -> Result<(), NameFault>
    requires reach { reach.now ≡ history.now.parents }
    requires table { length table ≡ length history.now.parents }
{
    let ReadySearch { state, .. } = search(alloc, history)?;
    let core = Core::start(alloc, reach, state, table, 0)?;
    let Some(Ending::FirstBad(place)) = core.ending() else {
        return Ok(());
    };
    if let Some(name) = history.names().get(*place as usize) {
        let mut digits = [0; 40];
        oid_hex(*name, &mut digits);
        text.append(&digits)?;
        text.append(b" is the first bad commit\n")?;
    }
    Ok(())
}

/// What two testers find, by so many workers.
fn found_by<R, T>(
    rt: &R,
    alloc: Global,
    history: &History,
    workers: u32,
    testers: &mut [T],
) -> Result<Bytes, NameFault>
where
    R: Threads + Wait + Processes<Started = SystemProcess> + Clock + Eprint + Sync,
    T: Tester,
    requires some { 1 ≤ workers }
    requires most { workers ≤ 64 }
    requires two { length testers.old ≡ 2 }
    requires is_split { AreWhole T.Tester testers.old }
{
    let reach = Reach::build(alloc, history.graph())?;
    let case = ManyCase {
        reach: &reach,
        names: history.names(),
        searches: two(alloc, history)?,
    };
    let shared = run_shared(rt, alloc, case, workers, testers)?;
    let mut text = Bytes::new(alloc);
    for table in shared.tables {
        add_found(alloc, history, &reach, table, &mut text)?;
    }
    Ok(text)
}

static FOUND: &[u8] = b"\
771edca49728d8c78d5b371976ec2debc7c92b35 is the first bad commit
2a83eb598262042db81ddad6b0c3b6c0d200c521 is the first bad commit
";

fn found() -> &'static [u8] {
    FOUND
}

#[test]
fn two_commands_share_four_workers(rt: HostRuntime) -> Result<(), Fail> {
    let alloc = rt.alloc();
    let history = history(alloc, stream())?;
    let mut testers = Vec::new(alloc);
    testers.push(tester_of(alloc, b"case $0 in 771e*) exit 1; esac")?)?;
    testers.push(tester_of(alloc, b"case $0 in 771e* | 2a83*) exit 1; esac")?)?;
    let text = found_by(&rt, alloc, &history, 4, testers.as_mut_slice())?;
    assert_eq!(rt; text.as_slice(), found());
    Ok(())
}
