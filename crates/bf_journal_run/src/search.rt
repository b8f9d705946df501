//! A search whose outcomes are kept: its journal is opened, and the tester remembers what it kept.
ghost use Rattle.std.specs.Prelude.{◌≡◌, ◌≢◌, ◌⊎◌, [], false, length, true, Err, IfOk, IfSome};
ghost use Rattle.std.specs.Option.{is_some};
ghost use Rattle.bf_answers.specs.Answers.{HasTestCause, IsCaused};
ghost use Rattle.bf_answers.specs.Devices.{KeepsManner, met_sink, met_tester};
ghost use Rattle.bf_answers.specs.Ready.{IsStarted};
ghost use Rattle.bf_answers.specs.Tellings.{begun_of};
ghost use Rattle.bf_commands.specs.Journal.{IsLeftAlone, Opens, identity_of};
ghost use Rattle.bf_commands.specs.Journal.{OpenedJournal as opened};
ghost use Rattle.bf_io.specs.Causes.{FailsOnlyAt, Rose};
ghost use Rattle.bf_journal.specs.Disk.{LeavesOnly};
ghost use Rattle.bf_journal.specs.Journal.{Fits, IsAsOpened};
ghost use Rattle.bf_journal_run.specs.Held.{IsHeldIn};
ghost use Rattle.bf_journal_run.specs.Kept.{AreLasting, answers_of};
ghost use Rattle.bf_journal_run.specs.Legs.{IsEndedKept, met_disk};
ghost use Rattle.bf_journal_run.specs.Searching.{ConcludesKept, IsRecalledIn, IsRefusedOnly, SaysKept};
ghost use Rattle.bf_output.specs.Shown.{shown_by};
ghost use Rattle.bf_searches.specs.Lines.{IsUsedToTest};
ghost use Rattle.bf_journal.specs.Recalling.{remembering};

use crate::cut::Cut;
use crate::keep::kept_answers;
use crate::legs::go_through;
use bf_answers::{Answer, RequestLine, Started, say};
use bf_import::History;
use bf_io::Sink;
use bf_journal::{Disk, Journal, JournalFault, Recall, run_identity};
use bf_output::Status;
use bf_runs::RunSettings;
use bf_searches::{begin_running, command_of};
use bf_tester::{Host, Tester};

/// Opens the journal of a run, and makes it where there is none.
fn open_journal<J: Disk>(
    line: RequestLine<'_>,
    history: &History,
    disk: &mut J,
) -> Result<Journal, JournalFault>
    ensures kept { IfOk result (λ journal. Opens (met_disk J.Disk disk.old disk.new)
        (identity_of history.now line.entry.request.now line.entry.words.now)
        (length history.now.names) (opened.Kept journal.kept)) }
    ensures other { (kept : _) → result ≡ Err (JournalFault.Mismatch kept)
        → Opens (met_disk J.Disk disk.old disk.new)
        (identity_of history.now line.entry.request.now line.entry.words.now)
        (length history.now.names) (opened.Other kept) }
    ensures untouched { (kept : _) → result ≡ Err (JournalFault.Mismatch kept)
        → J.told disk.new ≡ J.told disk.old }
    ensures alone { (kept : _) → result ≡ Err (JournalFault.Mismatch kept)
        → IfSome (J.told disk.old) (IsLeftAlone (met_disk J.Disk disk.old disk.new)) }
    ensures any_moment { IfSome (J.told disk.old) (λ bytes. LeavesOnly J.moment J.left_since
        disk.old disk.new (IsAsOpened (J.may_leave disk.old)
        (identity_of history.now line.entry.request.now line.entry.words.now)
        (length history.now.names) bytes)) }
    ensures run { let run = identity_of history.now line.entry.request.now line.entry.words.now in
        IfOk result (λ journal. journal.identity ≡ run) }
    ensures sound { IfOk result (λ journal. journal.is_sound ≡ true) }
    ensures places { IfOk result (λ journal.
        length journal.kept ≡ length history.now.parents) }
    ensures commits { IfOk result (λ journal.
        length journal.kept ≡ length history.now.names) }
    ensures fits { IfOk result (Fits J.told J.may_leave disk.new) }
    ensures told { is_some (J.told disk.new) ≡ is_some (J.told disk.old) }
    ensures failed { FailsOnlyAt JournalFault.Failed
        (J.faults disk.old) (J.faults disk.new) result }
{
    let names = history.names();
    let identity = run_identity(line.alloc, names, line.request.lenient, command_of(line))?;
    Journal::open(line.alloc, disk, identity, history.len())
}

/// Tests and keeps what a search asks for that has begun. The answer is what is left to write.
fn run_kept<R: Host, T: Tester, J: Disk, K: Sink>(
    rt: &R,
    line: RequestLine<'_>,
    started: Started,
    tester: &mut Recall<T>,
    journal: Journal,
    disk: &mut J,
    out: &mut K,
) -> Result<Answer, Cut>
    requires started { IsStarted started }
    requires fresh { tester.old.answers ≡ [] }
    requires remembers { tester.old.remembered
        ≡ answers_of started.history.names journal.kept }
    requires commits { length started.history.names ≡ length journal.kept }
    requires is_split { T.is_split tester.old.inner ≡ false }
    requires len { length journal.kept ≡ length started.history.parents }
    requires sound { journal.is_sound ≡ true }
    requires fits { Fits J.told J.may_leave disk.old journal }
    ensures told { let tested = shown_by ⟦<Recall<T> as Tester>⟧ tester.new in
        IsEndedKept (AreLasting J.Disk disk.old disk.new journal started.history.names
        tested journal.kept) (met_disk J.Disk disk.old disk.new) line.entry.request.now
        tested started.history (begun_of started.first) (K.held out.old) (K.held out.new) result }
    ensures cause { IfOk result
        (IsCaused true (met_tester ⟦<Recall<T> as Tester>⟧ tester.old tester.new)) }
    ensures write { FailsOnlyAt Cut.Output (K.faults out.old) (K.faults out.new) result }
    ensures failed { FailsOnlyAt Cut.Journal (J.faults disk.old) (J.faults disk.new) result }
    ensures manner { KeepsManner ⟦<Recall<T> as Tester>⟧ tester.old tester.new }
    ensures is_split { T.is_split tester.new.inner ≡ false }
    ensures told_disk { is_some (J.told disk.new) ≡ is_some (J.told disk.old) }
{
    let Started {
        history,
        reach,
        first,
        ..
    } = started;
    let search = RunSettings {
        history: &history,
        reach: &reach,
        workers: line.request.workers,
        leg: line.request.leg,
    };
    let running = begin_running(line, &history, first)?;
    go_through(rt, search, running, tester, journal, disk, out)
}

/// Tests and keeps what a search asks for: the tester first remembers what the journal kept, and takes the command.
fn search_kept<R: Host, T: Tester, J: Disk, K: Sink>(
    rt: &R,
    line: RequestLine<'_>,
    started: Started,
    tester: &mut Recall<T>,
    journal: Journal,
    disk: &mut J,
    out: &mut K,
) -> Result<Answer, Cut>
    requires started { IsStarted started }
    requires fresh { tester.old.answers ≡ [] }
    requires remembers { tester.old.remembered ≡ [] }
    requires is_split { T.is_split tester.old.inner ≡ false }
    requires len { length journal.kept ≡ length started.history.parents }
    requires sound { journal.is_sound ≡ true }
    requires fits { Fits J.told J.may_leave disk.old journal }
    ensures told { let tested = shown_by ⟦<Recall<T> as Tester>⟧ tester.new in
        IsEndedKept (AreLasting J.Disk disk.old disk.new journal started.history.names
        tested journal.kept) (met_disk J.Disk disk.old disk.new) line.entry.request.now
        tested started.history (begun_of started.first) (K.held out.old) (K.held out.new) result }
    ensures cause { IfOk result
        (IsCaused true (met_tester ⟦<Recall<T> as Tester>⟧ tester.old tester.new)) }
    ensures write { FailsOnlyAt Cut.Output (K.faults out.old) (K.faults out.new) result }
    ensures failed { FailsOnlyAt Cut.Journal (J.faults disk.old) (J.faults disk.new) result }
    ensures used { IsUsedToTest line.entry (met_tester ⟦<Recall<T> as Tester>⟧
        (remembering tester.old tester.new.remembered) tester.new) }
    ensures recalled { (tester.new ≡ tester.old)
        ⊎ (tester.new.remembered ≡ answers_of started.history.names journal.kept) }
    ensures is_split { T.is_split tester.new.inner ≡ false }
    ensures told_disk { is_some (J.told disk.new) ≡ is_some (J.told disk.old) }
{
    let history = &started.history;
    let kept = kept_answers(line.alloc, &journal, history.names(), history.len())?;
    tester.remember(kept.as_slice())?;
    tester.prepare(command_of(line), line.request.lenient)?;
    run_kept(rt, line, started, tester, journal, disk, out)
}

/// Writes the answer of a kept run, or what cut it short, and returns the status.
fn say_kept<K: Sink>(out: &mut K, answer: Result<Answer, Cut>) -> Status
    requires whole { IfOk answer (λ a. a.status ≢ Status.WriteFault) }
    ensures told { SaysKept answer (met_sink K.Sink out.old out.new) result }
    ensures unwritten { answer ≡ Err Cut.Output → out.new ≡ out.old }
    ensures write { result ≡ Status.WriteFault
        → (answer ≡ Err Cut.Output) ⊎ Rose (K.faults out.old) (K.faults out.new) }
{
    match answer {
        Ok(answer) => say(out, answer.text.as_slice(), answer.status),
        Err(Cut::Journal) => say(out, b"journal fault\n", Status::JournalFault),
        Err(Cut::Output) => Status::WriteFault,
        Err(Cut::NoMemory) => Status::NoMemory,
    }
}

/// Opens the journal of a search, tests and keeps what it asks for, writes what it tells, and returns its status.
pub(crate) fn search<R: Host, T: Tester, J: Disk, K: Sink>(
    rt: &R,
    line: RequestLine<'_>,
    started: Started,
    tester: &mut Recall<T>,
    disk: &mut J,
    out: &mut K,
) -> Status
    requires started { IsStarted started }
    requires fresh { tester.old.answers ≡ [] }
    requires remembers { tester.old.remembered ≡ [] }
    requires is_split { T.is_split tester.old.inner ≡ false }
    ensures told { ConcludesKept (met_disk J.Disk disk.old disk.new) line.entry started
        (met_tester ⟦<Recall<T> as Tester>⟧ tester.old tester.new)
        (met_sink K.Sink out.old out.new) result }
    ensures own { (result ≢ Status.ReadFault) × (result ≢ Status.ShelfFault) }
    ensures test { HasTestCause true
        (met_tester ⟦<Recall<T> as Tester>⟧ tester.old tester.new) result }
    ensures write { result ≡ Status.WriteFault → Rose (K.faults out.old) (K.faults out.new) }
    ensures disk { result ≡ Status.JournalFault → Rose (J.faults disk.old) (J.faults disk.new) }
    ensures refused { IsRefusedOnly result (J.told disk.new ≡ J.told disk.old) }
    ensures used { IsUsedToTest line.entry (met_tester ⟦<Recall<T> as Tester>⟧
        (remembering tester.old tester.new.remembered) tester.new) }
    ensures recalled { IsRecalledIn (met_disk J.Disk disk.old disk.new) line.entry started.history
        tester.new.answers tester.new.remembered }
    ensures held { IsHeldIn (met_disk J.Disk disk.old disk.new) line.entry started.history
        tester.new.answers }
    ensures is_split { T.is_split tester.new.inner ≡ false }
{
    match open_journal(line, &started.history, disk) {
        Ok(journal) => {
            let answer = search_kept(rt, line, started, tester, journal, disk, out);
            say_kept(out, answer)
        }
        Err(JournalFault::Mismatch { kept }) => {
            say(
                out,
                b"journal of another run\n",
                Status::JournalRefused { kept },
            )
        }
        Err(JournalFault::Failed) => say(out, b"journal fault\n", Status::JournalFault),
        Err(JournalFault::NoMemory) => Status::NoMemory,
    }
}
