//! A tester that starts a command.
ghost use Rattle.std.specs.Prelude.{◌≡◌, ℕ, ◌≤◌, ◌++◌, true, false, List, [], None, IfOk, OnOk, IfErr};
ghost use Rattle.bf_search.specs.declared.outcomes.Outcome.{Outcome};
ghost use Rattle.bf_tester.specs.declared.answer.Answer.{Answer};
ghost use Rattle.bf_tester.specs.Grounds.{Ground};
ghost use Rattle.bf_tester.specs.Looks.{SawRaised};
ghost use Rattle.bf_tester.specs.Replies.{is_dropped};
ghost use Rattle.bf_tester.specs.Shown.{ShowsSame};
ghost use Rattle.bf_tester.specs.Tests.{NotesReply, HasCauseOf, KeepsManner, KeepsFaults, AreOfOneKind, tested_after, tested_by};
ghost use Rattle.bf_tester.specs.Waits.{DropsByLooks, LooksOn, is_withdrawn};

use crate::answer::{Answer, TestReply, Tested};
use crate::host::Host;
use crate::notes::Notes;
use crate::plan::read;
use crate::stop::StopView;
use crate::tester::Tester;
use crate::waiting::{wait_alone, wait_for};
use bf_io::Word;
use bf_oid::{Oid, oid_hex};
use bf_search::Outcome;
use std::alloc::{AllocError, Global};
use std::process::{Command, ExitStatus, Processes, Stdio};
use std::sync::Wait;
use std::time::Clock;

/// Why a test by a command could not be made.
pub(crate) enum RunFault {
    /// It could not be started or waited for. Where the system would not start it, this is the number of its
    /// reason.
    Failed(Option<i32>),
    /// Memory ran out.
    NoMemory,
}

impl From<AllocError> for RunFault {
    fn from(_error: AllocError) -> RunFault {
        RunFault::NoMemory
    }
}

/// A tester that starts its command with the 40 digits of the commit's name as the last argument, and
/// waits for it. The command has a null standard input and output, and inherits the standard error. Where the
/// request is withdrawn meanwhile the command is asked to end, and after ten seconds it is killed; what it has
/// started is its own to end. A tester that is patient ends no command.
#[derive(Drop)]
pub struct ProcessTester {
    alloc: Global,
    notes: Notes,
    tested: Vec<Tested>,
    faults: u64,
    failed: Option<u32>,
    refusal: Option<i32>,
    is_silent: bool,
    is_patient: bool,
}

impl ProcessTester {
    /// A tester that tells the start and the end of each test in a line on the standard error. A line that
    /// cannot be written is passed over.
    pub fn new(alloc: Global) -> ProcessTester
        ensures told { ⟦<ProcessTester as Tester>⟧.told result ≡ None }
        ensures answers { ⟦<ProcessTester as Tester>⟧.answers result ≡ [] }
        ensures command { ⟦<ProcessTester as Tester>⟧.command result ≡ [] }
        ensures faults { ⟦<ProcessTester as Tester>⟧.faults result ≡ 0 }
        ensures failed { ⟦<ProcessTester as Tester>⟧.failed result ≡ None }
        ensures is_split { ⟦<ProcessTester as Tester>⟧.is_split result ≡ false }
        ensures is_lenient { ⟦<ProcessTester as Tester>⟧.is_lenient result ≡ false }
        ensures tested { tested_by result ≡ [] }
    {
        ProcessTester {
            alloc,
            notes: Notes::new(alloc),
            tested: Vec::new(alloc),
            faults: 0,
            failed: None,
            refusal: None,
            is_silent: false,
            is_patient: false,
        }
    }

    /// The same tester, which tells nothing from now on.
    pub fn silent(self) -> ProcessTester
        ensures told { ⟦<ProcessTester as Tester>⟧.told result ≡ None }
        ensures shown { ShowsSame ⟦<ProcessTester as Tester>⟧ self result }
        ensures tested { tested_by result ≡ tested_by self }
    {
        ProcessTester {
            is_silent: true,
            ..self
        }
    }

    /// The same tester, which waits for each command from now on, also where its request is withdrawn.
    pub fn patient(self) -> ProcessTester
        ensures told { ⟦<ProcessTester as Tester>⟧.told result ≡ None }
        ensures shown { ShowsSame ⟦<ProcessTester as Tester>⟧ self result }
        ensures tested { tested_by result ≡ tested_by self }
    {
        ProcessTester {
            is_patient: true,
            ..self
        }
    }

    /// The first word of the command, empty where there is none.
    pub fn program(&self) -> &[u8] {
        match self.notes.command().first() {
            Some(word) => word.as_slice(),
            None => b"",
        }
    }

    /// The number of the reason for which the system would not start the command of the latest test that
    /// failed, where that is why it failed.
    pub fn refusal(&self) -> Option<i32> {
        self.refusal
    }

    /// The allocator that the tester grows by.
    pub fn allocator(&self) -> Global {
        self.alloc
    }

    /// Tests as `test` does, in a folder that has the files of the tree of this name: the command gets the
    /// folder's name and the commit's as its last two arguments. A test that was done is also noted with
    /// its tree. Once a test was dropped its command has ended, unless the system refused to end it.
    #[tactic(auto, using(crate::proofs::Looking::looks_and_more, crate::proofs::Looking::looks_saw))]
    pub fn test_with<R: Wait + Processes + Clock + Eprint>(
        &mut self,
        rt: &R,
        place: u32,
        name: Oid,
        folder: &[u8],
        tree: Oid,
        stop: &mut StopView<'_>,
    ) -> TestReply
        ensures noted { NotesReply ⟦<ProcessTester as Tester>⟧ self.old self.new place name result }
        ensures tested { tested_by self.new ≡ tested_after result (tested_by self.old) place tree }
        ensures looked { DropsByLooks stop.old stop.new result }
        ensures dropped { result ≡ TestReply.Dropped → SawRaised stop.new }
        ensures bare { stop.new.bare ≡ stop.old.bare }
        ensures cause { HasCauseOf ⟦<ProcessTester as Tester>⟧ self.old self.new result }
        ensures manner { KeepsManner ⟦<ProcessTester as Tester>⟧ self.old self.new }
    {
        if stop.raised() {
            return TestReply::Dropped;
        }
        // Room first, so that a test is noted with its tree or not at all.
        if self.tested.reserve(1).is_err() {
            return TestReply::NoMemory;
        }
        let reply = self.test_on(rt, place, name, Some(folder), stop);
        if let TestReply::Done(_) = reply {
            self.tested.push_reserved(Tested { place, tree });
        }
        reply
    }

    /// Adds the answers of another tester as `absorb` does, and the tests that it made in folders.
    pub fn absorb_with(&mut self, other: ProcessTester) -> Result<(), ProcessTester>
        requires { AreOfOneKind ⟦<ProcessTester as Tester>⟧ self.old other }
        ensures ok { OnOk result (⟦<ProcessTester as Tester>⟧.answers self.new
            ≡ ⟦<ProcessTester as Tester>⟧.answers self.old
            ++ ⟦<ProcessTester as Tester>⟧.answers other) }
        ensures tested_ok { OnOk result
            (tested_by self.new ≡ tested_by self.old ++ tested_by other) }
        ensures err { IfErr result (λ t. (t ≡ other) × (⟦<ProcessTester as Tester>⟧.answers self.new
            ≡ ⟦<ProcessTester as Tester>⟧.answers self.old)) }
        ensures tested_err { IfErr result (λ _. tested_by self.new ≡ tested_by self.old) }
        ensures manner { KeepsManner ⟦<ProcessTester as Tester>⟧ self.old self.new }
        ensures faults { KeepsFaults ⟦<ProcessTester as Tester>⟧ self.old self.new }
    {
        if self.tested.reserve(other.tested.len()).is_err() {
            return Err(other);
        }
        let ProcessTester {
            alloc,
            notes,
            mut tested,
            faults,
            failed,
            refusal,
            is_silent,
            is_patient,
        } = other;
        match self.notes.absorb(notes) {
            Ok(()) => {
                self.tested.append(&mut tested).unwrap();
                Ok(())
            }
            Err(notes) => Err(ProcessTester {
                alloc,
                notes,
                tested,
                faults,
                failed,
                refusal,
                is_silent,
                is_patient,
            }),
        }
    }

    /// Tests the commit of this name, in a folder where one is given. A command that cannot be started or
    /// waited for fails. Where a look finds the flag raised the command is ended.
    fn test_on<R: Wait + Processes + Clock + Eprint>(
        &mut self,
        rt: &R,
        place: u32,
        name: Oid,
        folder: Option<&[u8]>,
        stop: &mut StopView<'_>,
    ) -> TestReply
        ensures noted { NotesReply ⟦<ProcessTester as Tester>⟧ self.old self.new place name result }
        ensures tested { self.new.tested ≡ self.old.tested }
        ensures looks { LooksOn stop.old stop.new (is_dropped result) }
        ensures cause { HasCauseOf ⟦<ProcessTester as Tester>⟧ self.old self.new result }
        ensures manner { KeepsManner ⟦<ProcessTester as Tester>⟧ self.old self.new }
    {
        match self.run_on(rt, name, folder, stop) {
            Ok(Some(outcome)) => {
                let outcome = read(self.notes.is_lenient(), outcome);
                self.notes.done(place, name, outcome)
            }
            Ok(None) => TestReply::Dropped,
            Err(RunFault::Failed(refusal)) => {
                self.faults = self.faults.saturating_add(1);
                self.failed = Some(place);
                self.refusal = refusal;
                TestReply::Failed
            }
            Err(RunFault::NoMemory) => TestReply::NoMemory,
        }
    }

    /// Starts the command on the commit of this name, and tells of it where that is asked. There is no outcome
    /// exactly where a look found the flag raised.
    #[tactic(auto, using(crate::proofs::Looking::looks_at_none))]
    fn run_on<R: Wait + Processes + Clock + Eprint>(
        &self,
        rt: &R,
        name: Oid,
        folder: Option<&[u8]>,
        stop: &mut StopView<'_>,
    ) -> Result<Option<Outcome>, RunFault>
        ensures { LooksOn stop.old stop.new (is_withdrawn result) }
    {
        let mut digits = [0; 40];
        oid_hex(name, &mut digits);
        let Ok(name) = std::str::from_utf8(digits.as_slice()) else {
            return Err(RunFault::Failed(None));
        };
        if self.is_silent {
            return self.run_command(rt, folder, name, stop);
        }
        tell_start(rt, name);
        let outcome = self.run_command(rt, folder, name, stop)?;
        tell_end(rt, name, outcome);
        Ok(outcome)
    }

    /// Starts the command with the name of a folder, where one is given, and a last argument, and waits for
    /// its end. Where a look finds the flag raised it is ended, and exactly there it has no outcome.
    #[tactic(auto, using(crate::proofs::Looking::looks_at_none))]
    fn run_command<R: Wait + Processes + Clock>(
        &self,
        rt: &R,
        folder: Option<&[u8]>,
        last: &str,
        stop: &mut StopView<'_>,
    ) -> Result<Option<Outcome>, RunFault>
        ensures { LooksOn stop.old stop.new (is_withdrawn result) }
    {
        let mut command = command_of(self.alloc, self.notes.command(), folder, last)?;
        let mut child = match command.spawn(rt) {
            Ok(child) => child,
            Err(error) => return Err(RunFault::Failed(error.raw_os_error())),
        };
        if self.is_patient || stop.is_bare() {
            return Ok(Some(outcome_of(wait_alone(&mut child)?)?));
        }
        match wait_for(rt, self.alloc, &mut child, stop)? {
            Some(status) => Ok(Some(outcome_of(status)?)),
            None => Ok(None),
        }
    }
}

/// The command of these words, with the name of a folder, where one is given, and a last argument.
fn command_of(
    alloc: Global,
    words: &[Word],
    folder: Option<&[u8]>,
    last: &str,
) -> Result<Command, RunFault> {
    let Some((program, others)) = words.split_first() else {
        return Err(RunFault::Failed(None));
    };
    let mut command = Command::new(alloc, text_of(program.as_slice())?)?;
    for word in others {
        command.arg(text_of(word.as_slice())?)?;
    }
    if let Some(folder) = folder {
        command.arg(text_of(folder)?)?;
    }
    command.arg(last)?;
    command.stdin(Stdio::null()).stdout(Stdio::null());
    Ok(command)
}

/// The outcome of a command that ended so.
fn outcome_of(status: ExitStatus) -> Result<Outcome, RunFault> {
    match status.code() {
        None => Ok(Outcome::Killed),
        Some(code) => match u8::try_from(code) {
            Ok(code) => Ok(Outcome::Exit(code)),
            Err(_) => Err(RunFault::Failed(None)),
        },
    }
}

/// The text of a word. One that is no text cannot be handed to a program.
fn text_of(word: &[u8]) -> Result<&str, RunFault> {
    match std::str::from_utf8(word) {
        Ok(text) => Ok(text),
        Err(_) => Err(RunFault::Failed(None)),
    }
}

/// Tells the start of a test on the standard error.
fn tell_start<R: Eprint>(rt: &R, name: &str) {
    let _ = eprintln!(rt; "testing {name}");
}

/// Tells the end of a test on the standard error.
fn tell_end<R: Eprint>(rt: &R, name: &str, outcome: Option<Outcome>) {
    let _ = match outcome {
        Some(Outcome::Exit(status)) => eprintln!(rt; "{name} exit {status}"),
        Some(Outcome::Killed) => eprintln!(rt; "{name} killed"),
        None => eprintln!(rt; "{name} dropped"),
    };
}

impl Tester for ProcessTester {
    ghost told = { λ _. None };

    ghost command = { λ t. t.notes.command };

    ghost answers = { λ t. t.notes.answers };

    ghost faults = { λ t. t.faults };

    ghost failed = { λ t. t.failed };

    ghost is_split = { λ t. t.notes.is_split };

    ghost is_lenient = { λ t. t.notes.is_lenient };

    ghost grounds = { λ _. [] };

    ghost recalled = { λ _. [] };

    fn prepare(&mut self, words: &[Word], lenient: bool) -> Result<(), AllocError> {
        self.notes.prepare(words, lenient)
    }

    /// Looks at the flag before the command starts and while it runs, and is dropped exactly where one of
    /// these looks finds it raised. A command that cannot be started or waited for fails.
    #[tactic(auto, using(crate::proofs::Looking::looks_and_more, crate::proofs::Looking::looks_saw))]
    fn test<R: Host>(&mut self, rt: &R, place: u32, name: Oid, stop: &mut StopView<'_>) -> TestReply
        ensures looked { DropsByLooks stop.old stop.new result }
        ensures noted { NotesReply ⟦<ProcessTester as Tester>⟧ self.old self.new place name result }
        ensures cause { HasCauseOf ⟦<ProcessTester as Tester>⟧ self.old self.new result }
        ensures manner { KeepsManner ⟦<ProcessTester as Tester>⟧ self.old self.new }
    {
        if stop.raised() {
            return TestReply::Dropped;
        }
        self.test_on(rt, place, name, None, stop)
    }

    fn split(&self) -> Result<ProcessTester, AllocError> {
        Ok(ProcessTester {
            notes: self.notes.split()?,
            is_silent: self.is_silent,
            is_patient: self.is_patient,
            ..ProcessTester::new(self.alloc)
        })
    }

    fn absorb(&mut self, other: ProcessTester) -> Result<(), ProcessTester> {
        let ProcessTester {
            alloc,
            notes,
            tested,
            faults,
            failed,
            refusal,
            is_silent,
            is_patient,
        } = other;
        match self.notes.absorb(notes) {
            Ok(()) => Ok(()),
            Err(notes) => Err(ProcessTester {
                alloc,
                notes,
                tested,
                faults,
                failed,
                refusal,
                is_silent,
                is_patient,
            }),
        }
    }

    fn answer(&self, index: usize) -> Option<Answer> {
        self.notes.answer(index)
    }
}
