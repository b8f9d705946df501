//! A tester that looks for a file.
ghost use Rattle.std.specs.Prelude.{◌≡◌, ℕ, ◌≤◌, ◌⊎◌, ◌++◌, List, [], Option, Some, None, IfOk, OnOk, IfErr};
ghost use Rattle.bf_search.specs.declared.outcomes.Outcome.{Outcome};
ghost use Rattle.bf_tester.specs.declared.answer.Answer.{Answer};
ghost use Rattle.bf_tester.specs.declared.answer.Tested.{Tested};
ghost use Rattle.bf_tester.specs.Grounds.{Ground};
ghost use Rattle.bf_tester.specs.Looks.{SawRaised};
ghost use Rattle.bf_tester.specs.Replies.{ReplyIsReadAs};
ghost use Rattle.bf_tester.specs.Tests.{NotesReply, HasCauseOf, KeepsManner, KeepsFaults, AreOfOneKind, tested_after};
ghost use Rattle.bf_history.specs.Contents.{tree_of};
ghost use Rattle.bf_checkout.specs.Checkouts.{checkout};
ghost use Rattle.bf_checkout.specs.Folders.{Holds};
ghost use Rattle.bf_checkout.specs.Looking.{looks_for, split_looking, looking_after, outcome_of_look};

use crate::memory::MemFolder;
use crate::tester::FolderTester;
use bf_import::Content;
use bf_io::Word;
use bf_oid::Oid;
use bf_paths::Path;
use bf_search::Outcome;
use bf_tester::{Answer, Host, Notes, StopView, TestReply, Tested, Tester};
use std::alloc::{AllocError, Global};
use std::marker::Model;

/// A tester by which a commit is bad exactly where its folder has a file at a path. It tells no plan and
/// never fails.
#[derive(Drop)]
pub struct LookTester {
    alloc: Global,
    path: Path,
    notes: Notes,
    tested: Vec<Tested>,
}

impl Model for LookTester {
    ghost use Rattle.bf_checkout.specs.Looking.{Looking};

    ghost Value = { Looking };

    ghost view = { λ t. record { path = t.path; notes = t.notes; tested = t.tested.items } };
}

impl LookTester {
    /// A tester that looks for this path.
    pub fn new(alloc: Global, path: Path) -> LookTester
        ensures { result ≡ looks_for path }
    {
        LookTester {
            alloc,
            path,
            notes: Notes::new(alloc),
            tested: Vec::new(alloc),
        }
    }
}

impl Tester for LookTester {
    ghost told = { λ _. None };

    ghost command = { λ t. t.notes.command };

    ghost answers = { λ t. t.notes.answers };

    ghost faults = { λ _. 0 };

    ghost failed = { λ _. None };

    ghost is_split = { λ t. t.notes.is_split };

    ghost is_lenient = { λ t. t.notes.is_lenient };

    ghost grounds = { λ _. [] };

    ghost recalled = { λ _. [] };

    fn prepare(&mut self, words: &[Word], lenient: bool) -> Result<(), AllocError> {
        self.notes.prepare(words, lenient)
    }

    /// Without a folder every commit is good.
    fn test<R: Host>(
        &mut self,
        _rt: &R,
        place: u32,
        name: Oid,
        stop: &mut StopView<'_>,
    ) -> TestReply
        ensures good { (result ≡ TestReply.Done (Outcome.Exit 0)) ⊎ (result ≡ TestReply.NoMemory) }
        ensures read { ReplyIsReadAs self.old.notes.is_lenient result }
        ensures noted { self.new ≡ looking_after self.old result place name }
        ensures stop { stop.new ≡ stop.old }
    {
        self.notes.done(place, name, Outcome::Exit(0))
    }

    fn split(&self) -> Result<LookTester, AllocError>
        ensures { IfOk result (λ t. t ≡ split_looking self.now) }
    {
        Ok(LookTester {
            alloc: self.alloc,
            path: self.path.try_clone()?,
            notes: self.notes.split()?,
            tested: Vec::new(self.alloc),
        })
    }

    fn absorb(&mut self, other: LookTester) -> Result<(), LookTester> {
        self.absorb_in(other)
    }

    fn answer(&self, index: usize) -> Option<Answer> {
        self.notes.answer(index)
    }
}

impl FolderTester<MemFolder> for LookTester {
    ghost tested_in = { λ t. t.tested };

    /// The commit is bad exactly where the folder has the path.
    fn test_in<R: Host>(
        &mut self,
        _rt: &R,
        place: u32,
        name: Oid,
        folder: &MemFolder,
        content: &Content,
        stop: &mut StopView<'_>,
    ) -> TestReply
        requires { Holds (Some folder.now.files) (checkout content.now place) }
        ensures looked { (result ≡ TestReply.Done (outcome_of_look folder.now.files self.old.path))
            ⊎ (result ≡ TestReply.NoMemory) }
        ensures noted { NotesReply ⟦<LookTester as Tester>⟧ self.old self.new place name result }
        ensures tested { self.new.tested
            ≡ tested_after result self.old.tested place (tree_of content.now place) }
        ensures path { self.new.path ≡ self.old.path }
        ensures dropped { result ≡ TestReply.Dropped → SawRaised stop.new }
        ensures bare { stop.new.bare ≡ stop.old.bare }
        ensures cause { HasCauseOf ⟦<LookTester as Tester>⟧ self.old self.new result }
        ensures manner { KeepsManner ⟦<LookTester as Tester>⟧ self.old self.new }
    {
        // Room first, so that a test is noted with its tree or not at all.
        if self.tested.reserve(1).is_err() {
            return TestReply::NoMemory;
        }
        let outcome = if folder.has(&self.path) {
            Outcome::Exit(1)
        } else {
            Outcome::Exit(0)
        };
        let reply = self.notes.done(place, name, outcome);
        if let TestReply::Done(_) = reply {
            let tree = content.tree_name(place);
            self.tested.push_reserved(Tested { place, tree });
        }
        reply
    }

    fn absorb_in(&mut self, other: LookTester) -> Result<(), LookTester> {
        if self.tested.reserve(other.tested.len()).is_err() {
            return Err(other);
        }
        let LookTester {
            alloc,
            path,
            notes,
            mut tested,
        } = other;
        match self.notes.absorb(notes) {
            Ok(()) => {
                self.tested.append(&mut tested).unwrap();
                Ok(())
            }
            Err(notes) => Err(LookTester {
                alloc,
                path,
                notes,
                tested,
            }),
        }
    }
}
