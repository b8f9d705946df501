//! A tester that tests each commit in a folder with exactly its files.
ghost use Rattle.std.specs.Prelude.{◌≡◌, ℕ, ◌≤◌, Bool, true, false, ◌||◌, List, [], ◌++◌, Option, Some, None, IfOk, OnOk, OnErr, IfErr};
ghost use Rattle.std.specs.List.{slice_get};
ghost use Rattle.bf_io.specs.Causes.{Rose, raised};
ghost use Rattle.bf_search.specs.declared.outcomes.Outcome.{Outcome};
ghost use Rattle.bf_tester.specs.declared.answer.Answer.{Answer};
ghost use Rattle.bf_tester.specs.Grounds.{Ground};
ghost use Rattle.bf_tester.specs.Looks.{SawRaised};
ghost use Rattle.bf_tester.specs.Plans.{PreparesTold};
ghost use Rattle.bf_tester.specs.Replies.{answers_after, failed_after, ReplyFollowsPlan, ReplyIsReadAs};
ghost use Rattle.bf_tester.specs.Tests.{KeepsManner, KeepsFaults, tested_after};
ghost use Rattle.bf_history.specs.Contents.{tree_of};
ghost use Rattle.bf_checkout.specs.Checkouts.{grounds_of};
ghost use Rattle.bf_checkout.specs.Shops.{AreTestedIn, faults_of, furnished};

use crate::folder::{Folder, FolderFault};
use crate::tester::FolderTester;
use bf_import::Content;
use bf_io::Word;
use bf_oid::Oid;
use bf_tester::{Answer, Host, StopView, TestReply, Tester};
use std::alloc::AllocError;
use std::marker::Model;
use std::sync::Arc;

/// A tester over another one, which tests each commit in a folder with exactly its files. Contracts see
/// the tester below, the folder, the content, and the place of the latest test that failed.
#[derive(Drop)]
pub struct Workshop<T: FolderTester<D>, D: Folder> {
    tester: T,
    folder: D,
    content: Arc<Content>,
    failed: Option<u32>,
}

impl<T: FolderTester<D>, D: Folder> Model for Workshop<T, D> {
    ghost use Rattle.std.specs.Prelude.{◌≡◌, []};
    ghost use Rattle.bf_checkout.specs.Shops.{Shop, AreTestedIn};

    ghost Value = { Shop T D };

    ghost view = { λ w. record {
      tester = w.tester;
      folder = w.folder;
      content = w.content.value;
      failed = w.failed;
    } };

    ghost invariant = { λ w.
        AreTestedIn w.content.value (T.tested_in w.tester) (T.answers w.tester)
        × (T.grounds w.tester ≡ []) };
}

impl<T: FolderTester<D>, D: Folder> Workshop<T, D> {
    /// A workshop of this tester and folder, for the commits of a content.
    pub fn new(tester: T, folder: D, content: Arc<Content>) -> Workshop<T, D>
        requires answers { T.answers tester ≡ [] }
        requires is_split { T.is_split tester ≡ false }
        requires grounds { T.grounds tester ≡ [] }
        ensures { result ≡ record {
          tester = tester;
          folder = folder;
          content = content.value;
          failed = None;
        } }
    {
        Workshop {
            tester,
            folder,
            content,
            failed: None,
        }
    }

    /// Replaces the content, and changes nothing else.
    pub fn furnish(&mut self, content: Arc<Content>)
        requires { T.answers self.old.tester ≡ [] }
        ensures { self.new ≡ furnished self.old content.value }
    {
        self.content = content;
    }

    /// The folder.
    pub fn folder(&self) -> &D
        ensures { result.now ≡ self.now.folder }
    {
        &self.folder
    }

    /// The tester below. The place of every answer was tested in a folder, with the tree that the content
    /// has there.
    pub fn tester(&self) -> &T
        ensures value { result.now ≡ self.now.tester }
        ensures tested { AreTestedIn self.now.content
            (T.tested_in self.now.tester) (T.answers self.now.tester) }
    {
        &self.tester
    }
}

impl<T: FolderTester<D>, D: Folder> Tester for Workshop<T, D> {
    ghost told = { λ w. T.told w.tester };

    ghost command = { λ w. T.command w.tester };

    ghost answers = { λ w. T.answers w.tester };

    ghost faults = { λ w. faults_of (T.faults w.tester) (D.faults w.folder) };

    ghost failed = { λ w. w.failed };

    ghost is_split = { λ w. T.is_split w.tester };

    ghost is_lenient = { λ w. T.is_lenient w.tester };

    ghost grounds = { λ w. grounds_of w.content };

    ghost recalled = { λ w. T.recalled w.tester };

    fn prepare(&mut self, words: &[Word], lenient: bool) -> Result<(), AllocError> {
        self.tester.prepare(words, lenient)
    }

    /// Goes on in a folder in which nobody has tested, makes it hold exactly the files of the commit, and tests in it.
    /// What an earlier test had started may run on, and write by the name of its own folder.
    fn test<R: Host>(&mut self, rt: &R, place: u32, name: Oid, stop: &mut StopView<'_>) -> TestReply
        ensures answers { T.answers self.new.tester
            ≡ answers_after result (T.answers self.old.tester) place name }
        ensures tested { T.tested_in self.new.tester ≡ tested_after result
            (T.tested_in self.old.tester) place (tree_of self.old.content place) }
        ensures planned { ReplyFollowsPlan (T.told self.old.tester) place result }
        ensures read { ReplyIsReadAs (T.is_lenient self.old.tester) result }
        ensures dropped { result ≡ TestReply.Dropped → SawRaised stop.new }
        ensures bare { stop.new.bare ≡ stop.old.bare }
        ensures faults { faults_of (T.faults self.old.tester) (D.faults self.old.folder)
            ≤ faults_of (T.faults self.new.tester) (D.faults self.new.folder) }
        ensures fault { result ≡ TestReply.Failed
            → Rose (faults_of (T.faults self.old.tester) (D.faults self.old.folder))
            (faults_of (T.faults self.new.tester) (D.faults self.new.folder)) }
        ensures failed { self.new.failed ≡ failed_after result self.old.failed place }
        ensures manner { KeepsManner T.Tester self.old.tester self.new.tester }
        ensures content { self.new.content ≡ self.old.content }
        ensures moved { D.moves self.new.folder ≡ raised (D.moves self.old.folder) }
    {
        self.folder.renew();
        match self.folder.check_out(&self.content, place) {
            Ok(()) => {}
            Err(FolderFault::Failed) => {
                self.failed = Some(place);
                return TestReply::Failed;
            }
            Err(FolderFault::NoMemory) => return TestReply::NoMemory,
        }
        let reply = self
            .tester
            .test_in(rt, place, name, &self.folder, &self.content, stop);
        if reply == TestReply::Failed {
            self.failed = Some(place);
        }
        reply
    }

    /// A workshop of the same content, over a split of the tester and a folder of its own.
    fn split(&self) -> Result<Workshop<T, D>, AllocError> {
        Ok(Workshop {
            tester: self.tester.split()?,
            folder: self.folder.split()?,
            content: self.content.clone()?,
            failed: None,
        })
    }

    fn absorb(&mut self, other: Workshop<T, D>) -> Result<(), Workshop<T, D>> {
        let Workshop {
            tester,
            folder,
            content,
            failed,
        } = other;
        match self.tester.absorb_in(tester) {
            Ok(()) => Ok(()),
            Err(tester) => Err(Workshop {
                tester,
                folder,
                content,
                failed,
            }),
        }
    }

    fn answer(&self, index: usize) -> Option<Answer> {
        self.tester.answer(index)
    }
}
