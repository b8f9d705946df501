//! Testers that test in folders.
use crate::folder::Folder;
use bf_import::Content;
use bf_oid::Oid;
use bf_tester::{Host, StopView, TestReply, Tester};

/// A tester that tests in a folder, and notes the tree whose files the folder had.
pub trait FolderTester<D: Folder>: Tester {
    ghost use Rattle.std.specs.Prelude.{◌≡◌, ◌++◌, List, OnOk, IfErr};
    ghost use Rattle.bf_tester.specs.declared.answer.Tested.{Tested};
    ghost use Rattle.bf_tester.specs.Looks.{SawRaised};
    ghost use Rattle.bf_tester.specs.Tests.{NotesReply, HasCauseOf, KeepsManner, KeepsFaults, AreOfOneKind, tested_after};
    ghost use Rattle.bf_history.specs.Contents.{tree_of};
    ghost use Rattle.bf_checkout.specs.Checkouts.{checkout};
    ghost use Rattle.bf_checkout.specs.Folders.{Holds};

    // The tests that were made in folders, the oldest first.
    ghost tested_in: { Self → List Tested };

    /// Tests as `test` does, in a folder that has exactly the files of the commit at this place. A test
    /// that was done is also noted with the name of its tree, and no other reply notes one.
    fn test_in<R: Host>(
        &mut self,
        rt: &R,
        place: u32,
        name: Oid,
        folder: &D,
        content: &Content,
        stop: &mut StopView<'_>,
    ) -> TestReply
        requires { Holds (D.files folder.now) (checkout content.now place) }
        ensures noted { NotesReply Self.Tester self.old self.new place name result }
        ensures tested { tested_in self.new
            ≡ tested_after result (tested_in self.old) place (tree_of content.now place) }
        ensures dropped { result ≡ TestReply.Dropped → SawRaised stop.new }
        ensures bare { stop.new.bare ≡ stop.old.bare }
        ensures cause { HasCauseOf Self.Tester self.old self.new result }
        ensures manner { KeepsManner Self.Tester self.old self.new };

    /// Adds the answers of another tester as `absorb` does, and the tests that it made in folders.
    fn absorb_in(&mut self, other: Self) -> Result<(), Self>
        requires { AreOfOneKind Self.Tester self.old other }
        ensures ok { OnOk result
            (Self.answers self.new ≡ Self.answers self.old ++ Self.answers other) }
        ensures tested_ok { OnOk result
            (tested_in self.new ≡ tested_in self.old ++ tested_in other) }
        ensures err { IfErr result
            (λ t. (t ≡ other) × (Self.answers self.new ≡ Self.answers self.old)) }
        ensures tested_err { IfErr result (λ _. tested_in self.new ≡ tested_in self.old) }
        ensures manner { KeepsManner Self.Tester self.old self.new }
        ensures faults { KeepsFaults Self.Tester self.old self.new };
}
