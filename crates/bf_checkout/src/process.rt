//! Tests by a command that is given the name of a folder.
use crate::folder::Folder;
use crate::tester::FolderTester;
use bf_import::Content;
use bf_io::Bytes;
use bf_oid::Oid;
use bf_tester::{Host, ProcessTester, StopView, TestReply};

impl<D: Folder> FolderTester<D> for ProcessTester {
    ghost use Rattle.bf_tester.specs.Tests.{tested_by};

    ghost tested_in = { tested_by };

    /// Starts the command with the folder's name and the commit's as its last two arguments.
    fn test_in<R: Host>(
        &mut self,
        rt: &R,
        place: u32,
        name: Oid,
        folder: &D,
        content: &Content,
        stop: &mut StopView<'_>,
    ) -> TestReply {
        let mut text = Bytes::new(self.allocator());
        if folder.name(&mut text).is_err() {
            return TestReply::NoMemory;
        }
        let tree = content.tree_name(place);
        self.test_with(rt, place, name, text.as_slice(), tree, stop)
    }

    fn absorb_in(&mut self, other: ProcessTester) -> Result<(), ProcessTester> {
        self.absorb_with(other)
    }
}
