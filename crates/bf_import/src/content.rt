//! A history with the contents of its files.
ghost use Rattle.std.specs.Prelude.{◌≡◌, IfOk, IsTrue};
ghost use Rattle.bf_forest.specs.Files.{is_tree};
ghost use Rattle.bf_grammar.specs.Limits.{standard_limits};
ghost use Rattle.bf_history.specs.Contents.{IsFurnished, bytes_named, files_of, nothing_furnished, tree_of};

use crate::growth::Growth;
use crate::history::History;
use bf_forest::FileEntry;
use bf_grammar::Limits;
use bf_oid::Oid;
use bf_tables::Blobs;
use std::alloc::{AllocError, Global};
use std::marker::Model;

/// The commits of a stream, its refs and its blobs. Each file of a commit, submodules aside, has a path in UTF-8,
/// and its content is among the blobs.
pub struct Content {
    history: History,
    blobs: Blobs,
}

/// Written out, so that it is proved once.
impl Drop for Content {
    fn drop(self) {
        let Content {
            history: _,
            blobs: _,
        } = self;
    }
}

impl Model for Content {
    ghost use Rattle.bf_history.specs.Contents.{Content, IsFurnished};

    ghost Value = { Content };

    ghost view = { λ c. record { history = c.history; blobs = c.blobs } };

    ghost invariant = { λ c. IsFurnished (record { history = c.history; blobs = c.blobs }) };
}

impl Content {
    /// A history that grows no more, and its blobs.
    pub(crate) fn of(history: History, blobs: Blobs) -> Content
        requires { IsFurnished (record { history = history; blobs = blobs }) }
        ensures { result ≡ record { history = history; blobs = blobs } }
    {
        Content { history, blobs }
    }

    /// No commit and no blob.
    pub fn empty(alloc: Global) -> Result<Content, AllocError>
        ensures { IfOk result (λ content. content ≡ nothing_furnished standard_limits) }
    {
        let history = History::of(alloc, Growth::new(alloc, Limits::standard())?)?;
        Ok(Content::of(history, Blobs::new(alloc)))
    }

    /// The history.
    pub fn history(&self) -> &History
        ensures value { result.now ≡ self.now.history }
        ensures furnished { IsFurnished self.now }
    {
        &self.history
    }

    /// The blobs, in the order of the stream.
    pub fn blobs(&self) -> &Blobs
        ensures { result.now ≡ self.now.blobs }
    {
        &self.blobs
    }

    /// The files of a commit, in order of their paths' bytes; none at a place past the last. No path is
    /// another one, nor leads to it.
    pub fn files(&self, place: u32) -> Result<Vec<FileEntry>, AllocError>
        ensures value { IfOk result (λ files. files.items ≡ files_of self.now place) }
        ensures ordered { IfOk result (λ files. IsTrue (is_tree files.items)) }
    {
        self.history.files(place)
    }

    /// The name of the tree of a commit; at a place past the last that of the tree without files.
    pub fn tree_name(&self, place: u32) -> Oid
        ensures { result ≡ tree_of self.now place }
    {
        self.history.tree_name(place)
    }

    /// The bytes of the blob with a name; none where no blob has it.
    pub fn bytes(&self, name: Oid) -> &[u8]
        ensures { result.now ≡ bytes_named self.now.blobs name }
    {
        match self.blobs.get(name) {
            Some(bytes) => bytes,
            None => &[],
        }
    }
}
