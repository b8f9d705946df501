//! The contents of a stream.
ghost use Rattle.std.specs.Prelude.{◌≡◌, [], length, slice_get, Some, OnOk, OnErr, MatchOption};
ghost use Rattle.std.specs.Option.{option_map};
ghost use Rattle.bf_history.specs.Contents.{blob_named, has_blob, with_blob};

use bf_io::Bytes;
use bf_oid::Oid;
use indexmap::IndexMap;
use std::alloc::{AllocError, Global};
use std::marker::Model;

/// Blobs by their names, in the order in which they were added. Of the contents of one name the first alone
/// is kept.
#[derive(Debug, Drop)]
pub struct Blobs {
    contents: IndexMap<Oid, Bytes>,
}

impl Model for Blobs {
    ghost use Rattle.bf_history.specs.Contents.{Blobs};

    ghost Value = { Blobs };

    ghost view = { λ t. t.contents.entries };
}

impl Blobs {
    /// No blob. It takes no memory.
    pub fn new(alloc: Global) -> Blobs
        ensures { result ≡ [] }
    {
        Blobs {
            contents: IndexMap::new(alloc),
        }
    }

    /// The number of blobs.
    pub fn len(&self) -> usize
        ensures { result ≡ length self.now }
    {
        self.contents.len()
    }

    /// The bytes of the blob with a name; `None` exactly where no blob has it.
    pub fn get(&self, name: Oid) -> Option<&[u8]>
        ensures { option_map (λ bytes. bytes.now) result ≡ blob_named self.now name }
    {
        let content = self.contents.get(&name)?;
        Some(content.as_slice())
    }

    /// Whether a blob has a name.
    pub fn has(&self, name: Oid) -> bool
        ensures { result ≡ has_blob self.now name }
    {
        self.get(name).is_some()
    }

    /// Adds the blob of a name, which takes its bytes as they are. One whose name is there already changes
    /// nothing. After an error all is as before.
    pub fn add(&mut self, name: Oid, content: Bytes) -> Result<(), AllocError>
        ensures ok { OnOk result (self.new ≡ with_blob self.old name content) }
        ensures err { OnErr result (self.new ≡ self.old) }
    {
        if self.has(name) {
            return Ok(());
        }
        self.contents.insert(name, content)?;
        Ok(())
    }
}
