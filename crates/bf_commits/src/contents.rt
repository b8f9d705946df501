//! What becomes of the contents that a stream has.
ghost use Rattle.std.specs.Prelude.{◌≡◌, None, Some, OnOk};
ghost use Rattle.std.specs.Str.{is_utf8};
ghost use Rattle.bf_history.specs.Contents.{has_content, is_text, is_there};
ghost use Rattle.bf_history.specs.Keeping.{Kept, kept_with, lacks};

use bf_grammar::DataRef;
use bf_io::Bytes;
use bf_oid::{Mode, Oid};
use bf_paths::Path;
use bf_tables::Blobs;
use std::alloc::AllocError;

/// What an import does with the contents of its stream: it keeps them, or lets them go.
pub trait Contents {
    // The blobs so far, where they are kept.
    ghost kept: { Self → Kept };

    /// Takes the content of a name. Of the contents of one name the first alone is kept.
    fn add(&mut self, name: Oid, content: Bytes) -> Result<(), AllocError>
        ensures { OnOk result (kept self.new ≡ kept_with (kept self.old) name content) };

    /// Whether a file lacks what it needs, if it is no submodule: a path in UTF-8, and a content that is
    /// among those so far. Where contents are let go, none does.
    fn lacks(&self, mode: Mode, content: &DataRef, path: &Path) -> bool
        ensures { result ≡ lacks (kept self.now) mode content.now path.now };
}

/// Contents that are let go.
#[derive(Clone, Copy, Debug)]
pub struct LetGo;

impl Contents for LetGo {
    ghost kept = { λ _. None };

    fn add(&mut self, _name: Oid, _content: Bytes) -> Result<(), AllocError> {
        Ok(())
    }

    fn lacks(&self, _mode: Mode, _content: &DataRef, _path: &Path) -> bool {
        false
    }
}

impl Contents for Blobs {
    ghost kept = { λ blobs. Some blobs };

    fn add(&mut self, name: Oid, content: Bytes) -> Result<(), AllocError> {
        self.add(name, content)
    }

    fn lacks(&self, mode: Mode, content: &DataRef, path: &Path) -> bool {
        !has_content(self, mode, content, path)
    }
}

/// Whether a file is a submodule, or has a path in UTF-8 and a content.
fn has_content(blobs: &Blobs, mode: Mode, content: &DataRef, path: &Path) -> bool
    ensures { result ≡ has_content blobs.now mode content.now path.now }
{
    mode == Mode::Module || (is_text(path) && is_there(blobs, content))
}

/// Whether each component of a path is UTF-8.
fn is_text(path: &Path) -> bool
    ensures { result ≡ is_text path.now }
{
    path.components()
        .iter()
        .all(|component| is_utf8(component.as_slice()))
}

fn is_utf8(bytes: &[u8]) -> bool
    ensures { result ≡ is_utf8 bytes.now }
{
    str::from_utf8(bytes).is_ok()
}

/// Whether a content that is named by its digits is among the blobs. A mark and an inline part give one.
fn is_there(blobs: &Blobs, content: &DataRef) -> bool
    ensures { result ≡ is_there blobs.now content.now }
{
    match content {
        DataRef::Name(name) => blobs.has(*name),
        DataRef::Mark(_) | DataRef::Inline(_) => true,
    }
}
