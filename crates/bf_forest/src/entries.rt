//! A file of a tree, and lists of files.
ghost use Rattle.std.specs.Prelude.{◌≡◌, [], ◌∷◌, ◌++◌, IsTrue, IfOk, OnOk};
ghost use Rattle.bf_paths.specs.Components.{is_component};
ghost use Rattle.std.specs.List.{list_all};
ghost use Rattle.bf_forest.specs.Files.{file_in};
ghost use Rattle.bf_forest.specs.Trees.{is_same_file, are_same};

use crate::nodes::mode_text;
use bf_io::Bytes;
use bf_oid::{Mode, Oid};
use bf_paths::Path;
use std::alloc::{AllocError, Global};

/// A file of a tree: where it stands, its mode, and the name of its content.
#[derive(Debug, Drop)]
pub struct FileEntry {
    pub path: Path,
    pub mode: Mode,
    pub oid: Oid,
}

impl FileEntry {
    /// A copy of the file.
    pub fn try_clone(&self) -> Result<FileEntry, AllocError>
        ensures { IfOk result (λ copy. copy ≡ self.now) }
    {
        Ok(FileEntry {
            path: self.path.try_clone()?,
            mode: self.mode,
            oid: self.oid,
        })
    }
}

/// The path of what has a name in the directory that these names lead to.
fn path_in(alloc: Global, names: &[Bytes], name: &[u8]) -> Result<Path, AllocError>
    requires names { IsTrue (list_all is_component names.now) }
    requires name { IsTrue (is_component name.now) }
    ensures { IfOk result (λ path. path ≡ names.now ++ name.now ∷ []) }
{
    let mut components = Vec::new(alloc);
    for directory in names {
        components.push(directory.try_clone()?)?;
    }
    components.push(Bytes::from_slice(alloc, name)?)?;
    Ok(Path::from_components(alloc, components))
}

/// Adds the file with a name in the directory that these names lead to.
pub(crate) fn add_file(
    alloc: Global,
    files: &mut Vec<FileEntry>,
    names: &[Bytes],
    name: &[u8],
    mode: Mode,
    oid: Oid,
) -> Result<(), AllocError>
    requires names { IsTrue (list_all is_component names.now) }
    requires name { IsTrue (is_component name.now) }
    ensures { OnOk result
        (files.new.items ≡ files.old.items ++ file_in names.now name.now mode oid ∷ []) }
{
    let path = path_in(alloc, names, name)?;
    files.push(FileEntry { path, mode, oid })?;
    Ok(())
}

fn is_same_file(a: &FileEntry, b: &FileEntry) -> bool
    ensures { result ≡ is_same_file a.now b.now }
{
    a.path.components() == b.path.components()
        && mode_text(a.mode) == mode_text(b.mode)
        && a.oid.0.as_slice() == b.oid.0.as_slice()
}

/// Whether two lists have the same files.
pub(crate) fn are_same(a: &[FileEntry], b: &[FileEntry]) -> bool
    ensures { result ≡ are_same a.now b.now }
{
    if a.len() != b.len() {
        return false;
    }
    for i in 0..a.len() {
        if !is_same_file(&a[i], &b[i]) {
            return false;
        }
    }
    true
}
