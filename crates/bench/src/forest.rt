//! A tree of generated files, and edits of it.
ghost use Rattle.std.specs.Prelude.{◌<◌, length, IfOk};

use bf_forest::{Edit, Forest, ForestFault};
use bf_oid::{Kind, Mode, Oid, object_name, oid_hex};
use bf_paths::{PathFault, read_path};
use std::alloc::Global;

/// Directories under the root, directories in each of them, and files in each of those.
#[derive(Clone, Copy, Debug)]
pub struct Shape {
    pub directories: u32,
    pub subdirectories: u32,
    pub files: u32,
}

impl Shape {
    fn count(self) -> u64 {
        u64::from(self.directories)
            .wrapping_mul(u64::from(self.subdirectories))
            .wrapping_mul(u64::from(self.files))
    }
}

/// One of sixteen contents.
fn content(number: u64) -> Oid {
    object_name(Kind::Blob, &[b'a' + (number % 16) as u8])
}

/// The edit that sets the file with a number.
fn set(alloc: Global, shape: Shape, number: u64, oid: Oid) -> anyhow::Result<Edit> {
    let files = u64::from(shape.files).max(1);
    let subdirectories = u64::from(shape.subdirectories).max(1);
    let file = number % files;
    let directory = number / files;
    let (outer, inner) = (directory / subdirectories, directory % subdirectories);
    let text = format!(in alloc; "d{outer}/s{inner}/f{file}")?;
    Ok(Edit::Set {
        path: read_path(alloc, text.as_bytes())?,
        mode: Mode::Plain,
        oid,
    })
}

/// All files, with the first content.
fn all(alloc: Global, shape: Shape) -> anyhow::Result<Vec<Edit>> {
    let mut edits = Vec::new(alloc);
    for number in 0..shape.count() {
        edits.push(set(alloc, shape, number, content(0))?)?;
    }
    Ok(edits)
}

/// The next of a row of numbers that look random.
fn next(random: u64) -> u64 {
    random.wrapping_mul(1_103_515_245).wrapping_add(12345) % 2_147_483_648
}

/// The number of the tree after edits of single files.
fn edit_each(
    alloc: Global,
    forest: &mut Forest,
    shape: Shape,
    first: u32,
    edits: u32,
) -> anyhow::Result<u32>
    requires { first < length forest.old.trees }
    ensures { IfOk result (λ tree. tree < length forest.new.trees) }
{
    let mut tree = first;
    let mut random = 1;
    for number in 0..edits {
        random = next(random);
        let edit = set(
            alloc,
            shape,
            random / 8 % shape.count().max(1),
            content(u64::from(number)),
        )?;
        tree = forest.apply(tree, &[edit])?;
    }
    Ok(tree)
}

/// What is told of the tree after edits.
pub fn edited(alloc: Global, shape: Shape, edits: u32) -> anyhow::Result<String> {
    let mut forest = Forest::new(alloc, 40_000_000)?;
    let start = all(alloc, shape)?;
    let first = forest.apply(0, start.as_slice())?;
    let tree = edit_each(alloc, &mut forest, shape, first, edits)?;
    let mut name = [0; 40];
    oid_hex(forest.name(tree), &mut name);
    let name = String::from_utf8_lossy(alloc, &name)?;
    let text = format!(in alloc; "{edits} edits: {name}")?;
    Ok(text)
}
