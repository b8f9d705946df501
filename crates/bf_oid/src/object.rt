//! Names, kinds and modes of git's objects.
ghost use Rattle.std.specs.Prelude.{[], ◌∷◌};
ghost use Rattle.std.specs.Cmp.Lexicographic.{bytes_decides};
ghost use Rattle.std.proofs.Common.{ap};

use std::hash::{Hash, Hasher};

/// The name of an object: the 20 bytes of a SHA-1 (FIPS 180-4). Names are ordered by their bytes.
#[derive(Clone, Copy, Debug, PartialEq, Eq, PartialOrd, Ord)]
pub struct Oid(pub [u8; 20]);

/// A name is hashed all at once, since the `Hash` of an array takes byte by byte.
impl Hash for Oid {
    ghost hash_input = { λ oid. oid.0 ∷ [] };

    ghost respects_eq = { λ a b same. ap (λ name. name ∷ []) ((bytes_decides a.0 b.0).0 same) };

    fn hash<H: Hasher>(&self, state: &mut H) {
        state.write(&self.0);
    }
}

/// The kind of an object, which its name is made with.
#[derive(Clone, Copy, Debug, PartialEq, Eq)]
pub enum Kind {
    Blob,
    Tree,
    Commit,
}

/// The mode of a file in a tree (git-fast-import(1), `M`).
#[derive(Clone, Copy, Debug, PartialEq, Eq)]
pub enum Mode {
    /// A plain file, 100644.
    Plain,
    /// An executable file, 100755.
    Exec,
    /// A symbolic link, 120000: its content is the target.
    Link,
    /// A commit of another repository, 160000.
    Module,
}
