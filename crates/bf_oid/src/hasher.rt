//! The name of an object, from its whole body or from pieces of it. No body is kept or copied.
ghost use Rattle.std.specs.Prelude.{◌≡◌, ℕ, List, [], ◌++◌, codes, length};
ghost use Rattle.bf_oid.specs.declared.object.Kind.{Kind};
ghost use Rattle.bf_oid.specs.Object.{kind_text, name_of};

use crate::{Kind, Oid};
use itoa::Buffer;
use sha1::Sha1;

/// A name in the making: `start`, an `update` for each piece of the body, and `finish`.
#[derive(Debug, Drop)]
pub struct ObjectHasher {
    sha: Sha1,
}

/// The text of a kind, and the space behind it.
fn kind_with_space(kind: Kind) -> &'static [u8]
    ensures { result.now ≡ kind_text kind ++ codes " " }
{
    match kind {
        Kind::Blob => b"blob ",
        Kind::Tree => b"tree ",
        Kind::Commit => b"commit ",
    }
}

impl ObjectHasher {
    ghost use Rattle.bf_oid.specs.Hashing.{Hashes};

    /// Starts on an object whose body will have `length` bytes.
    #[tactic(auto, unfolding(crate::specs::Hashing::Hashes))]
    pub fn start(kind: Kind, length: u64) -> ObjectHasher
        ensures { Hashes result kind length [] }
    {
        let mut sha = Sha1::new();
        sha.update(kind_with_space(kind));
        sha.update(Buffer::new().format(length).as_bytes());
        sha.update(b"\0");
        ObjectHasher { sha }
    }

    /// Takes the next piece of the body.
    #[tactic(auto, unfolding(crate::specs::Hashing::Hashes))]
    pub fn update(&mut self, bytes: &[u8])
        ensures { (kind : Kind) (size : ℕ) (body : List ℕ)
            → Hashes self.old kind size body → Hashes self.new kind size (body ++ bytes.now) }
    {
        self.sha.update(bytes);
    }

    /// The name of the object. The pieces are to have as many bytes as `start` was told.
    #[tactic(auto, unfolding(crate::specs::Hashing::Hashes))]
    pub fn finish(self) -> Oid
        ensures { (kind : Kind) (body : List ℕ)
            → Hashes self kind (length body) body → result.0 ≡ name_of kind body }
    {
        Oid(self.sha.finalize())
    }
}

/// The name of the object of this kind with this body: the SHA-1 (FIPS 180-4) of the kind, a space, the
/// length in decimal, a byte 0, and the body.
pub fn object_name(kind: Kind, body: &[u8]) -> Oid
    ensures { result.0 ≡ name_of kind body.now }
{
    let mut hasher = ObjectHasher::start(kind, body.len() as u64);
    hasher.update(body);
    hasher.finish()
}
