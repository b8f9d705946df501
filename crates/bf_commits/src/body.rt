//! The name of a commit. Its body is hashed piece by piece, and never kept.
ghost use Rattle.std.specs.Prelude.{◌≡◌, ℕ, ◌*◌, ◌^◌, ◌<◌, ◌≤◌, List, [], ◌++◌, length, All, IfOk, OnErr};
ghost use Rattle.hex.specs.Hex.{encode_lower};
ghost use Rattle.bf_history.specs.Bodies.{author_of};
ghost use Rattle.bf_oid.specs.declared.object.Kind.TheVariants as kind;
ghost use Rattle.bf_oid.specs.Object.{name_of};
ghost use Rattle.bf_commits.specs.Naming.{Adds, IsBody, IsLength, body_length, commit_name, encoding_line, hashed_name, header_lines};
ghost use Rattle.bf_commits.specs.Naming.{parent_lines};
ghost use Rattle.bf_history.specs.Meanings.{original_of};

use arrayvec::ArrayVec;
use bf_grammar::Header;
use bf_io::Bytes;
use bf_oid::{Kind, ObjectHasher, Oid, oid_from_hex};
use std::alloc::AllocError;

/// The most bytes of a body that are held: as many as a commit of two parents has before its message, where its
/// idents are short.
const HELD: usize = 320;

/// The name of the commit of this tree with these parents, which are places of `names` and may repeat: its
/// original one, where its header keeps that, and else the one that git gives it. An error comes only where
/// its body has 2^64 bytes or more.
pub fn commit_name(
    tree: Oid,
    parents: &[u32],
    names: &[Oid],
    header: &Header,
) -> Result<Oid, AllocError>
    requires { All (λ place. place < length names.now) parents.now }
    ensures oid { IfOk result (λ oid. oid ≡ commit_name tree.0 parents.now names.now header.now) }
    ensures large { OnErr result (2 ^ 64 ≤ body_length (length parents.now) header.now) }
{
    match original_name(header) {
        Some(name) => Ok(name),
        None => hashed_name(tree, parents, names, header),
    }
}

/// The name that a commit had before it was exported, where its header keeps one of 40 hexadecimal digits.
pub fn original_name(header: &Header) -> Option<Oid>
    ensures { result ≡ original_of header.now }
{
    match &header.original {
        Some(text) => oid_from_hex(text.as_slice()),
        None => None,
    }
}

/// The name that git gives a commit.
fn hashed_name(
    tree: Oid,
    parents: &[u32],
    names: &[Oid],
    header: &Header,
) -> Result<Oid, AllocError>
    requires { All (λ place. place < length names.now) parents.now }
    ensures oid { IfOk result (λ oid. oid ≡ hashed_name tree.0 parents.now names.now header.now) }
    ensures large { OnErr result (2 ^ 64 ≤ body_length (length parents.now) header.now) }
{
    let length = body_length(parents.len() as u64, header).ok_or(AllocError)?;
    let mut body = Body::start(length);
    body.add_name(b"tree ", tree);
    body.add_parents(parents, names);
    body.add_header(header);
    Ok(body.finish())
}

/// The length of a body with so many parents; `None` where it is 2^64 or more.
fn body_length(parents: u64, header: &Header) -> Option<u64>
    ensures { IsLength result (body_length parents header.now) }
{
    parents
        .checked_mul(48)?
        .checked_add(45)?
        .checked_add(header_length(header)?)
}

/// The length of the lines of a header and of its message, with the LF before each.
fn header_length(header: &Header) -> Option<u64>
    ensures { IsLength result (length (header_lines header.now)) }
{
    let words = (b"\nauthor ".len() + b"\ncommitter ".len() + b"\n\n".len()) as u64;
    words
        .checked_add(author_of(header).len() as u64)?
        .checked_add(header.committer.len() as u64)?
        .checked_add(encoding_length(&header.encoding)?)?
        .checked_add(header.message.len() as u64)
}

fn encoding_length(encoding: &Option<Bytes>) -> Option<u64>
    ensures { IsLength result (length (encoding_line encoding.now)) }
{
    match encoding {
        Some(text) => (text.len() as u64).checked_add(b"\nencoding ".len() as u64),
        None => Some(0),
    }
}

/// The body of a commit in the making. Short pieces are held, and hashed together.
#[derive(Drop)]
struct Body {
    hasher: ObjectHasher,
    held: ArrayVec<u8, HELD>,
}

impl Body {
    /// A body that will have so many bytes.
    fn start(length: u64) -> Body
        ensures { IsBody result length [] }
    {
        Body {
            hasher: ObjectHasher::start(Kind::Commit, length),
            held: ArrayVec::new(),
        }
    }

    /// Adds a piece. One that finds no room is hashed where it lies, behind what is held.
    fn add(&mut self, piece: &[u8])
        ensures { Adds self.old self.new piece.now }
    {
        if self.held.try_extend_from_slice(piece).is_err() {
            self.hash_held();
            self.hasher.update(piece);
        }
    }

    /// Hashes what is held.
    #[inline(never)]
    fn hash_held(&mut self)
        ensures same { Adds self.old self.new [] }
        ensures empty { self.new.held.items ≡ [] }
    {
        self.hasher.update(self.held.as_slice());
        self.held.clear();
    }

    /// The name of the commit. The pieces are to have as many bytes together as `start` was told.
    fn finish(mut self) -> Oid
        ensures { (text : List ℕ)
            → IsBody self (length text) text → result.0 ≡ name_of kind.Commit text }
    {
        self.hash_held();
        self.hasher.finish()
    }

    /// Adds a line for each parent.
    fn add_parents(&mut self, parents: &[u32], names: &[Oid])
        requires { All (λ place. place < length names.now) parents.now }
        ensures lines { Adds self.old self.new (parent_lines names.now parents.now) }
        ensures length { length (parent_lines names.now parents.now) ≡ 48 * length parents.now }
    {
        for place in parents {
            self.add_name(b"\nparent ", names[*place as usize]);
        }
    }

    /// Adds the lines of a header, an empty line and the message.
    fn add_header(&mut self, header: &Header)
        ensures { Adds self.old self.new (header_lines header.now) }
    {
        self.add_text(b"\nauthor ", author_of(header));
        self.add_text(b"\ncommitter ", header.committer.as_slice());
        self.add_encoding(&header.encoding);
        self.add_text(b"\n\n", header.message.as_slice());
    }

    /// Adds the line of the encoding, where there is one.
    fn add_encoding(&mut self, encoding: &Option<Bytes>)
        ensures { Adds self.old self.new (encoding_line encoding.now) }
    {
        if let Some(encoding) = encoding {
            self.add_text(b"\nencoding ", encoding.as_slice());
        }
    }

    /// Adds a word and a name in 40 hexadecimal digits.
    #[inline(always)]
    fn add_name(&mut self, word: &[u8], name: Oid)
        ensures name { Adds self.old self.new (word.now ++ encode_lower name.0) }
        ensures length { length (encode_lower name.0) ≡ 40 }
    {
        let mut digits = [0; 40];
        hex::encode_to_slice(name.0.as_slice(), &mut digits).unwrap();
        self.add_text(word, &digits);
    }

    /// Adds a word and a text.
    #[inline(always)]
    fn add_text(&mut self, word: &[u8], text: &[u8])
        ensures { Adds self.old self.new (word.now ++ text.now) }
    {
        self.add(word);
        self.add(text);
    }
}

/// Without an author the committer stands for it.
fn author_of(header: &Header) -> &[u8]
    ensures { result.now ≡ author_of header.now }
{
    match &header.author {
        Some(author) => author.as_slice(),
        None => header.committer.as_slice(),
    }
}
