//! Streams with the histories that they load, in the names of git.
ghost use Rattle.std.specs.Prelude.{◌<◌, length};
ghost use Rattle.bf_grammar.specs.Limits.{IsWithin};

use bf_import::{History, ImportFault, Limits, import};
use bf_io::{Bytes, MemSource, put_decimal};
use bf_oid::{Mode, oid_hex};
use std::alloc::{AllocError, Global};
use std::process::Abort;
use std::test::Fail;

// Imports a stream that comes in pieces.
pub(crate) fn load(
    alloc: Global,
    stream: &[u8],
    piece: usize,
    limits: Limits,
) -> Result<History, ImportFault>
    requires piece { 0 < piece }
    requires limits { IsWithin limits }
{
    let mut source = MemSource::new(Bytes::from_slice(alloc, stream)?, piece, Vec::new(alloc));
    import(alloc, &mut source, limits)
}

fn mode_text(mode: Mode) -> &'static [u8] {
    match mode {
        Mode::Plain => b"100644",
        Mode::Exec => b"100755",
        Mode::Link => b"120000",
        Mode::Module => b"160000",
    }
}

// The name of a commit, that of its tree, the places of its parents and its subject.
fn put_head(out: &mut Bytes, history: &History, place: u32) -> Result<(), AllocError>
    requires { place < length history.now.parents }
{
    let mut name = [0; 40];
    let commit = history.names()[place as usize];
    if history.place_named(commit) != Some(place) {
        out.append(b"not found: ")?;
    }
    oid_hex(commit, &mut name);
    out.append(name.as_slice())?;
    out.push(b' ')?;
    oid_hex(history.tree_name(place), &mut name);
    out.append(name.as_slice())?;
    for parent in history.graph().parents(place) {
        out.push(b' ')?;
        put_decimal(out, u64::from(*parent))?;
    }
    out.push(b' ')?;
    out.append(history.subjects()[place as usize].as_slice())?;
    out.push(b'\n')
}

fn put_file(out: &mut Bytes, mode: Mode, path: &[u8]) -> Result<(), AllocError> {
    out.append(b"  ")?;
    out.append(mode_text(mode))?;
    out.push(b' ')?;
    out.append(path)?;
    out.push(b'\n')
}

// The head of a commit; then its files.
fn put_commit(out: &mut Bytes, history: &History, place: u32) -> Result<(), AllocError>
    requires { place < length history.now.parents }
{
    put_head(out, history, place)?;
    for file in &history.files(place)? {
        put_file(out, file.mode, file.path.to_bytes()?.as_slice())?;
    }
    Ok(())
}

// The refs with their places.
fn put_refs(out: &mut Bytes, history: &History) -> Result<(), AllocError> {
    let refs = history.refs();
    for index in 0..refs.len() {
        let (name, place) = refs.at(index);
        out.append(name.as_slice())?;
        out.push(b' ')?;
        put_decimal(out, u64::from(place))?;
        out.push(b'\n')?;
    }
    Ok(())
}

// All commits by place, and the refs.
fn described(alloc: Global, history: &History) -> Result<Bytes, AllocError> {
    let mut out = Bytes::new(alloc);
    for place in 0..history.len() {
        put_commit(&mut out, history, place)?;
    }
    put_refs(&mut out, history)?;
    Ok(out)
}

fn loaded_streams() -> &'static [(&'static str, &'static [u8], &'static [u8])] {
    &LOADED
}

// What a stream loads that comes in pieces.
fn loaded(alloc: Global, stream: &[u8], piece: usize) -> Result<Bytes, ImportFault>
    requires { 0 < piece }
{
    let history = load(alloc, stream, piece, Limits::standard())?;
    Ok(described(alloc, &history)?)
}

// Asserts what a stream loads that comes in pieces.
fn loads(
    rt: &impl Abort,
    alloc: Global,
    row: &(&str, &[u8], &[u8]),
    piece: usize,
) -> Result<(), ImportFault>
    requires { 0 < piece }
{
    let (name, stream, text) = *row;
    let found = loaded(alloc, stream, piece)?;
    assert_eq!(rt; found.as_slice(), text, "{name} by {piece} bytes");
    Ok(())
}

#[test]
fn streams_load_the_histories_of_git(rt: HostRuntime) -> Result<(), Fail> {
    for row in loaded_streams() {
        loads(&rt, rt.alloc(), row, 65_536)?;
        loads(&rt, rt.alloc(), row, 1)?;
    }
    Ok(())
}

// Authors, files, a merge, a tag and a reset, as an export without data writes them.
pub(crate) const EXPORT: &[u8] = b"\
reset refs/heads/main
commit refs/heads/main
mark :1
author Ann Lee <ann@example.org> 1700000000 +0100
committer Ann Lee <ann@example.org> 1700000000 +0100
data 5
init
M 100644 ce013625030ba8dba906f756967f9e9ca394464a hello.txt
M 100755 e69de29bb2d1d6434b8b29ae775ad8c2e48c5391 \"tools/b\\303\\244r.sh\"
M 160000 1111111111111111111111111111111111111111 lib/ext

commit refs/heads/topic
mark :2
author Bo <bo@example.org> 1700000100 -0530
committer Ann Lee <ann@example.org> 1700000200 +0100
data 6
topic
from :1
D hello.txt

commit refs/heads/main
mark :3
author Ann Lee <ann@example.org> 1700000300 +0100
committer Ann Lee <ann@example.org> 1700000300 +0100
data 5
work
from :1
M 120000 e69de29bb2d1d6434b8b29ae775ad8c2e48c5391 link

commit refs/heads/main
mark :4
author Ann Lee <ann@example.org> 1700000400 +0100
committer Ann Lee <ann@example.org> 1700000400 +0100
data 6
merge
from :3
merge :2
D hello.txt

tag v1.0
from :1
tagger Ann Lee <ann@example.org> 1700000500 +0100
data 5
v1.0

reset refs/heads/topic
from :2

";

// Streams that load, with their commits and refs.
static LOADED: [(&str, &[u8], &[u8]); 23] = [
    (
        "comments",
        b"\
commit refs/heads/main
# one
mark :1
committer T <t@e> 0 +0000
#
data 2
c0
# end",
        b"\
56b29d9c130e2ec4b506a48d4fe5a18d92d8d1e3 4b825dc642cb6eb9a060e54bf8d69288fbee4904 c0
refs/heads/main 0
",
    ),
    (
        "delimited",
        b"\
commit refs/heads/main
mark :1
committer T <t@e> 0 +0000
data <<END
c0
# text
END

",
        b"\
54b65116d38eabec5c2938f34713c3e8c0e5d103 4b825dc642cb6eb9a060e54bf8d69288fbee4904 c0
refs/heads/main 0
",
    ),
    (
        "directory order",
        b"\
blob
mark :9
data 1
x
commit refs/heads/main
mark :1
committer T <t@e> 0 +0000
data 2
c0
M 644 :9 a/x
M 644 :9 a.b
M 644 :9 a0
",
        b"\
079f94ab299fc524460068f70e83515476d308c0 f83616b85acf3006ed666dfc15470052ba256ebe c0
  100644 a.b
  100644 a/x
  100644 a0
refs/heads/main 0
",
    ),
    (
        "directory over file",
        b"\
blob
mark :9
data 1
x
commit refs/heads/main
mark :1
committer T <t@e> 0 +0000
data 2
c0
M 120000 :9 a
M 644 :9 a/b/c
D a/b/x
",
        b"\
c2732cb6fa6923005d0cbfe76c65fc82770218fd 343bad08e73b3ccecb3152b8affac5f39c45377b c0
  100644 a/b/c
refs/heads/main 0
",
    ),
    (
        "done ends",
        b"\
commit refs/heads/main
mark :1
committer T <t@e> 0 +0000
data 2
c0
done
nothing of this is read",
        b"\
56b29d9c130e2ec4b506a48d4fe5a18d92d8d1e3 4b825dc642cb6eb9a060e54bf8d69288fbee4904 c0
refs/heads/main 0
",
    ),
    (
        "encoding",
        b"\
commit refs/heads/main
mark :1
committer T <t@e> 0 +0000
encoding latin-1
data 2
c0
",
        b"\
3a9e4d40944243e3c9fd285237e9dd1415cbbb4d 4b825dc642cb6eb9a060e54bf8d69288fbee4904 c0
refs/heads/main 0
",
    ),
    (
        "feature done",
        b"\
feature done
commit refs/heads/main
mark :1
committer T <t@e> 0 +0000
data 2
c0
done
",
        b"\
56b29d9c130e2ec4b506a48d4fe5a18d92d8d1e3 4b825dc642cb6eb9a060e54bf8d69288fbee4904 c0
refs/heads/main 0
",
    ),
    (
        "file over directory",
        b"\
blob
mark :9
data 1
x
commit refs/heads/main
mark :1
committer T <t@e> 0 +0000
data 2
c0
M 100644 :9 a/b
M 100755 :9 a
",
        b"\
59369c3e2653aa315236153e2fba6afa3c6481c2 9833ffa86a3a01407524d09507d904d97b248680 c0
  100755 a
refs/heads/main 0
",
    ),
    (
        "from digits",
        b"\
commit refs/heads/main
mark :1
committer T <t@e> 0 +0000
data 2
c0
reset refs/heads/x
from 56B29D9C130E2EC4B506A48D4FE5A18D92D8D1E3
",
        b"\
56b29d9c130e2ec4b506a48d4fe5a18d92d8d1e3 4b825dc642cb6eb9a060e54bf8d69288fbee4904 c0
refs/heads/main 0
refs/heads/x 0
",
    ),
    (
        "mark widest",
        b"\
commit refs/heads/main
mark :18446744073709551615
committer T <t@e> 0 +0000
data 2
c0
",
        b"\
56b29d9c130e2ec4b506a48d4fe5a18d92d8d1e3 4b825dc642cb6eb9a060e54bf8d69288fbee4904 c0
refs/heads/main 0
",
    ),
    (
        "merge first is a parent",
        b"\
commit refs/heads/main
mark :1
committer T <t@e> 0 +0000
data 2
c0
commit refs/heads/x
committer T <t@e> 1 +0000
data 2
c1
merge :1
",
        b"\
56b29d9c130e2ec4b506a48d4fe5a18d92d8d1e3 4b825dc642cb6eb9a060e54bf8d69288fbee4904 c0
f570778fec974dd2b05ee862e235ff38a61118d3 4b825dc642cb6eb9a060e54bf8d69288fbee4904 0 c1
refs/heads/main 0
refs/heads/x 1
",
    ),
    (
        "no lf at the end",
        b"\
commit refs/heads/main
mark :1
committer T <t@e> 0 +0000
data 2
c0",
        b"\
56b29d9c130e2ec4b506a48d4fe5a18d92d8d1e3 4b825dc642cb6eb9a060e54bf8d69288fbee4904 c0
refs/heads/main 0
",
    ),
    (
        "no subject",
        b"\
commit refs/heads/main
mark :1
committer T <t@e> 0 +0000
data 0
",
        b"\
69e3837a14c841f128a8625faf78a1c29a39e6a8 4b825dc642cb6eb9a060e54bf8d69288fbee4904 
refs/heads/main 0
",
    ),
    (
        "option and progress",
        b"\
option git quiet
progress at work
commit refs/heads/main
mark :1
committer T <t@e> 0 +0000
data 2
c0
",
        b"\
56b29d9c130e2ec4b506a48d4fe5a18d92d8d1e3 4b825dc642cb6eb9a060e54bf8d69288fbee4904 c0
refs/heads/main 0
",
    ),
    (
        "own branch",
        b"\
commit refs/heads/main
mark :1
committer T <t@e> 0 +0000
data 2
c0
commit refs/heads/main
mark :1
committer T <t@e> 0 +0000
data 2
c1
from refs/heads/main
",
        b"\
56b29d9c130e2ec4b506a48d4fe5a18d92d8d1e3 4b825dc642cb6eb9a060e54bf8d69288fbee4904 c0
4e9b79ae617ac925ad184ca8cd87d386a109bcad 4b825dc642cb6eb9a060e54bf8d69288fbee4904 0 c1
refs/heads/main 1
",
    ),
    (
        "reset then root",
        b"\
commit refs/heads/main
mark :1
committer T <t@e> 0 +0000
data 2
c0
reset refs/heads/main
commit refs/heads/main
mark :1
committer T <t@e> 0 +0000
data 2
c9
",
        b"\
56b29d9c130e2ec4b506a48d4fe5a18d92d8d1e3 4b825dc642cb6eb9a060e54bf8d69288fbee4904 c0
cab27c4a0ee571176f05090b5f886de53d1267d9 4b825dc642cb6eb9a060e54bf8d69288fbee4904 c9
refs/heads/main 1
",
    ),
    (
        "reset to zeros",
        b"\
commit refs/heads/main
mark :1
committer T <t@e> 0 +0000
data 2
c0
reset refs/heads/main
from 0000000000000000000000000000000000000000
",
        b"\
56b29d9c130e2ec4b506a48d4fe5a18d92d8d1e3 4b825dc642cb6eb9a060e54bf8d69288fbee4904 c0
",
    ),
    (
        "subject on second line",
        b"\
commit refs/heads/main
mark :1
committer T <t@e> 0 +0000
data 7

c0
c1

",
        b"\
04a9cd5780b44d805266295e6653cb225740e1dd 4b825dc642cb6eb9a060e54bf8d69288fbee4904 c0
refs/heads/main 0
",
    ),
    (
        "tag",
        b"\
commit refs/heads/main
mark :1
committer T <t@e> 0 +0000
data 2
c0
tag t
mark :5
from refs/heads/main^0
tagger T <t@e> 0 +0000
data 2
hi
",
        b"\
56b29d9c130e2ec4b506a48d4fe5a18d92d8d1e3 4b825dc642cb6eb9a060e54bf8d69288fbee4904 c0
refs/heads/main 0
refs/tags/t 0
",
    ),
    (
        "zone 1400",
        b"\
commit refs/heads/main
mark :1
committer T <t@e> 0 -1400
data 2
c0
",
        b"\
60dee8491794718a441069b87ba6fc39535f721c 4b825dc642cb6eb9a060e54bf8d69288fbee4904 c0
refs/heads/main 0
",
    ),
    (
        "one commit twice",
        b"\
commit refs/heads/main
mark :1
committer T <t@e> 0 +0000
data 2
c0
commit refs/heads/copy
mark :2
committer T <t@e> 0 +0000
data 2
c0
commit refs/heads/main
mark :3
committer T <t@e> 1 +0000
data 2
c1
from :1
merge :2
",
        b"\
56b29d9c130e2ec4b506a48d4fe5a18d92d8d1e3 4b825dc642cb6eb9a060e54bf8d69288fbee4904 c0
802225c7356c24b2f9781f9796f21c6b8a74aca2 4b825dc642cb6eb9a060e54bf8d69288fbee4904 0 0 c1
refs/heads/main 1
refs/heads/copy 0
",
    ),
    (
        "files that are set and removed",
        b"\
blob
mark :1
data 1
x
commit refs/heads/main
mark :2
committer T <t@e> 0 +0000
data 2
c0
M 100644 :1 a
commit refs/heads/main
mark :3
committer T <t@e> 1 +0000
data 2
c1
M 100644 :1 bug
commit refs/heads/main
mark :4
committer T <t@e> 2 +0000
data 2
c2
D a
commit refs/heads/main
mark :5
committer T <t@e> 3 +0000
data 2
c3
M 100644 inline lib/z
data 1
y
",
        b"\
467207855193401d0c76f800276253541fc82543 aebda9dc3ba9fcf157d984e4875052d313f51a60 c0
  100644 a
52c8fde0f24c3e90827b81d1bd1ab29661c9c5d1 a3c93856b286f30a62a0c9675a83fe3216fc1c94 0 c1
  100644 a
  100644 bug
7d9f57026e22b8276ab8363e3b73c8fb6074a0ac 66ce980d49c7c3b45957889ab9f5ea98fcd42ea6 1 c2
  100644 bug
7c0c6575b096d0983788cb1df53789c5bd4eeaf2 aeb2cd470624a7d97a00425875e58938f5a74b30 2 c3
  100644 bug
  100644 lib/z
refs/heads/main 3
",
    ),
    (
        "as git fast-export writes",
        EXPORT,
        b"\
dd9c6ee0d64cf32331ce5eec0af83f4d07bf21ab 18b0f3ea1c000c8f67230a3eef19fc4a30ff98d4 init
  100644 hello.txt
  160000 lib/ext
  100755 tools/b\xc3\xa4r.sh
cf6f2232f50796df2c5a1a3938dcb2baca0016cb 8f74371771cbb67d005cd61b80db3899787a79e9 0 topic
  160000 lib/ext
  100755 tools/b\xc3\xa4r.sh
a048d6505ae98b4ffb2aa6b8cef81c7cd838dcc0 65709010445ee8275c519b73e4d83ae7e56c7f94 0 work
  100644 hello.txt
  160000 lib/ext
  120000 link
  100755 tools/b\xc3\xa4r.sh
5f50d336a9e80bce51638f652a254f69d7cc3a22 74751b966f3c806accf910b32fc7c36d55631d6f 2 1 merge
  160000 lib/ext
  120000 link
  100755 tools/b\xc3\xa4r.sh
refs/heads/main 3
refs/heads/topic 1
refs/tags/v1.0 0
",
    ),
];
