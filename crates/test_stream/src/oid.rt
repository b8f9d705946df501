//! Names that git prints, and the texts of names.
use bf_oid::{Kind, ObjectHasher, object_name, oid_from_hex, oid_hex};

#[test]
fn names_are_those_of_git(rt: HostRuntime) {
    let table: [(Kind, &[u8], &[u8; 40]); 4] = [
        (Kind::Blob, b"", b"e69de29bb2d1d6434b8b29ae775ad8c2e48c5391"),
        (
            Kind::Blob,
            b"hello\n",
            b"ce013625030ba8dba906f756967f9e9ca394464a",
        ),
        (Kind::Tree, b"", b"4b825dc642cb6eb9a060e54bf8d69288fbee4904"),
        (
            Kind::Commit,
            b"tree 4b825dc642cb6eb9a060e54bf8d69288fbee4904\nauthor T <t@e> 0 +0000\ncommitter T <t@e> 0 +0000\n\nc0",
            b"56b29d9c130e2ec4b506a48d4fe5a18d92d8d1e3",
        ),
    ];
    let mut text = [0; 40];
    for (kind, body, name) in table {
        oid_hex(object_name(kind, body), &mut text);
        assert_eq!(rt; text.as_slice(), name.as_slice());
    }
}

#[test]
fn pieces_give_the_name_of_the_whole(rt: HostRuntime) {
    let mut hasher = ObjectHasher::start(Kind::Blob, 6);
    hasher.update(b"he");
    hasher.update(b"");
    hasher.update(b"llo\n");
    assert_eq!(rt; hasher.finish(), object_name(Kind::Blob, b"hello\n"));
}

#[test]
fn names_are_read_in_either_case(rt: HostRuntime) {
    let name = object_name(Kind::Blob, b"");
    assert_eq!(rt;
        oid_from_hex(b"e69de29bb2d1d6434b8b29ae775ad8c2e48c5391"),
        Some(name)
    );
    assert_eq!(rt;
        oid_from_hex(b"E69DE29BB2D1D6434B8B29AE775AD8C2E48C5391"),
        Some(name)
    );
    assert_eq!(rt;
        oid_from_hex(b"e69de29bb2d1d6434b8b29ae775ad8c2e48c539"),
        None
    );
    assert_eq!(rt;
        oid_from_hex(b"e69de29bb2d1d6434b8b29ae775ad8c2e48c539g"),
        None
    );
    assert_eq!(rt;
        oid_from_hex(b"e69de29bb2d1d6434b8b29ae775ad8c2e48c53910"),
        None
    );
}
