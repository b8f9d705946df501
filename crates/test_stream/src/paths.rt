//! Texts of paths from outside, and each call that allocates with ample memory.
use bf_io::Bytes;
use bf_paths::*;
use std::test::Fail;

/// The text of the path that a text writes, or nothing for a text that is no path.
fn text_of(alloc: std::alloc::Global, text: &[u8]) -> Result<Option<Bytes>, PathFault> {
    match read_path(alloc, text) {
        Ok(path) => Ok(Some(path.to_bytes()?)),
        Err(PathFault::Bad) => Ok(None),
        Err(PathFault::NoMemory) => Err(PathFault::NoMemory),
    }
}

#[test]
fn read_path_takes_plain_and_quoted_texts(rt: HostRuntime) -> Result<(), Fail> {
    let table: [(&[u8], Option<&[u8]>); 20] = [
        (b"a", Some(b"a")),
        (b"a/b c/d", Some(b"a/b c/d")),
        (b".../a\"b", Some(b".../a\"b")),
        (b"\"b\\303\\244\"", Some(b"b\xc3\xa4")),
        (b"\"a\\/b\"", None),
        (
            b"\"\\a\\b\\t\\n\\v\\f\\r\\\"\\\\\"",
            Some(b"\x07\x08\t\n\x0b\x0c\r\"\\"),
        ),
        (b"\"a\\057b\"", Some(b"a/b")),
        (b"\"\\377\"", Some(b"\xff")),
        (b"\"\\400\"", None),
        (b"\"\\38a\"", None),
        (b"\"\\37\"", None),
        (b"\"a", None),
        (b"\"a\"b", None),
        (b"", None),
        (b"\"\"", None),
        (b"a//b", None),
        (b"a/", None),
        (b"a/./b", None),
        (b"../a", None),
        (b"\"a\\000\"", None),
    ];
    for (text, path) in table {
        let read = text_of(rt.alloc(), text)?;
        assert_eq!(rt;
            read.as_ref().map(|bytes| bytes.as_slice()),
            path,
            "{text:?}"
        );
    }
    Ok(())
}

#[test]
fn quote_writes_letters_and_octal_digits(rt: HostRuntime) -> Result<(), Fail> {
    let path = read_path(rt.alloc(), b"\"a b/\\001\\t\\177\\303\"")?;
    assert_eq!(rt;
        quote(&path)?.as_slice(),
        b"\"a b/\\001\\t\\177\\303\"".as_slice()
    );
    let copy = path.try_clone()?;
    assert_eq!(rt; quote(&copy)?, quote(&path)?);
    assert_eq!(rt; copy.components().len(), 2);
    round_trip(&copy);
    Ok(())
}
