//! Lines of words from outside, and each call that allocates with ample memory.
use bf_io::{Bytes, Word};
use bf_words::*;
use std::alloc::{AllocError, Global};
use std::test::Fail;

// Adds the words of a text, with SP between them.
fn push_words(alloc: Global, text: &[u8], words: &mut Vec<Word>) -> Result<(), AllocError> {
    for word in text.split(|letter| *letter == b' ') {
        words.push(Bytes::from_slice(alloc, word)?)?;
    }
    Ok(())
}

fn split(alloc: Global, text: &[u8]) -> Result<Vec<Word>, AllocError> {
    let mut words = Vec::new(alloc);
    push_words(alloc, text, &mut words)?;
    Ok(words)
}

// The word at fault.
fn fault(alloc: Global, text: &[u8]) -> Result<Option<u32>, AllocError> {
    match read_words(alloc, split(alloc, text)?.as_slice()) {
        Ok(_) => Ok(None),
        Err(WordFault::At { word }) => Ok(Some(word)),
        Err(WordFault::NoMemory) => Err(AllocError),
    }
}

type Line = (&'static [u8], Option<u32>);

fn lines() -> &'static [Line] {
    &LINES
}

// Lines, each with its word at fault.
static LINES: [Line; 40] = [
    (b"", Some(0)),
    (b"bisect main a g", Some(0)),
    (b"simulate", Some(1)),
    (b"simulate main", Some(2)),
    (b"simulate main a", Some(3)),
    (b"simulate main a g", None),
    (b"simulate main a gbskan", None),
    (b"simulate main a b c gx", Some(5)),
    (b"simulate main a ", None),
    (b"simulate --workers 64 main a g", None),
    (b"simulate --workers 65 main a g", Some(2)),
    (b"simulate --workers 0 main a g", Some(2)),
    (b"simulate --workers main a g", Some(2)),
    (b"simulate --leg 0 main a g", Some(2)),
    (b"simulate main a g --leg 1000000", None),
    (b"simulate main a g --leg 1000001", Some(5)),
    (
        b"simulate main --trace a --first-parent g --lenient-exit",
        None,
    ),
    (b"simulate --trace --trace main a g", Some(2)),
    (b"simulate --trace=1 main a g", Some(1)),
    (b"simulate - main a g", Some(1)),
    (b"simulate main a g --", Some(4)),
    (b"simulate main a g --skip", Some(5)),
    (b"simulate --skip --skip --skip b main a g", None),
    (b"simulate --term-new good main", Some(2)),
    (b"simulate --term-old bad --term-new good main", Some(4)),
    (b"simulate --term-old x --term-new x main", Some(4)),
    (b"simulate --term-new x --replay f", Some(1)),
    (b"simulate --replay f g", None),
    (b"simulate --replay f a g", Some(4)),
    (b"run main a", Some(3)),
    (b"run main a --", Some(4)),
    (b"run main -- t", Some(4)),
    (b"run main a -- t --trace --trace --", None),
    (b"run --replay f -- t", None),
    (b"next --workers 2 main a", Some(1)),
    (b"next main a", None),
    (b"replay", Some(1)),
    (b"replay --replay f --skip a", Some(3)),
    (b"gen 18446744073709551615 100000", None),
    (b"gen 0 100001 1", Some(2)),
];

#[test]
fn faults_of_lines(rt: HostRuntime) -> Result<(), Fail> {
    for &(text, word) in lines() {
        assert_eq!(rt; fault(rt.alloc(), text)?, word, "{text:?}");
    }
    Ok(())
}

#[test]
fn a_request_has_the_words_and_numbers(rt: HostRuntime) -> Result<(), Fail> {
    let text = b"run --workers 8 --skip a main b c --skip -- --leg 3 --term-new fixed -- sh -c";
    let words = split(rt.alloc(), text)?;
    let request = read_words(rt.alloc(), words.as_slice())?;
    assert_eq!(rt; request.verb, Verb::Run);
    assert_eq!(rt; request.bad, Some(5));
    assert_eq!(rt; request.goods.as_slice(), [6, 7].as_slice());
    assert_eq!(rt; request.skips.as_slice(), [4, 9].as_slice());
    assert_eq!(rt; request.tail, Some(15));
    assert_eq!(rt; (request.workers, request.leg), (8, 3));
    assert!(rt;
        request
            .terms
            .is_some_and(|terms| terms.new_term() == b"fixed".as_slice())
    );
    let words = split(rt.alloc(), b"sample 7 --workers 2 9")?;
    let request = read_words(rt.alloc(), words.as_slice())?;
    assert_eq!(rt; (request.number, request.count, request.workers), (7, 9, 2));
    Ok(())
}
