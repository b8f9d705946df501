//! Outcomes, their verdicts, and terms.
use bf_search::{Mark, Outcome, Verdict};
use bf_terms::{TermFault, Terms, lenient, outcome_of_letter, verdict_of};
use std::alloc::{AllocError, Global};
use std::process::Abort;
use std::test::Fail;

#[test]
fn statuses_and_their_verdicts(rt: HostRuntime) {
    assert_eq!(rt; verdict_of(Outcome::Exit(0)), Verdict::Mark(Mark::Good));
    assert_eq!(rt; verdict_of(Outcome::Exit(124)), Verdict::Mark(Mark::Bad));
    assert_eq!(rt; verdict_of(Outcome::Exit(125)), Verdict::Mark(Mark::Skip));
    assert_eq!(rt; verdict_of(Outcome::Exit(126)), Verdict::Abort);
    assert_eq!(rt;
        verdict_of(lenient(Outcome::Exit(127))),
        Verdict::Mark(Mark::Bad)
    );
    assert_eq!(rt; verdict_of(lenient(Outcome::Killed)), Verdict::Abort);
    assert_eq!(rt; outcome_of_letter(b'a'), Some(Outcome::Exit(128)));
    assert_eq!(rt; outcome_of_letter(b'x'), None);
}

/// Why two words are no terms.
fn fault(alloc: Global, new: &[u8], old: &[u8]) -> Option<TermFault> {
    match Terms::read(alloc, new, old) {
        Ok(_) => None,
        Err(fault) => Some(fault),
    }
}

#[test]
fn terms_are_read_in_order(rt: HostRuntime) {
    let alloc = rt.alloc();
    assert_eq!(rt; fault(alloc, b"good", b"broken"), Some(TermFault::New));
    assert_eq!(rt; fault(alloc, b"fixed", b"new"), Some(TermFault::Old));
    assert_eq!(rt; fault(alloc, b"x", b"x"), Some(TermFault::Same));
    assert_eq!(rt; fault(alloc, b"-x", b"y"), Some(TermFault::New));
    assert_eq!(rt; fault(alloc, b"x", b"terms"), Some(TermFault::Old));
}

fn have_their_words(rt: &impl Abort, terms: &Terms) -> Result<(), AllocError> {
    assert_eq!(rt; terms.new_term(), b"fixed".as_slice());
    assert_eq!(rt; terms.try_clone()?.old_term(), b"broken".as_slice());
    Ok(())
}

#[test]
fn terms_have_their_words(rt: HostRuntime) -> Result<(), Fail> {
    let terms = Terms::read(rt.alloc(), b"fixed", b"broken")?;
    have_their_words(&rt, &terms)?;
    Ok(())
}

#[test]
fn standard_terms_have_theirs(rt: HostRuntime) -> Result<(), Fail> {
    assert_eq!(rt; Terms::standard(rt.alloc())?.old_term(), b"good".as_slice());
    Ok(())
}
