//! What is said on the standard error of a word that is at fault, and of a command that cannot be started.
use bf_checkout::TreesRefusal;
use bf_io::Word;
use bf_tester::ProcessTester;
use std::io::{self, Error};

/// What is right at the word behind an option that takes a value.
fn value_of(option: &[u8]) -> Option<&'static str> {
    match option {
        b"--workers" => Some("--workers takes a number from 1 to 64"),
        b"--leg" => Some("--leg takes a number from 1 to 1,000,000"),
        b"--term-new" | b"--term-old" => {
            Some(
                "a term has 1 to 40 letters, digits and hyphens, is no command of git bisect, and is not the other one",
            )
        }
        b"--skip" => Some("--skip takes a commit or a range A..B"),
        b"--replay" => Some("--replay takes the name of a file"),
        _ => None,
    }
}

/// The line of a command.
fn line_of(command: &[u8]) -> &'static str {
    match command {
        b"simulate" =>
            "simulate [OPTION..] BAD GOOD.. PLAN, and the letters of PLAN are g b s a k n",
        b"run" => "run [OPTION..] BAD GOOD.. -- COMMAND..",
        b"next" => "next [OPTION..] BAD GOOD..",
        b"replay" => "replay --replay FILE",
        b"gen" => "gen NUMBER COUNT, where COUNT is 1 to 100,000",
        b"sample" => "sample [--workers N] NUMBER COUNT, where COUNT is 1 to 100,000",
        b"certify" =>
            "the word simulate or run and the rest of its line, without --leg and --trace",
        b"check" => "check [--original-names] FILE",
        b"checkout" | b"journal" => "the word run and the rest of its line",
        b"many" => "many N FILE, where N is 1 to 64",
        b"serve" => "serve [--original-names]",
        _ =>
            "the first word is simulate, run, next, replay, gen, sample, certify, check, checkout, journal, many or serve",
    }
}

/// A word of the line, empty where there is none.
fn text_at(words: &[Word], at: usize) -> &[u8] {
    match words.get(at) {
        Some(word) => word.as_slice(),
        None => b"",
    }
}

/// The command whose line says what would be right at a word: behind one that stands before another the second one, but
/// for the options that `certify` refuses.
fn command_at(words: &[Word], word: usize) -> &[u8] {
    match (text_at(words, 0), text_at(words, word)) {
        _ if word == 0 => b"",
        (b"certify", b"--leg" | b"--trace") => b"certify",
        (b"certify" | b"checkout" | b"journal", _) if word > 1 => text_at(words, 1),
        (first, _) => first,
    }
}

/// What would be right at a word: the value of the option before it, or the line of the command.
fn right_at(words: &[Word], word: usize) -> &'static str {
    let before = word.checked_sub(1).and_then(|at| words.get(at));
    let value = before.and_then(|option| value_of(option.as_slice()));
    value.unwrap_or_else(|| line_of(command_at(words, word)))
}

/// Says on the standard error which argument is no text, by the number of its word. Where it cannot be written nothing
/// is said.
pub(crate) fn tell_no_text<R: Eprint>(rt: &R, argument: usize) {
    let _ = match argument.checked_sub(1) {
        Some(word) => eprintln!(rt; "farmdawn: word {word} is not UTF-8, and each word must be"),
        None => eprintln!(rt; "farmdawn: its own name, by which it was started, is not UTF-8"),
    };
}

/// Says on the standard error which word is at fault, what would be right there, and where more is told. Where it
/// cannot be written nothing is said.
pub(crate) fn tell<R: Eprint>(rt: &R, words: &[Word], word: u32) {
    let at = word as usize;
    let right = right_at(words, at);
    let _ = match words
        .get(at)
        .map(|word| std::str::from_utf8(word.as_slice()))
    {
        Some(Ok(text)) => eprintln!(rt; "farmdawn: word {word}, {text}, is not right: {right}"),
        _ => eprintln!(rt; "farmdawn: word {word} is missing: {right}"),
    };
    let _ = eprintln!(rt; "farmdawn --help shows each command and option");
}

/// Says on the standard error which command the system would not start at the latest test that failed, and why. Where
/// it cannot be written nothing is said.
pub(crate) fn tell_refusal<R: Eprint>(rt: &R, tester: &ProcessTester) {
    if let (Some(refusal), Ok(program)) = (
        tester.refusal(),
        std::str::from_utf8(tester.program()),
    ) {
        let reason = Error::from_raw_os_error(refusal);
        let _ = eprintln!(rt; "farmdawn: the command {program} cannot be started: {reason}");
    }
}

/// Says on the standard error how a stream that is refused for a command of git goes through git. Where it cannot be
/// written nothing is said.
pub(crate) fn tell_stream<R: Eprint>(rt: &R) {
    let _ = eprintln!(rt;
        "farmdawn: git reads what other systems write: git init -q --bare through.git,"
    );
    let _ = eprintln!(rt;
        "then git -C through.git fast-import <STREAM && git -C through.git fast-export --all"
    );
    let _ = eprintln!(rt;
        "a tag that names no commit is left out by --tag-of-filtered-object=drop --branches --tags=PATTERN in place of --all"
    );
}

/// Says on the standard error that a stream may have broken off. Where it cannot be written nothing is said.
pub(crate) fn tell_open<R: Eprint>(rt: &R) {
    let _ = eprintln!(rt;
        "farmdawn: no test was bad, and the stream had no done at its end: it may lack commits."
    );
    let _ = eprintln!(rt;
        "git fast-export --use-done-feature writes done where it has written all"
    );
}

/// Says on the standard error which folders in which tests were made could not be removed. Where it cannot be written
/// nothing is said.
pub(crate) fn tell_remains<R: Eprint>(rt: &R, remains: io::Result<Vec<u64>>) {
    let Ok(numbers) = remains else {
        return;
    };
    for number in &numbers {
        let _ = eprintln!(rt;
            "farmdawn: the folder bisect-trees/{number} is left: what a test had started still writes there"
        );
    }
}

/// Says on the standard error why a run may not work in `bisect-trees`, where that is so. Where it cannot be written
/// nothing is said.
pub(crate) fn tell_trees<R: Eprint>(rt: &R, refusal: Option<TreesRefusal>) {
    let why = match refusal {
        None => return,
        Some(TreesRefusal::InUse) => "another run works in it; run in another folder, or wait",
        Some(TreesRefusal::NotOurs) =>
            "it is not one that a run made; move it away, or run elsewhere",
        Some(TreesRefusal::Failed) => "it cannot be made, or locked, here",
    };
    let _ = eprintln!(rt; "farmdawn: the folder bisect-trees is not used: {why}");
}
