//! What the outcome of a test says.
ghost use Rattle.std.specs.Prelude.{◌≡◌};
ghost use Rattle.bf_search.specs.Outcomes.{verdict_of, lenient, outcome_of_letter};

use bf_search::{Mark, Outcome, Verdict};

/// What an outcome says of its commit (git-bisect(1), "Bisect run"): status 0 is good, 125 skips, and
/// 1 to 124 are bad. 126 and above abort the run, and so does a signal.
pub fn verdict_of(outcome: Outcome) -> Verdict
    ensures { result ≡ verdict_of outcome }
{
    match outcome {
        Outcome::Exit(0) => Verdict::Mark(Mark::Good),
        Outcome::Exit(125) => Verdict::Mark(Mark::Skip),
        Outcome::Exit(1..=124) => Verdict::Mark(Mark::Bad),
        Outcome::Exit(_) | Outcome::Killed => Verdict::Abort,
    }
}

/// The lenient reading of an outcome: a command that its shell could not start, status 126 or 127,
/// counts as one that found its commit bad.
pub fn lenient(outcome: Outcome) -> Outcome
    ensures { result ≡ lenient outcome }
{
    match outcome {
        Outcome::Exit(126 | 127) => Outcome::Exit(1),
        other => other,
    }
}

/// The outcome that a letter of a plan stands for: `g` exits with 0, `b` with 1, `s` with 125, `a`
/// with 128 and `n` with 127, and `k` is killed. No other byte is such a letter.
pub fn outcome_of_letter(letter: u8) -> Option<Outcome>
    ensures { result ≡ outcome_of_letter letter }
{
    match letter {
        b'g' => Some(Outcome::Exit(0)),
        b'b' => Some(Outcome::Exit(1)),
        b's' => Some(Outcome::Exit(125)),
        b'a' => Some(Outcome::Exit(128)),
        b'k' => Some(Outcome::Killed),
        b'n' => Some(Outcome::Exit(127)),
        _ => None,
    }
}
