//! The command `sample`. It searches here, by a plan as its tester, so that its text is one answer.
ghost use Rattle.std.specs.Prelude.{◌≡◌, ◌<◌, ◌≤◌, ◌==◌, ◌-◌, ◌++◌, false, if◌then◌else◌, [], ◌∷◌, length, count_by, Some, None, All, IfOk, OnOk};
ghost use Rattle.std.specs.Option.{ForSome};
ghost use Rattle.bf_state.specs.Ends.{HasEnds};
ghost use Rattle.bf_output.specs.Sample as sample;
ghost use Rattle.bf_output.specs.Tested.{status_at_end};
ghost use Rattle.bf_answers.specs.Answers.{IsWholeAnswer};
ghost use Rattle.bf_answers.specs.Tellings.{begun_of, IsBegun, Says};
ghost use Rattle.bf_program.specs.Sampling as sampling;
ghost use Rattle.bf_program.specs.Sampling.{numbers_of, sampled_from, summary_of, TellsSample};
ghost use Rattle.bf_search.specs.Farm.{end_of};
ghost use Rattle.bf_search.specs.Within.{IsEndingWithin};

use bf_answers::{Answer, Beginning, commits_of, sides_of, write_end};
use bf_begin::between_ends;
use bf_farm::Report;
use bf_import::History;
use bf_io::{Bytes, put_decimal};
use bf_output::Status;
use bf_reach::Reach;
use bf_runs::{RunSettings, Standing, run_leg};
use bf_search::Entry;
use bf_tester::{Host, PlanTester, Tester};
use bf_words::Request;
use std::alloc::{AllocError, Global};

/// The answer of `sample` over the history of its stream.
#[tactic(auto, unfolding(bf_output::specs::Sample::sampled))]
pub(crate) fn sample<R: Host>(
    rt: &R,
    alloc: Global,
    request: &Request,
    history: &History,
) -> Result<Answer, AllocError>
    ensures tells { IfOk result (Says (sample.sampled request.now history.now)) }
    ensures whole { IfOk result IsWholeAnswer }
{
    let commits = history.len();
    if commits == 0 {
        return nothing_searched(alloc, request.count);
    }
    let first = whole_search(alloc, request, commits)?;
    search_whole(rt, alloc, request, history, first)
}

/// The last place, where there is one.
fn last_place(len: u32) -> Option<u32>
    ensures value { result ≡ (if len == 0 then None else Some (len - 1)) }
    ensures within { ForSome result (λ p. p < len) }
{
    if len == 0 { None } else { Some(len - 1) }
}

/// The first place, where there is one.
fn first_places(len: u32) -> &'static [u32]
    ensures value { result.now ≡ (if len == 0 then [] else 0 ∷ []) }
    ensures within { All (λ p. p < len) result.now }
{
    if len == 0 { &[] } else { &[0] }
}

/// The search between the first commit and the last one.
fn whole_search(alloc: Global, request: &Request, len: u32) -> Result<Beginning, AllocError>
    requires { 1 ≤ len }
    ensures begun { IfOk result (IsBegun (sample.whole_search request.now len)) }
    ensures len { IfOk result (λ first. first.state.len ≡ len) }
    ensures ends { IfOk result (λ first. HasEnds first.state.search) }
{
    between_ends(alloc, request, len, last_place(len), first_places(len))
}

/// The letters of the outcomes by place: the commits below the half of so many are good, and the others bad.
fn letters_of_sample(alloc: Global, count: u32) -> Result<Vec<u8>, AllocError>
    ensures { IfOk result (λ letters. letters.items ≡ sampling.letters_of_sample count) }
{
    let half = count as usize / 2;
    let mut letters = vec![in alloc; b'g'; half]?;
    let mut others = vec![in alloc; b'b'; count as usize - half]?;
    letters.append(&mut others)?;
    Ok(letters)
}

/// A tester of the plan of the sample.
fn tester_of_sample(alloc: Global, count: u32) -> Result<PlanTester, AllocError>
    ensures told { IfOk result (TellsSample ⟦<PlanTester as Tester>⟧ count) }
    ensures fresh { IfOk result (λ tester. ⟦<PlanTester as Tester>⟧.answers tester ≡ []) }
    ensures is_split { IfOk result (λ tester. ⟦<PlanTester as Tester>⟧.is_split tester ≡ false) }
{
    let letters = letters_of_sample(alloc, count)?;
    PlanTester::new(alloc, letters.as_slice())
}

/// Whether an entry marks a commit.
fn is_mark(entry: &Entry) -> bool
    ensures { result ≡ sample.is_mark entry.now }
{
    match entry {
        Entry::Marked { .. } => true,
        Entry::Start { .. } | Entry::SkippedBase { .. } => false,
        Entry::FirstBadFound { .. } | Entry::OnlySkippedLeft { .. } => false,
    }
}

/// How many entries mark a commit.
fn marks_in(entries: &[Entry]) -> u64
    ensures { result ≡ count_by sample.is_mark entries.now }
{
    let mut marks = 0u64;
    for entry in entries {
        marks += is_mark(entry) as u64;
    }
    marks
}

/// Adds the line of a number of things.
fn put_number_line(out: &mut Bytes, what: &[u8], number: u64) -> Result<(), AllocError>
    ensures { OnOk result (out.new ≡ out.old ++ sample.number_line what.now number) }
{
    out.append(what)?;
    out.append(b" ")?;
    put_decimal(out, number)?;
    out.append(b"\n")
}

/// Adds the lines of so many commits and marks.
fn put_numbers(out: &mut Bytes, count: u32, marks: u64) -> Result<(), AllocError>
    ensures { OnOk result (out.new ≡ out.old ++ numbers_of count marks) }
{
    put_number_line(out, b"commits", u64::from(count))?;
    put_number_line(out, b"marks", marks)
}

/// The answer where there is no commit to search: the search waits for both ends.
fn nothing_searched(alloc: Global, count: u32) -> Result<Answer, AllocError>
    ensures status { IfOk result (λ answer. answer.status ≡ Status.Waiting) }
    ensures text { IfOk result (λ answer. answer.text ≡ numbers_of count 0) }
    ensures whole { IfOk result IsWholeAnswer }
{
    let mut text = Bytes::new(alloc);
    put_numbers(&mut text, count, 0)?;
    Ok(Answer {
        status: Status::Waiting,
        text,
    })
}

/// The summary of a run that ended so.
fn summary(
    alloc: Global,
    count: u32,
    history: &History,
    report: Report,
) -> Result<Answer, AllocError>
    requires { IsEndingWithin (length history.now.parents) report.ending }
    ensures status { IfOk result (λ answer. answer.status ≡ status_at_end (end_of report.ending)) }
    ensures text { IfOk result (λ answer. answer.text ≡ summary_of count history.now report) }
{
    let Report {
        entries,
        ending,
        state,
        ..
    } = report;
    let mut text = Bytes::new(alloc);
    put_numbers(&mut text, count, marks_in(entries.as_slice()))?;
    let sides = sides_of(&state.terms);
    let status = write_end(commits_of(history), sides, ending, &mut text)?;
    Ok(Answer { status, text })
}

/// Searches what has begun to its end, by tests that answer the plan of the sample, and returns the summary.
fn search_whole<R: Host>(
    rt: &R,
    alloc: Global,
    request: &Request,
    history: &History,
    first: Beginning,
) -> Result<Answer, AllocError>
    requires len { first.state.len ≡ length history.now.parents }
    requires ends { HasEnds first.state.search }
    ensures tells { IfOk result (Says (sampled_from request.now history.now (begun_of first))) }
    ensures whole { IfOk result IsWholeAnswer }
{
    let reach = Reach::build(alloc, history.graph())?;
    let mut tester = tester_of_sample(alloc, request.count)?;
    let search = RunSettings {
        history,
        reach: &reach,
        workers: request.workers,
        leg: 0,
    };
    let standing = Standing::first(alloc, history, first.state)?;
    let report = run_leg(rt, alloc, search, standing, &mut tester)?;
    summary(alloc, request.count, history, report)
}
