//! A session: the searches that were begun, and the replies to requests.
ghost use Rattle.std.specs.Prelude.{◌≡◌, ◌<◌, ◌≤◌, ℕ, List, Result, Ok, drop, length, IfOk, OnOk};
ghost use Rattle.bf_io.specs.declared.shelf.LoadFault.{LoadFault};
ghost use Rattle.bf_protocol.specs.declared.request.Asked.TheVariants as asks;
ghost use Rattle.bf_protocol.specs.Requests.{HasNumbersWithin};
ghost use Rattle.bf_serve.specs.Serving as serving;
ghost use Rattle.bf_serve.specs.Searches.{no_search};
ghost use Rattle.bf_serve.specs.Steps.{Answers, IsServing, Serves, searches_in};

use crate::opening::Opening;
use crate::reading::add_words;
use crate::remaining::Remaining;
use bf_answers::word_at;
use bf_graph::Places;
use bf_import::History;
use bf_io::{Bytes, Shelf, Word};
use bf_many::ManyCore;
use bf_protocol::{Asked, Refusal, asked_by, put_done, put_refusal, words_of_line};
use bf_reach::Reach;
use std::alloc::{AllocError, Global};

/// The most words that stand for the next search.
const MOST_WORDS: usize = 1_000_000;

/// How a pick is replied to where no search has an open place.
#[derive(Clone, Copy, PartialEq, Eq, Debug)]
pub enum Lull {
    /// Some search goes on.
    Wait,
    /// Each search has its end.
    Over,
}

/// The searches that were begun over a history, each with its farm machine.
#[derive(Drop)]
pub struct Session<'r> {
    pub(crate) alloc: Global,
    pub(crate) history: &'r History,
    pub(crate) reach: &'r Reach,
    pub(crate) many: ManyCore<'r>,
    /// For each search what is kept of it beside its machine.
    pub(crate) openings: Vec<Opening>,
    /// For each search the workers whose commits no path asks for.
    pub(crate) needless: Vec<Places>,
    /// For each search what is left of it.
    pub(crate) left: Vec<Remaining>,
    /// The words that stand for the next search.
    pub(crate) pending: Vec<Word>,
    /// The last pick found nothing, and nothing has changed since.
    pub(crate) lull: Option<Lull>,
}

impl<'r> Session<'r> {
    /// A session without a search, over a history and its reach.
    pub fn new(
        alloc: Global,
        history: &'r History,
        reach: &'r Reach,
    ) -> Result<Session<'r>, AllocError>
        requires { reach.now ≡ history.now.parents }
        ensures searches { IfOk result (λ s. searches_in s ≡ no_search) }
        ensures history { IfOk result (λ s. s.history.now ≡ history.entry.now) }
        ensures serving { IfOk result IsServing }
    {
        // What the length tells is needed: the graph is sorted.
        let _commits = reach.len();
        Ok(Session {
            alloc,
            history,
            reach,
            many: ManyCore::start(alloc, reach, Vec::new(alloc))?,
            openings: Vec::new(alloc),
            needless: Vec::new(alloc),
            left: Vec::new(alloc),
            pending: Vec::new(alloc),
            lull: None,
        })
    }

    /// Adds what is told before the reply to a request, and the reply. After an error nothing more may be asked.
    pub fn answer<F: Shelf>(
        &mut self,
        line: &[u8],
        shelf: &mut F,
        out: &mut Bytes,
    ) -> Result<(), AllocError>
        requires { IsServing self.old }
        ensures answers { OnOk result (Answers (F.files shelf.old) (F.faults shelf.old)
            (F.faults shelf.new) line.now self.old self.new out.old out.new) }
        ensures files { F.files shelf.new ≡ F.files shelf.old }
        ensures faults { F.faults shelf.old ≤ F.faults shelf.new }
    {
        let words = words_of_line(self.alloc, line)?;
        let words = words.as_slice();
        match asked_by(words) {
            Ok(asked) => match asked {
                Asked::Search => self.search(words, shelf, out),
                asked => self.reply(asked, words, out),
            },
            Err(refusal) => put_refusal(out, refusal),
        }
    }

    /// Adds what is told before the reply to a request that asks for no file, and the reply.
    fn reply(&mut self, asked: Asked, words: &[Word], out: &mut Bytes) -> Result<(), AllocError>
        requires serving { IsServing self.old }
        requires numbers { HasNumbersWithin asked }
        requires some { 0 < length words.now }
        ensures { (file : Result (List ℕ) LoadFault) → (asked ≡ asks.Search → ⊥) →
            let turn = serving.turn_as self.old.history.now file (searches_in self.old) in
            OnOk result (Serves (turn words.now (Ok asked)) self.old self.new out.old out.new) }
    {
        match asked {
            Asked::Words => self.words(words, out),
            Asked::Search => Ok(()),
            Asked::Pick { worker } => self.pick(worker, out),
            Asked::Post { worker, outcome } => self.post(worker, outcome, out),
            Asked::Give { worker } => self.give(worker, out),
            Asked::Learn { search, outcome } => {
                self.learn(search, word_at(words, 2), outcome, out)
            }
            Asked::Wanted => self.wanted(word_at(words, 1), out),
            Asked::Certificate { search } => self.certificate(search, out),
        }
    }

    /// The words behind the first one stand for the next search; where there is none, they are forgotten.
    fn words(&mut self, words: &[Word], out: &mut Bytes) -> Result<(), AllocError>
        requires serving { IsServing self.old }
        requires some { 0 < length words.now }
        ensures { let served = serving.words_turn (searches_in self.old) (drop 1 words.now) in
            OnOk result (Serves served self.old self.new out.old out.new) }
    {
        let more = words.len() - 1;
        if self.pending.len() + more > MOST_WORDS {
            return put_refusal(out, Refusal::TooManyWords);
        }
        if more == 0 {
            self.pending = Vec::new(self.alloc);
        }
        add_words(&mut self.pending, &words[1..])?;
        put_done(out)
    }
}
