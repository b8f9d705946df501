//! A search begins.
ghost use Rattle.std.specs.Prelude.{◌≡◌, ◌<◌, ◌≤◌, length, OnOk};
ghost use Rattle.bf_answers.specs.Tellings.{AreWithin, begun_of};
ghost use Rattle.bf_state.specs.Ends.{HasEnds};
ghost use Rattle.bf_serve.specs.Serving as serving;
ghost use Rattle.bf_serve.specs.Steps.{IsServing, OpensBy, SearchesBy, Serves, searches_in};

use crate::news::{Subject, put_first_news};
use crate::opening::Opening;
use crate::reading::{read_search, words_to_begin};
use crate::session::Session;
use crate::starting::begin_by;
use bf_answers::{Beginning, RequestLine, Stop, usage};
use bf_graph::Places;
use bf_io::{Bytes, Shelf, Word};
use bf_many::ReadySearch;
use bf_protocol::{Refusal, put_refusal, put_refused_line, put_started};
use bf_spec::Table;
use bf_words::WordFault;
use std::alloc::AllocError;

/// The most searches of a session.
const MOST_SEARCHES: usize = 64;

impl<'r> Session<'r> {
    /// A search is begun by the words that stand and those of a line.
    pub(crate) fn search<F: Shelf>(
        &mut self,
        words: &[Word],
        shelf: &mut F,
        out: &mut Bytes,
    ) -> Result<(), AllocError>
        requires { IsServing self.old }
        ensures served { OnOk result (SearchesBy (F.files shelf.old) (F.faults shelf.old)
            (F.faults shelf.new) words.now self.old self.new out.old out.new) }
        ensures files { F.files shelf.new ≡ F.files shelf.old }
        ensures faults { F.faults shelf.old ≤ F.faults shelf.new }
    {
        if self.openings.len() >= MOST_SEARCHES {
            return put_refusal(out, Refusal::TooManySearches);
        }
        let words = words_to_begin(self.alloc, self.pending.as_slice(), words)?;
        match read_search(self.alloc, words.as_slice()) {
            Ok(request) => {
                let line = RequestLine {
                    alloc: self.alloc,
                    request: &request,
                    words: words.as_slice(),
                };
                self.search_by(line, shelf, out)
            }
            Err(WordFault::At { word }) => {
                let answer = usage(self.alloc, word)?;
                put_refused_line(out, answer.text.as_slice())
            }
            Err(WordFault::NoMemory) => Err(AllocError),
        }
    }

    /// A search is begun by a line of words.
    fn search_by<F: Shelf>(
        &mut self,
        line: RequestLine<'_>,
        shelf: &mut F,
        out: &mut Bytes,
    ) -> Result<(), AllocError>
        requires serving { IsServing self.old }
        requires few { length self.old.openings.items < 64 }
        ensures served { OnOk result (OpensBy (F.files shelf.old) (F.faults shelf.old)
            (F.faults shelf.new) line.entry self.old self.new out.old out.new) }
        ensures files { F.files shelf.new ≡ F.files shelf.old }
        ensures faults { F.faults shelf.old ≤ F.faults shelf.new }
    {
        match begin_by(line, self.history, self.reach, shelf) {
            Ok(first) => self.open(first, line.request.lenient, out),
            Err(Stop::Refused(answer)) => put_refused_line(out, answer.text.as_slice()),
            Err(Stop::NoMemory) => Err(AllocError),
        }
    }

    /// A search begins so.
    fn open(&mut self, first: Beginning, lenient: bool, out: &mut Bytes) -> Result<(), AllocError>
        requires serving { IsServing self.old }
        requires few { length self.old.openings.items < 64 }
        requires len { first.state.len ≡ length self.old.history.now.parents }
        requires places { AreWithin first }
        requires ends { HasEnds first.state.search }
        ensures { let begun = serving.begun self.old.history.now (searches_in self.old) lenient in
            OnOk result (Serves (begun (begun_of first)) self.old self.new out.old out.new) }
    {
        let search = self.openings.len() as u32;
        let Beginning {
            state,
            known,
            entries,
        } = first;
        let mut opening = Opening {
            terms: state.terms.try_clone()?,
            known,
            lenient,
        };
        let table = Table::new(self.alloc, self.history.len())?;
        self.many
            .add(self.alloc, self.reach, ReadySearch { state, table })?;
        let subject = Subject {
            history: self.history,
            reach: self.reach,
            number: search + 1,
        };
        let core = self.many.core(search);
        let remaining = put_first_news(subject, &mut opening, entries.as_slice(), core, out)?;
        self.openings.push(opening)?;
        self.needless.push(Places::new(self.alloc))?;
        self.left.push(remaining)?;
        self.pending = Vec::new(self.alloc);
        self.lull = None;
        put_started(out, search + 1)
    }
}
