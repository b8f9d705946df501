//! A start line.
ghost use Rattle.std.specs.Prelude.{◌≡◌, length, IfOk, IfErr, All};
ghost use Rattle.bf_log.specs.Replay as logs;
ghost use Rattle.bf_replay.specs.Meaning.{text_of, AreWithin, HasLength};
ghost use Rattle.bf_replay.specs.Parts.{Gives, GivesAll, HasIndex, LeadsTo, Means, IsPlaceOf, ArePlacesOf, begun_in, leaves_open, names_terms, places_in};
ghost use Rattle.bf_replay.specs.Parts.{start_in, terms_in};
ghost use Rattle.bf_replay.specs.Refusals.{Refuses, term_refusal};

use crate::fault::ReplayFault;
use crate::fold::{Replayed, Setting, place_named};
use bf_io::Bytes;
use bf_search::Entry;
use bf_state::State;
use bf_terms::{TermFault, Terms};

/// A start line: its mode, its terms where it names them, and its names.
#[derive(Clone, Copy)]
pub(crate) struct Start<'a> {
    pub(crate) first_parent: bool,
    pub(crate) new: Option<&'a [u8]>,
    pub(crate) old: Option<&'a [u8]>,
    pub(crate) revs: &'a [Bytes],
}

impl Start<'_> {
    fn names_terms(self) -> bool
        ensures { result ≡ names_terms self.entry }
    {
        self.new.is_some() || self.old.is_some()
    }

    /// Whether the first good or bad mark may still choose the terms.
    fn leaves_terms_open(self) -> bool
        ensures { result ≡ leaves_open self.entry }
    {
        !self.names_terms() && self.revs.is_empty()
    }
}

/// Begins a search anew, as a start line says.
pub(crate) fn take_start(
    setting: Setting<'_>,
    line: u32,
    start: Start<'_>,
) -> Result<Replayed, ReplayFault>
    requires { HasIndex setting }
    ensures replayed { IfOk result (LeadsTo (start_in setting.entry line start.entry)) }
    ensures len { IfOk result (HasLength (length setting.entry.history.now.parents)) }
    ensures within { IfOk result (AreWithin (length setting.entry.history.now.parents)) }
    ensures refused { Refuses result (start_in setting.entry line start.entry) }
{
    let terms = read_terms(setting, line, start.new, start.old)?;
    let places = places_of(setting, line, start.revs)?;
    begin(setting, start, terms, places.as_slice())
}

/// The terms of a start line. Where it names one alone, the other is the standard one.
fn read_terms(
    setting: Setting<'_>,
    line: u32,
    new: Option<&[u8]>,
    old: Option<&[u8]>,
) -> Result<Terms, ReplayFault>
    ensures terms { IfOk result (Gives (terms_in line (text_of new.entry) (text_of old.entry))) }
    ensures refused { Refuses result (terms_in line (text_of new.entry) (text_of old.entry)) }
{
    let new = term_or(new, b"bad");
    let old = term_or(old, b"good");
    match Terms::read(setting.alloc, new, old) {
        Ok(terms) => Ok(terms),
        Err(fault) => Err(term_refusal(line, fault)),
    }
}

fn term_refusal(line: u32, fault: TermFault) -> ReplayFault
    ensures { result ≡ term_refusal line fault }
{
    match fault {
        TermFault::New | TermFault::Old | TermFault::Same => ReplayFault::Term { line },
        TermFault::NoMemory => ReplayFault::NoMemory,
    }
}

fn term_or<'a>(term: Option<&'a [u8]>, word: &'a [u8]) -> &'a [u8]
    ensures { result.now ≡ logs.term_or (text_of term.entry) word.now }
{
    match term {
        Some(text) => text,
        None => word,
    }
}

/// The places that the names of a line mean, in order.
fn places_of(setting: Setting<'_>, line: u32, names: &[Bytes]) -> Result<Vec<u32>, ReplayFault>
    requires { HasIndex setting }
    ensures places { IfOk result (GivesAll (places_in setting.entry line names.now)) }
    ensures within { IfOk result (ArePlacesOf setting.entry.history.now) }
    ensures refused { Refuses result (places_in setting.entry line names.now) }
{
    let mut places = Vec::new(setting.alloc);
    for name in names {
        places.push(place_named(setting, line, name.as_slice())?)?;
    }
    Ok(places)
}

/// A search that begins with these terms and places, the bad one first.
fn begin(
    setting: Setting<'_>,
    start: Start<'_>,
    terms: Terms,
    places: &[u32],
) -> Result<Replayed, ReplayFault>
    requires { All (IsPlaceOf setting.history.now) places.now }
    ensures replayed { IfOk result (Means (begun_in setting.entry terms start.entry places.now)) }
    ensures len { IfOk result (HasLength (length setting.entry.history.now.parents)) }
    ensures within { IfOk result (AreWithin (length setting.entry.history.now.parents)) }
    ensures memory { IfErr result (λ fault. fault ≡ ReplayFault.NoMemory) }
{
    let (bad, goods) = ends(places);
    let state = State::new(
        setting.alloc,
        setting.history.len(),
        terms,
        start.leaves_terms_open(),
        start.first_parent,
        bad,
        goods,
    )?;
    let mut entries = Vec::new(setting.alloc);
    entries.push(Entry::Start {
        first_parent: start.first_parent,
        terms_given: start.names_terms(),
        bad,
        goods: state.goods.to_places()?,
    })?;
    Ok(Replayed { state, entries })
}

/// The bad place and the good ones.
fn ends(places: &[u32]) -> (Option<u32>, &[u32])
    ensures bad { result.0 ≡ logs.bad_of places.now }
    ensures goods { result.1.now ≡ logs.goods_of places.now }
{
    match places {
        [bad, goods @ ..] => (Some(*bad), goods),
        [] => (None, places),
    }
}
