//! A start line.
ghost use Rattle.std.specs.Prelude.{◌≡◌, Some, IfOk, OnOk};
ghost use Rattle.bf_reading.specs.Reading as reading;
ghost use Rattle.bf_reading.specs.Answers.{Refuses, IsPart, start_in, after_word};

use crate::line::{LineFault, LogWord, Revs};
use crate::words::next_word;
use bf_io::Bytes;
use std::alloc::Global;

/// What the next word of a start line may be.
#[derive(Clone, Copy)]
pub(crate) enum Wants {
    /// An option or a name.
    AnyWord,
    /// The word for the bad side.
    NewTerm,
    /// The word for the good side.
    OldTerm,
    /// Nothing, behind `--`.
    NoWord,
}

/// A start line as far as it was read.
#[derive(Drop)]
pub(crate) struct StartLine {
    pub(crate) first_parent: bool,
    pub(crate) new_term: Option<Bytes>,
    pub(crate) old_term: Option<Bytes>,
    pub(crate) revs: Revs,
    pub(crate) wants: Wants,
}

/// Reads what follows the word `start`: options and names in any order.
pub(crate) fn read_start(alloc: Global, text: &[u8]) -> Result<LogWord, LineFault>
    ensures word { IfOk result (λ word. start_in text.now ≡ Some word) }
    ensures refused { Refuses result (start_in text.now) }
{
    let mut start = StartLine::new(alloc);
    let mut rest = text;
    while let Some((word, after)) = next_word(alloc, rest)? {
        start.take_word(alloc, word)?;
        rest = after;
    }
    start.finish()
}

impl StartLine {
    fn new(alloc: Global) -> StartLine
        ensures { result ≡ reading.nothing_started }
    {
        StartLine {
            first_parent: false,
            new_term: None,
            old_term: None,
            revs: Revs::new(alloc),
            wants: Wants::AnyWord,
        }
    }

    /// Takes the next word.
    fn take_word(&mut self, alloc: Global, word: Bytes) -> Result<(), LineFault>
        ensures taken { OnOk result (after_word self.old word ≡ Some self.new) }
        ensures refused { Refuses result (after_word self.old word) }
    {
        match self.wants {
            Wants::AnyWord if word.as_slice().starts_with(b"-") => {
                self.take_option(alloc, word.as_slice())?;
            }
            Wants::AnyWord => self.revs.push(word)?,
            Wants::NewTerm => self.set_new(word),
            Wants::OldTerm => self.set_old(word),
            Wants::NoWord => return Err(LineFault::NoForm),
        }
        Ok(())
    }

    /// Takes a word that begins with `-`.
    fn take_option(&mut self, alloc: Global, word: &[u8]) -> Result<(), LineFault>
        ensures taken { OnOk result (reading.take_option self.old word.now ≡ Some self.new) }
        ensures refused { Refuses result (reading.take_option self.old word.now) }
    {
        if is_word(b"--first-parent", word) {
            self.first_parent = true;
        } else if is_word(b"--no-checkout", word) {
            // Nothing is checked out while a log is read.
        } else if is_word(b"--", word) {
            self.wants = Wants::NoWord;
        } else if is_word(b"--term-new", word) || is_word(b"--term-bad", word) {
            self.wants = Wants::NewTerm;
        } else if is_word(b"--term-old", word) || is_word(b"--term-good", word) {
            self.wants = Wants::OldTerm;
        } else {
            self.take_value(alloc, word)?;
        }
        Ok(())
    }

    /// Takes an option that has its value behind `=`.
    fn take_value(&mut self, alloc: Global, word: &[u8]) -> Result<(), LineFault>
        ensures taken { OnOk result (reading.value_taken self.old word.now ≡ Some self.new) }
        ensures refused { Refuses result (reading.value_taken self.old word.now) }
    {
        if let Some(new) = behind_either(b"--term-new=", b"--term-bad=", word) {
            self.set_new(Bytes::from_slice(alloc, new)?);
        } else if let Some(old) = behind_either(b"--term-old=", b"--term-good=", word) {
            self.set_old(Bytes::from_slice(alloc, old)?);
        } else {
            return Err(LineFault::NoForm);
        }
        Ok(())
    }

    fn set_new(&mut self, term: Bytes)
        ensures { self.new ≡ reading.with_new self.old term }
    {
        self.new_term = Some(term);
        self.wants = Wants::AnyWord;
    }

    fn set_old(&mut self, term: Bytes)
        ensures { self.new ≡ reading.with_old self.old term }
    {
        self.old_term = Some(term);
        self.wants = Wants::AnyWord;
    }

    /// The whole line, where no option waits for its value.
    fn finish(self) -> Result<LogWord, LineFault>
        ensures word { IfOk result (λ word. reading.end_start self.wants self ≡ Some word) }
        ensures refused { Refuses result (reading.end_start self.wants self) }
    {
        match self.wants {
            Wants::AnyWord | Wants::NoWord => Ok(LogWord::Start {
                first_parent: self.first_parent,
                new: self.new_term,
                old: self.old_term,
                revs: self.revs,
            }),
            Wants::NewTerm | Wants::OldTerm => Err(LineFault::NoForm),
        }
    }
}

pub(crate) fn is_word(word: &[u8], text: &[u8]) -> bool
    ensures { result ≡ reading.is_word word.now text.now }
{
    text == word
}

/// What stands behind one of two texts.
pub(crate) fn behind_either<'a>(one: &[u8], other: &[u8], text: &'a [u8]) -> Option<&'a [u8]>
    ensures { IsPart (reading.behind_either one.now other.now text.now) result }
{
    match text.strip_prefix(one) {
        Some(rest) => Some(rest),
        None => text.strip_prefix(other),
    }
}
