//! What every tester notes: its command, its answers, and how it reads outcomes.
ghost use Rattle.std.specs.Prelude.{◌≡◌, ◌⊎◌, [], ◌∷◌, IfOk, OnOk, OnErr, IfErr};
ghost use Rattle.std.specs.List.{slice_get};
ghost use Rattle.bf_tester.specs.Noted.{first_notes, prepared_by, with_more, notes_after, split_notes};
ghost use Rattle.bf_tester.specs.Replies.{RepliesAsRead};

use crate::answer::{Answer, TestReply};
use crate::words::Words;
use bf_io::Word;
use bf_oid::Oid;
use bf_search::Outcome;
use std::alloc::{AllocError, Global};
use std::marker::Model;

/// The command of a tester, its answers, whether it reads outcomes leniently, and whether it was made by
/// a split.
#[derive(Drop)]
pub struct Notes {
    alloc: Global,
    command: Words,
    answers: Vec<Answer>,
    is_lenient: bool,
    is_split: bool,
}

impl Model for Notes {
    ghost use Rattle.bf_tester.specs.Noted.{Noted};

    ghost Value = { Noted };

    ghost view = { λ n. record {
      command = n.command;
      answers = n.answers.items;
      is_lenient = n.is_lenient;
      is_split = n.is_split;
    } };
}

impl Notes {
    /// The notes of a new tester. It takes no memory.
    pub fn new(alloc: Global) -> Notes
        ensures { result ≡ first_notes }
    {
        Notes {
            alloc,
            command: Words::new(alloc),
            answers: Vec::new(alloc),
            is_lenient: false,
            is_split: false,
        }
    }

    /// Takes a command, and reads outcomes leniently from now on where that is asked.
    pub fn prepare(&mut self, words: &[Word], leniently: bool) -> Result<(), AllocError>
        ensures ok { OnOk result (self.new ≡ prepared_by self.old words.now leniently) }
        ensures err { OnErr result (self.new ≡ self.old) }
    {
        self.command = Words::copy_of(self.alloc, words)?;
        self.is_lenient = self.is_lenient || leniently;
        Ok(())
    }

    /// Adds an answer.
    pub fn note(&mut self, answer: Answer) -> Result<(), AllocError>
        ensures ok { OnOk result (self.new ≡ with_more self.old (answer ∷ [])) }
        ensures err { OnErr result (self.new ≡ self.old) }
    {
        self.answers.push(answer)?;
        Ok(())
    }

    /// Notes that the test of a commit ended so, and makes the reply.
    pub fn done(&mut self, place: u32, name: Oid, outcome: Outcome) -> TestReply
        ensures reply { (result ≡ TestReply.Done outcome) ⊎ (result ≡ TestReply.NoMemory) }
        ensures read { RepliesAsRead self.old.is_lenient outcome result }
        ensures noted { self.new ≡ notes_after self.old result place name }
    {
        match self.note(Answer {
            place,
            name,
            outcome,
        }) {
            Ok(()) => TestReply::Done(outcome),
            Err(_) => TestReply::NoMemory,
        }
    }

    /// The notes of a tester that is split off.
    pub fn split(&self) -> Result<Notes, AllocError>
        ensures { IfOk result (λ notes. notes ≡ split_notes self.now) }
    {
        Ok(Notes {
            alloc: self.alloc,
            command: Words::copy_of(self.alloc, self.command.as_slice())?,
            answers: Vec::new(self.alloc),
            is_lenient: self.is_lenient,
            is_split: true,
        })
    }

    /// Adds the answers of other notes.
    pub fn absorb(&mut self, other: Notes) -> Result<(), Notes>
        ensures ok { OnOk result (self.new ≡ with_more self.old other.answers) }
        ensures err { IfErr result (λ notes. (notes ≡ other) × (self.new ≡ self.old)) }
    {
        let mut other = other;
        if self.answers.reserve(other.answers.len()).is_err() {
            return Err(other);
        }
        self.answers.append(&mut other.answers).unwrap();
        Ok(())
    }

    /// The answer at an index, counted from 0.
    pub fn answer(&self, index: usize) -> Option<Answer>
        ensures { result ≡ slice_get self.now.answers index }
    {
        self.answers.get(index).copied()
    }

    /// The words of the command.
    pub fn command(&self) -> &[Word]
        ensures { result.now ≡ self.now.command }
    {
        self.command.as_slice()
    }

    /// Whether outcomes are read leniently.
    pub fn is_lenient(&self) -> bool
        ensures { result ≡ self.now.is_lenient }
    {
        self.is_lenient
    }

    /// Whether these are the notes of a tester that was split off.
    pub fn is_split(&self) -> bool
        ensures { result ≡ self.now.is_split }
    {
        self.is_split
    }
}
