//! The words of a command.
ghost use Rattle.std.specs.Prelude.{◌≡◌, [], IfOk};

use bf_io::Word;
use std::alloc::{AllocError, Global};
use std::marker::Model;

/// The words of a command, which contracts see as a list of texts.
#[derive(Drop)]
pub(crate) struct Words {
    words: Vec<Word>,
}

impl Model for Words {
    ghost use Rattle.std.specs.Prelude.{List, ℕ};

    ghost Value = { List (List ℕ) };

    ghost view = { λ w. w.words.items };
}

impl Words {
    /// No words. It takes no memory.
    pub(crate) fn new(alloc: Global) -> Words
        ensures { result ≡ [] }
    {
        Words {
            words: Vec::new(alloc),
        }
    }

    /// Copies of these words.
    pub(crate) fn copy_of(alloc: Global, words: &[Word]) -> Result<Words, AllocError>
        ensures { IfOk result (λ copy. copy ≡ words.now) }
    {
        let mut copies = Vec::new(alloc);
        for word in words {
            copies.push(word.try_clone()?)?;
        }
        Ok(Words { words: copies })
    }

    /// The words as a slice.
    pub(crate) fn as_slice(&self) -> &[Word]
        ensures { result.now ≡ self.now }
    {
        self.words.as_slice()
    }
}
