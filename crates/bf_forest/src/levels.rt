//! A directory in a walk through the files of a tree.
ghost use Rattle.std.specs.Prelude.{◌≡◌};

use std::marker::Model;

/// The numbers of the entries of a directory that are still to be walked, while one in it is walked.
#[derive(Debug, Drop)]
pub(crate) struct Level<'a> {
    numbers: &'a [u32],
}

impl<'a> Model for Level<'a> {
    ghost use Rattle.std.specs.Prelude.{List, ℕ};

    ghost Value = { List ℕ };

    ghost view = { λ l. l.numbers.now };
}

impl<'a> Level<'a> {
    pub(crate) fn new(numbers: &'a [u32]) -> Level<'a>
        ensures { result ≡ numbers.now }
    {
        Level { numbers }
    }

    pub(crate) fn numbers(&self) -> &'a [u32]
        ensures { result.now ≡ self.now }
    {
        self.numbers
    }
}
