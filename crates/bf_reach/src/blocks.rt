ghost use Rattle.std.specs.Prelude.{◌≡◌, ◌<◌, length, slice_set, replicate, count_by, IfOk, true};
ghost use Rattle.std.specs.List.{All};
ghost use Rattle.bf_reach.specs.Blocks.{row_at, empty_row, with_joined};

use crate::words::{self, LANES};
use std::alloc::{AllocError, Global};
use std::marker::Model;

/// How many places each row of [`Blocks`] has.
pub const COLUMNS: u32 = 512;

/// A list of rows of [`COLUMNS`] truth values each, one vector of eight words a row.
///
/// Contracts see it as the list of its rows, each as in [`Row`](crate::Row). Only [`Blocks::new`]
/// takes memory, 64 bytes a row, and only it can fail.
#[derive(Debug, Drop)]
pub struct Blocks {
    words: Vec<u64>,
    rows: u32,
}

impl Model for Blocks {
    ghost use Rattle.std.specs.Prelude.{◌≡◌, ◌*◌, ◌<◌, ◌^◌, List, Bool, length};
    ghost use Rattle.bf_reach.specs.Blocks.{block_rows};

    ghost Value = { List (List Bool) };

    ghost view = { λ b. block_rows b.rows b.words.items };

    ghost invariant = { λ b. (b.rows < 2 ^ 32) × (length b.words.items ≡ 8 * b.rows) };
}

impl Blocks {
    /// So many rows, each place false.
    pub fn new(alloc: Global, rows: u32) -> Result<Blocks, AllocError>
        ensures { IfOk result (λ blocks. blocks ≡ replicate rows empty_row) }
    {
        let words = vec![in alloc; 0u64; LANES * rows as usize]?;
        Ok(Blocks { words, rows })
    }

    /// How many rows there are.
    pub fn rows(&self) -> u32
        ensures number { result ≡ length self.now }
        ensures columns { All (λ row. length row ≡ COLUMNS) self.now }
    {
        self.rows
    }

    /// Makes each place of each row false.
    pub fn clear(&mut self)
        ensures { self.new ≡ replicate (length self.old) empty_row }
    {
        self.words.as_mut_slice().fill(0);
    }

    /// Makes one place of a row true.
    pub fn set(&mut self, row: u32, column: u32)
        requires row_in { row < length self.old }
        requires column_in { column < COLUMNS }
        ensures { self.new ≡ slice_set self.old row (slice_set (row_at self.old row) column true) }
    {
        let place = COLUMNS as usize * row as usize + column as usize;
        words::set(self.words.as_mut_slice(), place, true);
    }

    /// Makes each place of the row `into` true that is true in the earlier row `from`.
    pub fn or_row(&mut self, into: u32, from: u32)
        requires into_in { into < length self.old }
        requires earlier { from < into }
        ensures { self.new ≡ with_joined self.old into from }
    {
        let into = LANES * into as usize;
        let from = LANES * from as usize;
        words::or_vector(self.words.as_mut_slice(), into, from);
    }

    /// How many places of a row are true.
    pub fn count(&self, row: u32) -> u32
        requires { row < length self.now }
        ensures { result ≡ count_by (λ value. value) (row_at self.now row) }
    {
        words::count_vector(self.words.as_slice(), LANES * row as usize) as u32
    }
}
