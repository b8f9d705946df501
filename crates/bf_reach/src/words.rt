// Work on whole words, eight at a time where there are eight.
ghost use Rattle.std.specs.Prelude.{◌≡◌, ◌≢◌, Bool, not, ◌&&◌, ◌||◌, ℕ, ◌+◌, ◌*◌, ◌^◌, ◌<◌, ◌≤◌, length, bit_and, bit_or, map, count_ones, slice_index, IfSome};
ghost use Rattle.bf_reach.specs.Bitwise.{IsBitwise, or_bitwise, and_bitwise, and_not_bitwise, right_bitwise};
ghost use Rattle.bf_reach.specs.Bits.{bit_in, has_bit, words_for, combined_at, IsLowestFrom};
ghost use Rattle.std.specs.Int.{bit_not, w64};
ghost use Rattle.std.specs.Simd.Lanes.{zip2, chunk};
ghost use Rattle.std.specs.List.{sum_by};

use std::simd::prelude::*;

/// How many words stand in one vector.
pub(crate) const LANES: usize = 8;

/// A way to make one word of two, bit by bit.
pub(crate) trait BitOp {
    ghost combine: { ℕ → ℕ → ℕ };

    /// What this is for one place of two rows.
    ghost choose: { Bool → Bool → Bool };

    fn word(left: u64, right: u64) -> u64
        ensures { result ≡ combine left right };

    fn lanes(left: u64x8, right: u64x8) -> u64x8
        requires { length left ≡ length right }
        ensures { result ≡ zip2 combine left right };

    ghost bitwise: { IsBitwise combine choose };
}

/// The bits of either.
pub(crate) struct Or;

/// The bits of both.
pub(crate) struct And;

/// The bits of the left that the right lacks.
pub(crate) struct AndNot;

/// The bits of the right.
pub(crate) struct Right;

impl BitOp for Or {
    ghost combine = { bit_or };

    ghost choose = { ◌||◌ };

    ghost bitwise = { or_bitwise };

    fn word(left: u64, right: u64) -> u64 {
        left | right
    }

    fn lanes(left: u64x8, right: u64x8) -> u64x8 {
        left | right
    }
}

impl BitOp for And {
    ghost combine = { bit_and };

    ghost choose = { ◌&&◌ };

    ghost bitwise = { and_bitwise };

    fn word(left: u64, right: u64) -> u64 {
        left & right
    }

    fn lanes(left: u64x8, right: u64x8) -> u64x8 {
        left & right
    }
}

impl BitOp for AndNot {
    ghost combine = { λ left right. bit_and left (bit_not w64 right) };

    ghost choose = { λ left right. left && not right };

    ghost bitwise = { and_not_bitwise };

    fn word(left: u64, right: u64) -> u64 {
        left & !right
    }

    fn lanes(left: u64x8, right: u64x8) -> u64x8 {
        left & !right
    }
}

impl BitOp for Right {
    ghost combine = { λ left right. right };

    ghost choose = { λ left right. right };

    ghost bitwise = { right_bitwise };

    fn word(_left: u64, right: u64) -> u64 {
        right
    }

    fn lanes(_left: u64x8, right: u64x8) -> u64x8 {
        right
    }
}

fn combine_lanes<O: BitOp>(into: &mut [u64], from: &[u64], at: usize)
    requires into_room { at + LANES ≤ length into.old }
    requires from_room { at + LANES ≤ length from.now }
    ensures { into.new ≡ combined_at O.combine into.old at from.now at }
{
    let left = u64x8::from_slice(&into[at..]);
    let right = u64x8::from_slice(&from[at..]);
    O::lanes(left, right).copy_to_slice(&mut into[at..]);
}

pub(crate) fn combine<O: BitOp>(into: &mut [u64], from: &[u64])
    requires { length into.old ≡ length from.now }
    ensures joined { into.new ≡ zip2 O.combine into.old from.now }
    ensures fits { (k : ℕ) → slice_index from.now k < 2 ^ 64 }
{
    let blocks = into.len() / LANES;
    for block in 0..blocks {
        combine_lanes::<O>(into, from, block * LANES);
    }
    for at in blocks * LANES..into.len() {
        into[at] = O::word(into[at], from[at]);
    }
}

fn count_lanes(words: &[u64], at: usize) -> u64x8
    requires { at + LANES ≤ length words.now }
    ensures { result ≡ map count_ones (chunk at 8 words.now) }
{
    u64x8::from_slice(&words[at..]).count_ones()
}

/// How many bits of the words are 1.
pub(crate) fn count(words: &[u64]) -> u64
    requires { length words.now < 2 ^ 32 }
    ensures ones { result ≡ sum_by count_ones words.now }
    ensures fits { (k : ℕ) → slice_index words.now k < 2 ^ 64 }
{
    let blocks = words.len() / LANES;
    let mut lanes = u64x8::splat(0);
    for block in 0..blocks {
        lanes = lanes.strict_add(count_lanes(words, block * LANES));
    }
    let mut total = lanes.strict_reduce_sum();
    for at in blocks * LANES..words.len() {
        total += u64::from(words[at].count_ones());
    }
    total
}

/// The lowest bit of the word that is 1, from bit `low` on.
fn lowest_from(word: u64, low: u32) -> Option<u32>
    requires { low < 64 }
    ensures next { IsLowestFrom (bit_in word) low result }
    ensures within { IfSome result (λ bit. bit < 64) }
{
    let rest = word >> low;
    if rest == 0 {
        None
    } else {
        Some(low + rest.trailing_zeros())
    }
}

/// The lowest bit that is 1 of the words from the word `first` on.
fn lowest_of_words(words: &[u64], first: usize) -> Option<u32>
    requires { length words.now ≤ 2 ^ 26 }
    ensures { IsLowestFrom (has_bit words.now) (64 * first) result }
{
    for at in first..words.len() {
        if words[at] != 0 {
            return Some(64 * at as u32 + words[at].trailing_zeros());
        }
    }
    None
}

/// The lowest bit that is 1, from bit `low` on.
pub(crate) fn next_bit(words: &[u64], low: u32) -> Option<u32>
    requires room { length words.now ≤ 2 ^ 26 }
    requires within { low < 64 * length words.now }
    ensures { IsLowestFrom (has_bit words.now) low result }
{
    let at = (low / 64) as usize;
    match lowest_from(words[at], low % 64) {
        Some(bit) => Some(64 * (low / 64) + bit),
        None => lowest_of_words(words, at + 1),
    }
}

/// How many words hold `len` bits.
pub(crate) fn words_for(len: u32) -> usize
    ensures { result ≡ words_for len }
{
    (len as usize).div_ceil(64)
}

/// Whether bit `place` is 1.
pub(crate) fn get(words: &[u64], place: usize) -> bool
    requires { place < 64 * length words.now }
    ensures { result ≡ has_bit words.now place }
{
    words[place / 64] >> (place % 64) & 1 == 1
}

/// Makes bit `place` 1 for true, and 0 for false.
pub(crate) fn set(words: &mut [u64], place: usize, value: bool)
    requires { place < 64 * length words.old }
    ensures same { has_bit words.new place ≡ value }
    ensures others { (k : ℕ) → k ≢ place → has_bit words.new k ≡ has_bit words.old k }
{
    let at = place / 64;
    let mask = 1 << (place % 64);
    if value {
        words[at] |= mask;
    } else {
        words[at] &= !mask;
    }
}

/// How many bits are 1 in the vector of words from `at` on.
pub(crate) fn count_vector(words: &[u64], at: usize) -> u64
    requires { at + LANES ≤ length words.now }
    ensures ones { result ≡ sum_by count_ones (chunk at 8 words.now) }
    ensures fits { (k : ℕ) → slice_index words.now k < 2 ^ 64 }
{
    count_lanes(words, at).strict_reduce_sum()
}

/// Adds to the vector of words from `into` on the bits of the one from `from` on.
pub(crate) fn or_vector(words: &mut [u64], into: usize, from: usize)
    requires into_room { into + LANES ≤ length words.old }
    requires from_room { from + LANES ≤ length words.old }
    ensures joined { words.new ≡ combined_at bit_or words.old into words.old from }
    ensures fits { (k : ℕ) → slice_index words.old k < 2 ^ 64 }
{
    let left = u64x8::from_slice(&words[into..]);
    let right = u64x8::from_slice(&words[from..]);
    (left | right).copy_to_slice(&mut words[into..]);
}
