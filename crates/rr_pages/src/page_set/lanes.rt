// Words of 64 bits, eight at a time and the rest one by one.
ghost use Rattle.std.specs.Prelude.{◌≡◌, ◌≢◌, ℕ, ◌+◌, ◌*◌, ◌^◌, ◌<◌, ◌≤◌, length, slice_index, IsTrue};
ghost use Rattle.std.specs.Int.Bits.{bit_or};
ghost use Rattle.rr_pages.specs.Marks.{bit_of};

use std::simd::prelude::*;

const LANES: usize = 8;

// A word that has each of its bits set.
const FULL: u64 = u64::MAX;

// The place of the first bit that isn't set, over all words; the count of bits where none is.
pub(crate) fn first_zero(words: &[u64]) -> usize
    requires { length words.now < 2 ^ 32 }
    ensures within { result ≤ 64 * length words.now }
    ensures set { (page : ℕ) → page < result → bit_of words.now page ≡ 1 }
    ensures zero { result < 64 * length words.now → bit_of words.now result ≡ 0 }
{
    let open = first_open(words);
    if open < words.len() {
        64 * open + words[open].trailing_ones() as usize
    } else {
        64 * open
    }
}

// The place of the first word that has a bit not set; their count where none has.
fn first_open(words: &[u64]) -> usize
    ensures within { result ≤ length words.now }
    ensures full { (j : ℕ) → j < result → slice_index words.now j ≡ FULL }
    ensures open { result < length words.now → slice_index words.now result ≢ FULL }
{
    let mut at = full_eights(words);
    while at < words.len() && words[at] == FULL {
        at += 1;
    }
    at
}

// A place before which each word has each of its bits set: passes over eight words at a time.
fn full_eights(words: &[u64]) -> usize
    ensures within { result ≤ length words.now }
    ensures full { (j : ℕ) → j < result → slice_index words.now j ≡ FULL }
{
    let mut at = 0;
    while words.len() - at >= LANES && are_full(words, at) {
        at += LANES;
    }
    at
}

// Whether the eight words from here on have each of their bits set.
fn are_full(words: &[u64], at: usize) -> bool
    requires { at + LANES ≤ length words.now }
    ensures { IsTrue result → (j : ℕ) → at ≤ j → j < at + LANES → slice_index words.now j ≡ FULL }
{
    u64x8::from_slice(&words[at..])
        .simd_eq(u64x8::splat(FULL))
        .all()
}

// Puts the bits of one list of words into another.
pub(crate) fn or_words(into: &mut [u64], from: &[u64])
    requires { length into.old ≡ length from.now }
    ensures { (j : ℕ) → slice_index into.new j ≡ bit_or (slice_index into.old j) (slice_index from.now j) }
{
    let mut at = or_eights(into, from);
    while at < into.len() {
        into[at] |= from[at];
        at += 1;
    }
}

// The same of eight words at a time, up to the place that it gives.
fn or_eights(into: &mut [u64], from: &[u64]) -> usize
    requires { length into.old ≡ length from.now }
    ensures within { result ≤ length into.old }
    ensures below { (j : ℕ) → j < result → slice_index into.new j ≡ bit_or (slice_index into.old j) (slice_index from.now j) }
    ensures above { (j : ℕ) → result ≤ j → slice_index into.new j ≡ slice_index into.old j }
{
    let mut at = 0;
    while into.len() - at >= LANES {
        or_in(into, from, at);
        at += LANES;
    }
    at
}

// The same of the eight words from here on.
fn or_in(into: &mut [u64], from: &[u64], at: usize)
    requires into { at + LANES ≤ length into.old }
    requires from { at + LANES ≤ length from.now }
    ensures below { (j : ℕ) → j < at → slice_index into.new j ≡ slice_index into.old j }
    ensures inside { (j : ℕ) → at ≤ j → j < at + LANES
        → slice_index into.new j ≡ bit_or (slice_index into.old j) (slice_index from.now j) }
    ensures above { (j : ℕ) → at + LANES ≤ j → slice_index into.new j ≡ slice_index into.old j }
{
    let joined = u64x8::from_slice(&into[at..]) | u64x8::from_slice(&from[at..]);
    joined.copy_to_slice(&mut into[at..]);
}
