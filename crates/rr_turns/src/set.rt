//! Sets of counts, a bit for each. A count's place is how many numbers from 1 on are less.
ghost use Rattle.std.specs.Prelude.{◌≡◌, ◌≢◌, ℕ, ◌+◌, ◌*◌, ◌<◌, ◌≤◌, [], ◌∷◌, true, false, length, replicate, slice_index, MatchOption};
ghost use Rattle.std.specs.Int.{bit_at};
ghost use Rattle.rr_turns.specs.Counts.{IsPlaceOf, IsSet, counts_of, is_held, numbers_with};

use crate::limits::MOST_COMMANDS;

/// How many words hold a set, 64 counts each.
pub(crate) const WORDS: usize = 64;

// The set of the opening's count.
pub(crate) fn of_opening() -> [u64; WORDS]
    ensures { result ≡ 1 ∷ replicate 63 0 }
{
    let mut words = [0; WORDS];
    words[0] = 1;
    words
}

// Whether the count of a place is in the set.
pub(crate) fn holds(words: &[u64; WORDS], place: usize) -> bool
    requires { place < MOST_COMMANDS }
    ensures { result ≡ is_held words.now (place + 1) }
{
    words[place / 64] >> (place % 64) & 1 == 1
}

// Puts the count of a place into the set.
pub(crate) fn put(words: &mut [u64; WORDS], place: usize)
    requires { place < MOST_COMMANDS }
    ensures held { is_held words.new (place + 1) ≡ true }
    ensures others { (other : ℕ) → other ≢ place → is_held words.new (other + 1) ≡ is_held words.old (other + 1) }
    ensures set { IsSet words.old → IsSet words.new }
{
    words[place / 64] |= 1 << (place % 64);
}

// How many counts of the set one word tells.
fn count_in(words: &[u64; WORDS], index: usize) -> usize
    requires { index < 64 }
    ensures value { length (numbers_with (is_held words.now) (64 * (index + 1))) ≡ length (numbers_with (is_held words.now) (64 * index)) + result }
    ensures few { result ≤ 64 }
{
    words[index].count_ones() as usize
}

// How many counts are in the set.
pub(crate) fn size(words: &[u64; WORDS]) -> usize
    ensures value { result ≡ length (counts_of words.now) }
    ensures few { result ≤ MOST_COMMANDS }
{
    let last = last_word(words);
    let mut size = 0;
    for index in 0..last + 1 {
        size += count_in(words, index);
    }
    size
}

// The place of the count with so many lesser ones in the set, if there is one.
pub(crate) fn place_of(words: &[u64; WORDS], rank: usize) -> Option<usize>
    ensures { MatchOption result (length (counts_of words.now) ≤ rank) (IsPlaceOf words.now rank) }
{
    let mut left = rank;
    for index in 0..WORDS {
        let count = count_in(words, index);
        if left < count {
            return Some(place_in(words, index, left));
        }
        left -= count;
    }
    None
}

// The place of the count of one word with so many lesser ones in that word.
fn place_in(words: &[u64; WORDS], index: usize, rank: usize) -> usize
    requires word { index < 64 }
    requires held { length (numbers_with (is_held words.now) (64 * index)) + rank < length (numbers_with (is_held words.now) (64 * (index + 1))) }
    ensures { IsPlaceOf words.now (length (numbers_with (is_held words.now) (64 * index)) + rank) result }
{
    let mut left = rank;
    for place in 64 * index..64 * (index + 1) {
        if holds(words, place) {
            if left == 0 {
                return place;
            }
            left -= 1;
        }
    }
    unreachable!()
}

// The place of the greatest count of the set.
pub(crate) fn last_place(words: &[u64; WORDS]) -> usize
    requires { IsSet words.now }
    ensures within { result < MOST_COMMANDS }
    ensures held { is_held words.now (result + 1) ≡ true }
    ensures above { (other : ℕ) → result < other → other < MOST_COMMANDS → is_held words.now (other + 1) ≡ false }
{
    let mut place = 64 * last_word(words) + 63;
    while !holds(words, place) {
        place -= 1;
    }
    place
}

// The last word that tells of any count, and the first where none does.
fn last_word(words: &[u64; WORDS]) -> usize
    ensures within { result < 64 }
    ensures above { (k : ℕ) → result < k → k < 64 → slice_index words.now k ≡ 0 }
{
    let mut index = WORDS - 1;
    while 0 < index && words[index] == 0 {
        index -= 1;
    }
    index
}

// Drops the counts above that of a place from the set.
pub(crate) fn drop_above(words: &mut [u64; WORDS], place: usize)
    requires { place < MOST_COMMANDS }
    ensures below { (other : ℕ) → other ≤ place → is_held words.new (other + 1) ≡ is_held words.old (other + 1) }
    ensures above { (other : ℕ) → place < other → is_held words.new (other + 1) ≡ false }
    ensures set { IsSet words.old → IsSet words.new }
{
    let last = place / 64;
    for index in last + 1..WORDS {
        words[index] = 0;
    }
    words[last] = low_bits(words[last], place % 64);
}

// The bits of a word up to this one.
fn low_bits(word: u64, bit: usize) -> u64
    requires { bit < 64 }
    ensures below { (k : ℕ) → k ≤ bit → bit_at result k ≡ bit_at word k }
    ensures above { (k : ℕ) → bit < k → bit_at result k ≡ 0 }
    ensures less { result ≤ word }
{
    word & (u64::MAX >> (63 - bit))
}
