//! How many commands a table keeps at the end of each turn.
ghost use Rattle.std.specs.Prelude.{◌≡◌, ◌+◌, ◌-◌, ◌<◌, ◌≤◌, [], ◌∷◌, ◌++◌, Some, length, slice_get, take, All, IfSome};
ghost use Rattle.rr_turns.specs.Bytes.{ends_form};
ghost use Rattle.rr_turns.specs.Counts.{AreEnds};
ghost use Rattle.rr_turns.specs.Ends.{kept_at};

use crate::limits::MOST_COMMANDS;
use crate::set::{self, WORDS};
use rr_words::spelling::{Cursor, Spell};
use std::alloc::AllocError;
use std::marker::Model;

/// How many commands a table keeps at the end of each turn that has ended: turn 0's first, which is the opening alone.
/// It takes no memory, and `Copy` copies it.
#[derive(Clone, Copy, Debug)]
pub struct Ends {
    words: [u64; WORDS],
}

impl Model for Ends {
    ghost use Rattle.std.specs.Prelude.{ℕ, List};
    ghost use Rattle.rr_turns.specs.Counts.{IsSet, counts_of, words_of};
    ghost use Rattle.rr_turns.specs.Sets.{words_of-counts_of};

    ghost Value = { List ℕ };

    ghost view = { λ s. counts_of s.words };

    ghost invariant = { λ s. IsSet s.words };

    ghost inverse = { λ counts. record { words = words_of counts } };

    ghost inverse_ok = { λ s h i. record { words = words_of-counts_of s.words h i } };
}

impl Ends {
    /// The counts of a table that keeps its opening alone.
    pub fn opening() -> Ends
        ensures { result ≡ 1 ∷ [] }
    {
        Ends {
            words: set::of_opening(),
        }
    }

    /// A turn has ended, with so many commands kept.
    pub fn add(&mut self, count: usize)
        requires later { All (λ earlier. earlier < count) self.old }
        requires most { count ≤ MOST_COMMANDS }
        ensures { self.new ≡ self.old ++ count ∷ [] }
    {
        set::put(&mut self.words, count - 1);
    }

    /// How many turns have ended; turn 0 isn't one of them.
    pub fn turns(&self) -> usize
        ensures value { result + 1 ≡ length self.now }
        ensures counts { AreEnds self.now }
        ensures few { result < MOST_COMMANDS }
    {
        set::size(&self.words) - 1
    }

    /// How many commands are kept at the end of a turn, if it has ended.
    pub fn kept_at(&self, turn: usize) -> Option<usize>
        ensures value { result ≡ slice_get self.now turn }
        ensures kept { IfSome result (λ count. count ≡ kept_at self.now turn) }
        ensures few { IfSome result (λ count. (1 ≤ count) × (count ≤ MOST_COMMANDS)) }
    {
        let place = set::place_of(&self.words, turn)?;
        Some(place + 1)
    }

    /// How many commands are kept at the end of the last turn that has ended.
    pub fn last(&self) -> usize
        ensures value { slice_get self.now (length self.now - 1) ≡ Some result }
        ensures greatest { All (λ count. count ≤ result) self.now }
        ensures few { (1 ≤ result) × (result ≤ MOST_COMMANDS) }
    {
        set::last_place(&self.words) + 1
    }

    /// The counts of the turns up to this one.
    pub fn through(&self, turn: usize) -> Ends
        ensures { result ≡ take (turn + 1) self.now }
    {
        match set::place_of(&self.words, turn) {
            None => *self,
            Some(place) => {
                let mut words = self.words;
                set::drop_above(&mut words, place);
                Ends { words }
            }
        }
    }
}

impl Spell for Ends {
    ghost form = { ends_form };

    fn write(&self, out: &mut Vec<u8>) -> Result<(), AllocError> {
        self.words.write(out)
    }

    fn read(cursor: &mut Cursor) -> Option<Ends> {
        let words = <[u64; WORDS]>::read(cursor)?;
        if set::holds(&words, 0) {
            return Some(Ends { words });
        }
        None
    }
}
