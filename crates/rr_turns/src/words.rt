//! The words of a table's commands, as its chain in a file has them.
ghost use Rattle.std.specs.Prelude.{◌≡◌, ◌+◌, ◌-◌, ◌<◌, ◌≤◌, [], ◌∷◌, ◌++◌, All, length, slice_get, slice_index, slice_range, take, OnErr, OnOk, OnSome};
ghost use Rattle.std.specs.Iterator.{item_count};
ghost use Rattle.std.specs.Option.{option_copied};
ghost use Rattle.rr_turns.specs.Words.{GivesFirst, HasRoom, IsShort, spelled_commands};

use crate::limits::{LONGEST_COMMAND, MOST_COMMANDS};
use std::alloc::{AllocError, Global};
use std::marker::Model;

/// The words of each command that a table keeps, in one buffer: in front of each command's words stands in two bytes,
/// the highest first, how many bytes they are. A table that has few commands takes little memory.
#[derive(Drop)]
pub struct KeptWords {
    // Both grow by and by: the ends of `MOST_COMMANDS` alone are 16 KB, and most tables have far fewer.
    bytes: Vec<u8>,
    // Where each command's words end.
    ends: Vec<u32>,
}

impl Model for KeptWords {
    ghost use Rattle.std.specs.Prelude.{vec_capacity, vec_len};
    ghost use Rattle.rr_turns.specs.Words.{AreOf, Buffer, room_of, words_ending};

    ghost Value = { Buffer };

    ghost view = { λ s. record {
      commands = words_ending s.bytes.items 0 s.ends.items;
      room = room_of (vec_len s.bytes) (vec_capacity s.bytes) (vec_len s.ends) (vec_capacity s.ends);
    } };

    ghost invariant = { λ s. AreOf s.bytes.items s.ends.items (words_ending s.bytes.items 0 s.ends.items) };
}

impl KeptWords {
    /// Those of no command. It takes no memory.
    pub fn new(alloc: Global) -> KeptWords
        ensures { result ≡ record { commands = []; room = 0 } }
    {
        KeptWords {
            bytes: Vec::new(alloc),
            ends: Vec::new(alloc),
        }
    }

    /// Takes room for one command more, whose words have at most so many bytes.
    ///
    /// # Errors
    ///
    /// `AllocError`, where there is no such room and memory for it is refused.
    pub fn reserve(&mut self, count: usize) -> Result<(), AllocError>
        requires { count ≤ LONGEST_COMMAND }
        ensures room { OnOk result (HasRoom self.new count) }
        ensures full { OnErr result (self.old.room < count + 2) }
        ensures commands { self.new.commands ≡ self.old.commands }
        ensures grows { self.old.room ≤ self.new.room }
        ensures err { OnErr result (self.new ≡ self.old) }
    {
        // The ends come last: where they can't grow there was no room, and there is none.
        self.bytes.reserve(count + 2)?;
        self.ends.reserve(1)?;
        Ok(())
    }

    /// Adds a command's words, for which there is room: it asks for no memory. What room is left then isn't told.
    pub fn push(&mut self, words: &[u8])
        requires few { length self.old.commands < MOST_COMMANDS }
        requires short { IsShort words.now }
        requires room { HasRoom self.old (length words.now) }
        ensures { self.new.commands ≡ self.old.commands ++ words.now ∷ [] }
    {
        let count = (words.len() as u16).to_be_bytes();
        self.bytes.extend_from_slice(&count).unwrap();
        self.bytes.extend_from_slice(words).unwrap();
        let end = self.bytes.len() as u32;
        self.ends.push(end).unwrap();
    }

    /// Drops all but the first so many commands' words. The room stays, and grows by what is dropped.
    pub fn truncate(&mut self, count: usize)
        ensures commands { self.new.commands ≡ take count self.old.commands }
        ensures room { self.old.room ≤ self.new.room }
    {
        if self.ends.len() <= count {
            return;
        }
        let length = length_of(self.ends.as_slice(), count);
        self.bytes.truncate(length);
        self.ends.truncate(count);
    }

    /// How many commands there are.
    pub fn len(&self) -> usize
        ensures value { result ≡ length self.now.commands }
        ensures few { result ≤ MOST_COMMANDS }
    {
        self.ends.len()
    }

    /// The words of the command at this place, the first of which is 0.
    pub fn get(&self, index: usize) -> Option<&[u8]>
        ensures value { option_copied result ≡ slice_get self.now.commands index }
        ensures few { OnSome result (index < MOST_COMMANDS) }
    {
        let ends = self.ends.as_slice();
        if ends.len() <= index {
            return None;
        }
        let start = length_of(ends, index) + 2;
        let end = ends[index] as usize;
        Some(part(self.bytes.as_slice(), start, end))
    }

    /// The words of the last command.
    pub fn last(&self) -> Option<&[u8]>
        ensures { option_copied result ≡ slice_get self.now.commands (length self.now.commands - 1) }
    {
        let place = self.len().checked_sub(1)?;
        self.get(place)
    }

    /// The words of each command, one command after the other.
    pub fn iter(&self) -> Words<'_>
        ensures { result ≡ self.now.commands }
    {
        Words {
            kept: self,
            place: 0,
        }
    }

    /// All of them, as the table's chain has them.
    pub fn as_bytes(&self) -> &[u8]
        ensures value { result.now ≡ spelled_commands self.now.commands }
        ensures short { All IsShort self.now.commands }
    {
        self.bytes.as_slice()
    }
}

/// The words of the commands that are still to be given.
#[derive(Drop)]
pub struct Words<'a> {
    kept: &'a KeptWords,
    place: usize,
}

impl<'a> Model for Words<'a> {
    ghost use Rattle.std.specs.Prelude.{ℕ, List, drop};

    ghost Value = { List (List ℕ) };

    ghost view = { λ s. drop s.place s.kept.now.commands };
}

impl<'a> Iterator for Words<'a> {
    type Item = &'a [u8];

    ghost next_gives = { GivesFirst };

    ghost remaining = { item_count (λ commands. commands) };

    fn next(&mut self) -> Option<&'a [u8]> {
        let kept = self.kept;
        let words = kept.get(self.place)?;
        self.place += 1;
        Some(words)
    }
}

/// How many bytes the first so many commands have.
fn length_of(ends: &[u32], count: usize) -> usize
    requires { count ≤ length ends.now }
    ensures { result ≡ slice_index (0 ∷ ends.now) count }
{
    match count.checked_sub(1) {
        None => 0,
        Some(last) => ends[last] as usize,
    }
}

fn part(bytes: &[u8], start: usize, end: usize) -> &[u8]
    requires order { start ≤ end }
    requires within { end ≤ length bytes.now }
    ensures { result.now ≡ slice_range bytes.now start end }
{
    &bytes[start..end]
}
