ghost use Rattle.std.specs.Prelude.{◌≡◌, ◌<◌, ◌≤◌, ◌⊎◌, [], ◌∷◌, ◌++◌, Some, false, length, map, option_to_list, slice_get, take, vec_capacity, vec_len, IfErr, IfOk, IsOkUnless, IsTrue, OnErr, OnOk};
ghost use Rattle.std.specs.Bool.{OnFalse, OnTrue};
ghost use Rattle.std.specs.List.{filter};
ghost use Rattle.rr_code.specs.Command.{IsCommand, SpellsCommand, text};
ghost use Rattle.rr_code.specs.declared.command.Command.{Command as Line};
ghost use Rattle.rr_game.specs.History.Snapshots.{is_between};
ghost use Rattle.rr_game.specs.History.Spelling.{HasRoom, IsSpelled};
ghost use Rattle.rr_turns.specs.declared.limits.TheConstants.{MOST_COMMANDS};

use crate::history::fault::Fault;
use crate::history::snapshots::Snapshot;
use crate::history::spelled::{Spelled, command_of, is_short};
use rr_code::Command;
use rr_turns::{KeptWords, MOST_COMMANDS};
use std::alloc::{AllocError, Global};
use std::marker::Model;

/// The commands that a table keeps, the opening first, as their words in one buffer; and snapshots of its game, each
/// behind some of them.
#[derive(Drop)]
pub struct KeptCommands {
    words: KeptWords,
    snapshots: Vec<Snapshot>,
}

impl Model for KeptCommands {
    ghost use Rattle.std.specs.Prelude.{All, vec_capacity, vec_len};
    ghost use Rattle.rr_game.specs.History.Spelling.{CommandBuffer, IsSpelled, buffer_of};

    ghost Value = { CommandBuffer };

    ghost view = { λ s. buffer_of s.words s.snapshots.items (vec_len s.snapshots) (vec_capacity s.snapshots) };

    ghost invariant = { λ s. All IsSpelled s.words.commands };
}

impl KeptCommands {
    /// No command, and no snapshot. It takes no memory.
    pub fn new(alloc: Global) -> KeptCommands
        ensures { result ≡ record { commands = []; snapshots = []; room = 0 } }
    {
        KeptCommands {
            words: KeptWords::new(alloc),
            snapshots: Vec::new(alloc),
        }
    }

    /// Keeps the command that these words spell behind the others, and tells whether they spell one. It isn't judged.
    ///
    /// # Errors
    ///
    /// `TooManyCommands` where `MOST_COMMANDS` are kept; `OutOfMemory`, also for a command of more than
    /// `LONGEST_COMMAND` bytes, which no table could keep.
    pub fn keep(&mut self, words: &[u8]) -> Result<bool, Fault>
        ensures kept { IfOk result (λ kept. OnTrue kept ((command : Line) × SpellsCommand words.now command
            × (self.new.commands ≡ self.old.commands ++ command ∷ []))) }
        ensures none { IfOk result (λ kept. OnFalse kept (((command : Line) → SpellsCommand words.now command → ⊥)
            × (self.new.commands ≡ self.old.commands))) }
        ensures refused { IfErr result (λ fault. (fault ≡ Fault.OutOfMemory)
            ⊎ ((fault ≡ Fault.TooManyCommands) × (MOST_COMMANDS ≤ length self.old.commands))) }
        ensures err { OnErr result (self.new.commands ≡ self.old.commands) }
        ensures snapshots { self.new.snapshots ≡ self.old.snapshots }
    {
        if self.len() >= MOST_COMMANDS {
            return Err(Fault::TooManyCommands);
        }
        if !is_spelled(words) {
            return Ok(false);
        }
        if !is_short(words) {
            return Err(Fault::OutOfMemory);
        }
        self.words.reserve(words.len())?;
        self.words.push(words);
        Ok(true)
    }

    /// Keeps a snapshot behind the others.
    ///
    /// # Errors
    ///
    /// `OutOfMemory`.
    pub fn keep_snapshot(&mut self, snapshot: Snapshot) -> Result<(), Fault>
        ensures ok { OnOk result (self.new.snapshots ≡ self.old.snapshots ++ snapshot ∷ []) }
        ensures err { OnErr result (self.new.snapshots ≡ self.old.snapshots) }
        ensures commands { self.new.commands ≡ self.old.commands }
        ensures memory { IsOkUnless result Fault.OutOfMemory }
    {
        self.snapshots.push(snapshot)?;
        Ok(())
    }

    /// Takes room for one command and one snapshot more.
    ///
    /// # Errors
    ///
    /// `AllocError`, where there is no such room and memory for it is refused.
    pub(crate) fn reserve(&mut self, command: &Spelled) -> Result<(), AllocError>
        ensures room { OnOk result (HasRoom self.new command.now) }
        ensures commands { self.new.commands ≡ self.old.commands }
        ensures snapshots { self.new.snapshots ≡ self.old.snapshots }
        ensures err { OnErr result (self.new ≡ self.old) }
    {
        // The snapshots come last: where they can't grow there was no room, and there is none.
        self.words.reserve(command.as_bytes().len())?;
        self.snapshots.reserve(1)?;
        Ok(())
    }

    /// Adds a command and a snapshot, if there is one. There is room for both: it asks for no memory.
    pub(crate) fn push(&mut self, command: &Spelled, snapshot: Option<Snapshot>)
        requires few { length self.old.commands < MOST_COMMANDS }
        requires room { HasRoom self.old command.now }
        ensures commands { self.new.commands ≡ self.old.commands ++ command.now ∷ [] }
        ensures snapshots { self.new.snapshots ≡ self.old.snapshots ++ option_to_list snapshot }
    {
        self.words.push(command.as_bytes());
        add(&mut self.snapshots, snapshot);
    }

    /// Drops all but the first so many commands. The room stays, and grows by what is dropped.
    pub(crate) fn truncate(&mut self, count: usize)
        ensures commands { self.new.commands ≡ take count self.old.commands }
        ensures snapshots { self.new.snapshots ≡ self.old.snapshots }
        ensures room { self.old.room ≤ self.new.room }
    {
        self.words.truncate(count);
    }

    /// Drops the snapshots of fewer commands than `least`, and of more than `most`.
    pub(crate) fn keep_snapshots(&mut self, least: usize, most: usize)
        ensures commands { self.new.commands ≡ self.old.commands }
        ensures snapshots { self.new.snapshots ≡
            filter (λ game. is_between least most game.played) self.old.snapshots }
        ensures room { self.old.room ≤ self.new.room }
    {
        keep_between(&mut self.snapshots, least, most);
    }

    /// The snapshots, those of fewer commands first.
    pub fn snapshots(&self) -> &[Snapshot]
        ensures { result.now ≡ self.now.snapshots }
    {
        self.snapshots.as_slice()
    }

    /// How many commands there are.
    pub fn len(&self) -> usize
        ensures value { result ≡ length self.now.commands }
        ensures few { result ≤ MOST_COMMANDS }
    {
        self.words.len()
    }

    /// The command at this place, the first of which is 0. The words of a run are lent from the buffer.
    pub fn command(&self, place: usize) -> Command<'_>
        requires { place < length self.now.commands }
        ensures value { slice_get self.now.commands place ≡ Some result }
        ensures form { IsCommand result }
    {
        match self.words.get(place) {
            Some(words) => command_of(words),
            None => unreachable!(),
        }
    }

    /// Their words, as the table's chain has them.
    pub fn words(&self) -> &KeptWords
        ensures { result.now.commands ≡ map text self.now.commands }
    {
        &self.words
    }
}

// Whether the words spell a command.
fn is_spelled(words: &[u8]) -> bool
    ensures spelled { IsTrue result → IsSpelled words.now }
    ensures none { result ≡ false → (command : Line) → SpellsCommand words.now command → ⊥ }
{
    Command::read(words).is_ok()
}

// Adds a snapshot, if there is one. There is room for one.
fn add(snapshots: &mut Vec<Snapshot>, snapshot: Option<Snapshot>)
    requires { vec_len snapshots.old < vec_capacity snapshots.old }
    ensures { snapshots.new.items ≡ snapshots.old.items ++ option_to_list snapshot }
{
    if let Some(snapshot) = snapshot {
        snapshots.push(snapshot).unwrap();
    }
}

// Drops the snapshots of fewer commands than `least`, and of more than `most`.
fn keep_between(snapshots: &mut Vec<Snapshot>, least: usize, most: usize)
    ensures items { snapshots.new.items ≡
        filter (λ game. is_between least most game.played) snapshots.old.items }
    ensures len { vec_len snapshots.new ≤ vec_len snapshots.old }
    ensures capacity { vec_capacity snapshots.new ≡ vec_capacity snapshots.old }
{
    snapshots.retain(|snapshot| is_between(snapshot, least, most));
}

fn is_between(snapshot: &Snapshot, least: usize, most: usize) -> bool
    ensures { result ≡ is_between least most snapshot.now.played }
{
    let played = snapshot.played();
    least <= played && played <= most
}
