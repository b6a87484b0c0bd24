//! The entries that the commands of a turn added to a table's book.
ghost use Rattle.std.specs.Prelude.{◌≡◌, ◌-◌, ◌<◌, ◌≤◌, ◌++◌, None, length, take, true, IfOk, IsOkUnless, MatchResult};
ghost use Rattle.rr_auction.specs.Opening.{opened};
ghost use Rattle.rr_kit.specs.declared.kit.Kit.{Kit as AnyKit};
ghost use Rattle.rr_turns.specs.Judgement.{MayFind, settled};
ghost use Rattle.rr_turns.specs.Turns.{first_turns};
ghost use Rattle.rr_entries.specs.Words.{joined};
ghost use Rattle.rr_game.specs.Keeping.{IsGameOf};
ghost use Rattle.rr_game.specs.Play.{play};
ghost use Rattle.rr_game.specs.Turning.{ends_turn};
ghost use Rattle.rr_game.specs.History.Playing.{ArePlayed};
ghost use Rattle.rr_game.specs.History.Tables.{IsPlayed, kept_in};
ghost use Rattle.rr_game.specs.History.TurnEntries.{book_verdict, is_readable_turn, turn_entries};

use crate::Game;
use crate::history::fault::Fault;
use crate::history::kept::KeptCommands;
use crate::history::table::Table;
use rr_code::Players;
use rr_desk::Entries;
use rr_entries::opening_entries;
use rr_kit::Kit;
use std::alloc::Global;

impl Table {
    /// The entries that the commands of a turn added to the table's book: lists that joined have them all, oldest
    /// first. Turn 0 is the opening. The turn after the last one that has ended is the turn under way. To find them
    /// the commands from the nearest snapshot before the turn on are played.
    ///
    /// # Errors
    ///
    /// `TurnNotKept` for a turn at or below the floor, except turn 0 if the floor is 0, and for a turn after the one
    /// under way; then `OutOfMemory`.
    pub fn book(&self, alloc: Global, turn: u64, kit: &Kit) -> Result<Vec<Entries>, Fault>
        ensures { IsPlayed kit.now self.now → MatchResult result
            (λ all. (book_verdict kit.now (kept_in self.now) turn ≡ None)
            × (joined all.items ≡ turn_entries kit.now (kept_in self.now).commands turn))
            (λ fault. MayFind (settled (book_verdict kit.now (kept_in self.now) turn)) Fault.OutOfMemory fault) }
    {
        if !self.is_readable(turn) {
            return Err(Fault::TurnNotKept);
        }
        if turn == 0 {
            return opening(alloc, &self.game.players, kit);
        }
        self.entries_of(alloc, turn, kit)
    }

    // Whether the entries of a turn can be read.
    fn is_readable(&self, turn: u64) -> bool
        ensures readable { (kit : AnyKit) → IsPlayed kit self.now → result ≡ is_readable_turn kit (kept_in self.now) turn }
        ensures begun { result ≡ true → 1 ≤ turn → turn ≤ length self.now.game.ends }
    {
        if turn == 0 {
            return self.floor == 0;
        }
        self.keeps(turn - 1)
    }

    // The entries of a turn that has begun.
    fn entries_of(&self, alloc: Global, turn: u64, kit: &Kit) -> Result<Vec<Entries>, Fault>
        requires some { 1 ≤ turn }
        requires begun { turn ≤ length self.now.game.ends }
        ensures entries { IfOk result (λ all. IsPlayed kit.now self.now →
            joined all.items ≡ turn_entries kit.now (kept_in self.now).commands turn) }
        ensures memory { IsPlayed kit.now self.now → IsOkUnless result Fault.OutOfMemory }
    {
        let begin = self.count_at(turn - 1);
        let end = self.count_at(turn);
        let before = self.game_at(alloc, begin, kit)?;
        entries_up_to(alloc, before.game, &self.kept, end, kit)
    }

    // How many commands are kept at the end of a turn, or all of them if the turn hasn't ended.
    fn count_at(&self, turn: u64) -> usize
        ensures some { turn < length self.now.game.ends → 1 ≤ result }
        ensures within { result ≤ length self.now.kept.commands }
        ensures front { (kit : AnyKit) → IsPlayed kit self.now →
            first_turns (ends_turn kit) turn self.now.kept.commands ≡ take result self.now.kept.commands }
    {
        match self.game.played_at(turn) {
            Some(count) => count,
            None => self.kept.len(),
        }
    }
}

// The entries of an opening.
fn opening(alloc: Global, players: &Players, kit: &Kit) -> Result<Vec<Entries>, Fault>
    ensures entries { IfOk result (λ all. joined all.items ≡ opened players.now kit.now.roster) }
    ensures memory { IsOkUnless result Fault.OutOfMemory }
{
    let entries = opening_entries(alloc, players.as_slice(), kit.roster())?;
    let mut all = Vec::new(alloc);
    all.push(entries)?;
    Ok(all)
}

// The entries of the commands after those that `game` has played, up to command `count`.
fn entries_up_to(
    alloc: Global,
    game: Game,
    kept: &KeptCommands,
    count: usize,
    kit: &Kit,
) -> Result<Vec<Entries>, Fault>
    requires within { count ≤ length kept.now.commands }
    ensures entries { IfOk result (λ all. game.played ≤ count → IsGameOf kit.now (take game.played kept.now.commands) game →
        (play kit.now (take game.played kept.now.commands)).book ++ joined all.items
        ≡ (play kit.now (take count kept.now.commands)).book) }
    ensures memory { IsGameOf kit.now (take game.played kept.now.commands) game →
        ∥ ArePlayed kit.now (take count kept.now.commands) ∥₁ → IsOkUnless result Fault.OutOfMemory }
{
    crate::laws::commands_have_one_verdict();
    // `kept.len()` shows the bound on commands that `apply` requires.
    let _count = kept.len();
    let start = game.played as usize;
    let mut next = game;
    let mut all = Vec::new(alloc);
    for place in start..count {
        let command = kept.command(place);
        let applied = next.apply(alloc, &command, kit)?;
        next = applied.game;
        all.push(applied.entries)?;
    }
    Ok(all)
}
