//! How a table stands.
ghost use Rattle.std.specs.Prelude.{◌≡◌, ◌↔◌, ◌≤◌, IsTrue, length};
ghost use Rattle.std.specs.List.{filter};
ghost use Rattle.rr_turns.specs.declared.limits.TheConstants.{LAST_STAMP};
ghost use Rattle.rr_game.specs.Keeping.{IsGameOf};
ghost use Rattle.rr_game.specs.Turning.{ends_turn};
ghost use Rattle.rr_game.specs.History.Snapshots.{is_between, least_named};
ghost use Rattle.rr_game.specs.History.Tables.{HasItsSnapshots, IsPlayed, kept_in, turns_in};
ghost use Rattle.rr_kit.specs.declared.kit.Kit.{Kit as AnyKit};
ghost use Rattle.rr_turns.specs.Ends.{kept_at};
ghost use Rattle.rr_turns.specs.Turns.{ended_turns};

use crate::Game;
use crate::history::kept::KeptCommands;
use crate::history::snapshots::{Snapshot, are_named, least_named};
use crate::history::table::Table;

impl Table {
    /// The turns that have ended.
    pub fn turns(&self) -> u64
        ensures value { result ≡ turns_in self.now }
        ensures ended { (kit : AnyKit) → IsPlayed kit self.now →
            result ≡ ended_turns (ends_turn kit) (kept_in self.now).commands }
    {
        self.game.turns()
    }

    /// The least turn to which the table can be taken back.
    pub fn floor(&self) -> u64
        ensures { result ≡ (kept_in self.now).floor }
    {
        self.floor
    }

    /// The stamp that the next request has to have.
    pub fn stamp(&self) -> u64
        ensures value { result ≡ (kept_in self.now).stamp }
        ensures last { result ≤ LAST_STAMP }
    {
        self.stamp
    }

    /// The game now, which is the play of the kept commands.
    pub fn game(&self) -> &Game
        ensures value { result.now ≡ self.now.game }
        ensures played { (kit : AnyKit) → IsPlayed kit self.now → IsGameOf kit (kept_in self.now).commands result.now }
    {
        &self.game
    }

    /// The kept commands, the opening first.
    pub fn commands(&self) -> &KeptCommands
        ensures { result.now.commands ≡ (kept_in self.now).commands }
    {
        &self.kept
    }

    /// The snapshots of its game, those of fewer commands first.
    pub fn snapshots(&self) -> &[Snapshot]
        ensures value { result.now ≡ self.now.kept.snapshots }
    {
        self.kept.snapshots()
    }

    /// Whether the table has just the snapshots that the rule names: one at each multiple of `SNAPSHOT_SPACING`
    /// commands above the count at its floor, and one at the greatest multiple that isn't above that.
    pub fn has_its_snapshots(&self) -> bool
        ensures { IsTrue result ↔ HasItsSnapshots self.now }
    {
        match self.game.played_at(self.floor) {
            Some(count) => are_named(self.kept.snapshots(), least_named(count), self.kept.len()),
            None => false,
        }
    }

    /// Goes on with a floor and a stamp that a file tells of the table, and drops the snapshots that aren't kept with that
    /// floor. The stamp is at most 4,000,000,000.
    pub fn resume(&mut self, floor: u64, stamp: u64)
        requires { stamp ≤ LAST_STAMP }
        ensures commands { (kept_in self.new).commands ≡ (kept_in self.old).commands }
        ensures floor { (kept_in self.new).floor ≡ floor }
        ensures stamp { (kept_in self.new).stamp ≡ stamp }
        ensures snapshots { self.new.kept.snapshots ≡
            filter (λ game. is_between (least_named (kept_at self.old.game.ends floor)) (length self.old.kept.commands) game.played) self.old.kept.snapshots }
        ensures played { (kit : AnyKit) → IsPlayed kit self.old → IsPlayed kit self.new }
        ensures named { (kit : AnyKit) → IsPlayed kit self.old → HasItsSnapshots self.old → self.old.floor ≤ floor →
            floor ≤ turns_in self.old → HasItsSnapshots self.new }
    {
        let table = self;
        let least = table.least_snapshot(floor);
        let count = table.kept.len();
        table.kept.keep_snapshots(least, count);
        table.floor = floor;
        table.stamp = stamp;
    }
    // The least count of which a table with this floor may keep a snapshot.
    fn least_snapshot(&self, floor: u64) -> usize
        ensures { result ≡ least_named (kept_at self.now.game.ends floor) }
    {
        match self.game.played_at(floor) {
            Some(count) => least_named(count),
            None => 0,
        }
    }
}
