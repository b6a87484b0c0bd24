//! A run, before its words are looked at.
ghost use Rattle.std.specs.Prelude.{◌≡◌, None, Some, MatchResult};
ghost use Rattle.rr_game.specs.History.Running.{run_verdict};
ghost use Rattle.rr_game.specs.History.Tables.{IsPlayed, kept_in};
ghost use Rattle.rr_game.specs.History.Verdict.{room_verdict};

use crate::history::fault::Fault;
use crate::history::table::Table;
use rr_kit::Kit;
use rr_roster::Corp;
use rr_turns::MOST_COMMANDS;
use std::alloc::Global;

impl Table {
    /// Whether the corporation may run now, by a request with this stamp: what is asked of a run before its sheet and
    /// its certificate are looked at. It takes no memory.
    ///
    /// # Errors
    ///
    /// `StaleStamp` where the stamp isn't the table's; `TooManyCommands` where the table has its last stamp or keeps
    /// `MOST_COMMANDS` commands; then what the game refuses whatever the sheet.
    pub fn judge_run(&self, alloc: Global, stamp: u64, corp: Corp, kit: &Kit) -> Result<(), Fault>
        ensures { IsPlayed kit.now self.now → MatchResult result
            (λ _. run_verdict kit.now (kept_in self.now) stamp corp ≡ None)
            (λ fault. run_verdict kit.now (kept_in self.now) stamp corp ≡ Some fault) }
    {
        self.judge_stamp(stamp)?;
        self.judge_room()?;
        self.game.judge_run(alloc, kit, corp)?;
        Ok(())
    }

    // Whether it keeps fewer commands than it can.
    fn judge_room(&self) -> Result<(), Fault>
        ensures { MatchResult result
            (λ _. room_verdict (kept_in self.now) ≡ None)
            (λ fault. room_verdict (kept_in self.now) ≡ Some fault) }
    {
        if self.kept.len() >= MOST_COMMANDS {
            return Err(Fault::TooManyCommands);
        }
        Ok(())
    }
}
