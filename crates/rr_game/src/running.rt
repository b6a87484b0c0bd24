//! A run, before its words are looked at.
ghost use Rattle.std.specs.Prelude.{◌≡◌, ℕ, List, None, Some, MatchResult};
ghost use Rattle.rr_rules.specs.State.{GameState, IsStandingOf};
ghost use Rattle.rr_game.specs.Running.{run_verdict};

use crate::game::Game;
use rr_books::{Corp, Refusal};
use rr_kit::Kit;
use rr_rules::Standing;
use std::alloc::Global;

impl Game {
    /// Whether the corporation may run now: what is asked of a run before its sheet and its certificate are looked at.
    /// It takes no memory.
    ///
    /// # Errors
    ///
    /// `GameOver` once the game is over; then `MustDiscardFirst`, `WrongStep` or `NotYourTurn` by the rules in force.
    pub fn judge_run(&self, alloc: Global, kit: &Kit, corp: Corp) -> Result<(), Refusal>
        ensures { (players : List (List ℕ)) (state : GameState) → IsStandingOf state self.now.standing → MatchResult result
            (λ _. run_verdict kit.now players state corp ≡ None)
            (λ fault. run_verdict kit.now players state corp ≡ Some fault) }
    {
        self.judge_end(kit)?;
        self.standing.judge_run(alloc, kit, corp)?;
        Ok(())
    }

    /// How the table stands: its position, and what the trains earned in the turn under way.
    pub fn standing(&self) -> &Standing
        ensures { result.now ≡ self.now.standing }
    {
        &self.standing
    }
}
