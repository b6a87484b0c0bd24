//! A run, before its words are looked at.
ghost use Rattle.std.specs.Prelude.{◌≡◌, [], None, Some, MatchResult};
ghost use Rattle.rr_market.specs.declared.operations.turn.Stage.TheVariants as G;
ghost use Rattle.rr_rules.specs.Judging.{judgement_in};
ghost use Rattle.rr_rules.specs.Runs.{run_verdict};
ghost use Rattle.rr_rules.specs.State.{GameState, IsStandingOf};

use crate::standing::Standing;
use rr_books::{Act, Refusal, Words};
use rr_kit::Kit;
use rr_market::operations::Stage;
use rr_roster::Corp;
use std::alloc::Global;

impl Standing {
    /// Whether the corporation may run now, by the rules in force: what is asked of a run before its sheet and its
    /// certificate are looked at. It takes no memory.
    ///
    /// # Errors
    ///
    /// `MustDiscardFirst`, `WrongStep` or `NotYourTurn`.
    pub fn judge_run(&self, alloc: Global, kit: &Kit, corp: Corp) -> Result<(), Refusal>
        ensures { (state : GameState) → IsStandingOf state self.now → MatchResult result
            (λ _. run_verdict kit.now state corp ≡ None)
            (λ fault. run_verdict kit.now state corp ≡ Some fault) }
    {
        let run = Act::Run {
            corp,
            sheet: Words::none(alloc),
        };
        self.judge_run_in(self.stage(), kit, corp, &run)?;
        Ok(())
    }

    // By the rules of a stage.
    fn judge_run_in(&self, stage: Stage, kit: &Kit, corp: Corp, run: &Act) -> Result<(), Refusal>
        requires { run.now ≡ Act.Run corp [] }
        ensures { (state : GameState) → IsStandingOf state self.now → MatchResult result
            (λ _. (judgement_in stage kit.now state (Act.Run corp [])).first ≡ None)
            (λ fault. (judgement_in stage kit.now state (Act.Run corp [])).first ≡ Some fault) }
    {
        match stage {
            Stage::Auction => self.judge_run_in_auction(kit, corp, run),
            Stage::Stock => self.judge_run_in_stock_round(kit, corp, run),
            Stage::Operating => self.judge_run_in_turn(kit, corp, run),
        }
    }

    fn judge_run_in_auction(&self, kit: &Kit, corp: Corp, run: &Act) -> Result<(), Refusal>
        requires { run.now ≡ Act.Run corp [] }
        ensures { (state : GameState) → IsStandingOf state self.now → MatchResult result
            (λ _. (judgement_in G.Auction kit.now state (Act.Run corp [])).first ≡ None)
            (λ fault. (judgement_in G.Auction kit.now state (Act.Run corp [])).first ≡ Some fault) }
    {
        rr_auction::judge(kit.roster(), kit.chart(), &self.position, run)?;
        Ok(())
    }

    fn judge_run_in_stock_round(&self, kit: &Kit, corp: Corp, run: &Act) -> Result<(), Refusal>
        requires { run.now ≡ Act.Run corp [] }
        ensures { (state : GameState) → IsStandingOf state self.now → MatchResult result
            (λ _. (judgement_in G.Stock kit.now state (Act.Run corp [])).first ≡ None)
            (λ fault. (judgement_in G.Stock kit.now state (Act.Run corp [])).first ≡ Some fault) }
    {
        rr_stock::judge(kit.chart(), &self.position, run)?;
        Ok(())
    }

    fn judge_run_in_turn(&self, kit: &Kit, corp: Corp, run: &Act) -> Result<(), Refusal>
        requires { run.now ≡ Act.Run corp [] }
        ensures { (state : GameState) → IsStandingOf state self.now → MatchResult result
            (λ _. (judgement_in G.Operating kit.now state (Act.Run corp [])).first ≡ None)
            (λ fault. (judgement_in G.Operating kit.now state (Act.Run corp [])).first ≡ Some fault) }
    {
        rr_operate::judge_order(kit, &self.position, self.revenue, run)?;
        Ok(())
    }
}
