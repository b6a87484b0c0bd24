//! A command by the rules of each stage.
ghost use Rattle.std.specs.Prelude.{◌≡◌, true, false, None, IfOk, MatchResult};
ghost use Rattle.rr_auction.specs.Small as auction;
ghost use Rattle.rr_stock.specs.Small.{HasSeat};
ghost use Rattle.rr_trains.specs.Depot.Small as depot;
ghost use Rattle.rr_market.specs.declared.operations.turn.Stage.TheVariants as G;
ghost use Rattle.rr_turns.specs.Judgement.{IsVerdict, MayFind};
ghost use Rattle.rr_rules.specs.Forced.Rules.{is_forced};
ghost use Rattle.rr_rules.specs.Judging.{judgement_in, operating_judgement};
ghost use Rattle.rr_rules.specs.Playing.{entries_in, operating_entries, state_in};
ghost use Rattle.rr_rules.specs.State.{GameState, IsStandingOf};

use crate::standing::{Standing, Taken};
use rr_books::{Act, Refusal};
use rr_desk::Desk;
use rr_kit::Kit;
use std::alloc::Global;

impl Standing {
    // A command of the auction.
    pub(crate) fn take_in_auction(
        &self,
        alloc: Global,
        kit: &Kit,
        act: &Act,
    ) -> Result<Taken, Refusal>
        requires { auction.IsSmall act.now }
        ensures verdict { (state : GameState) → IsStandingOf state self.now → MatchResult result
            (λ _. IsVerdict (judgement_in G.Auction kit.now state act.now) None)
            (λ fault. MayFind (judgement_in G.Auction kit.now state act.now) Refusal.OutOfMemory fault) }
        ensures standing { IfOk result (λ taken. (state : GameState) → IsStandingOf state self.now → IsStandingOf (state_in G.Auction kit.now state act.now) taken.standing) }
        ensures entries { IfOk result (λ taken. (state : GameState) → IsStandingOf state self.now → taken.entries ≡ entries_in G.Auction kit.now state act.now) }
    {
        rr_auction::judge(kit.roster(), kit.chart(), &self.position, act)?;
        let mut desk = Desk::new(alloc, &self.position)?;
        rr_auction::play(kit.roster(), kit.chart(), &mut desk, act)?;
        let (position, entries) = desk.into_parts();
        let revenue = self.revenue;
        Ok(Taken {
            standing: Standing { position, revenue },
            entries,
        })
    }

    // A command of a stock round, with what follows on it by itself.
    pub(crate) fn take_in_stock_round(
        &self,
        alloc: Global,
        kit: &Kit,
        act: &Act,
    ) -> Result<Taken, Refusal>
        requires { HasSeat act.now }
        ensures verdict { (state : GameState) → IsStandingOf state self.now → MatchResult result
            (λ _. IsVerdict (judgement_in G.Stock kit.now state act.now) None)
            (λ fault. MayFind (judgement_in G.Stock kit.now state act.now) Refusal.OutOfMemory fault) }
        ensures standing { IfOk result (λ taken. (state : GameState) → IsStandingOf state self.now → IsStandingOf (state_in G.Stock kit.now state act.now) taken.standing) }
        ensures entries { IfOk result (λ taken. (state : GameState) → IsStandingOf state self.now → taken.entries ≡ entries_in G.Stock kit.now state act.now) }
    {
        rr_stock::judge(kit.chart(), &self.position, act)?;
        let mut desk = Desk::new(alloc, &self.position)?;
        rr_stock::play(kit.chart(), &mut desk, act)?;
        rr_operate::sets::go_on_in_stock_round(&mut desk, kit)?;
        let (position, entries) = desk.into_parts();
        let revenue = self.revenue;
        Ok(Taken {
            standing: Standing { position, revenue },
            entries,
        })
    }

    // A command of an operating round.
    pub(crate) fn take_in_operating_round(
        &self,
        alloc: Global,
        kit: &Kit,
        act: &Act,
    ) -> Result<Taken, Refusal>
        requires { depot.IsSmall act.now }
        ensures verdict { (state : GameState) → IsStandingOf state self.now → MatchResult result
            (λ _. IsVerdict (judgement_in G.Operating kit.now state act.now) None)
            (λ fault. MayFind (judgement_in G.Operating kit.now state act.now) Refusal.OutOfMemory fault) }
        ensures standing { IfOk result (λ taken. (state : GameState) → IsStandingOf state self.now → IsStandingOf (state_in G.Operating kit.now state act.now) taken.standing) }
        ensures entries { IfOk result (λ taken. (state : GameState) → IsStandingOf state self.now → taken.entries ≡ entries_in G.Operating kit.now state act.now) }
    {
        match act {
            Act::Force { .. } | Act::Raise { .. } | Act::Bankrupt { .. } => {
                self.take_forced(alloc, kit, act)
            }
            _ => self.take_in_turn(alloc, kit, act),
        }
    }

    // A command of a corporation that must own a train and can't pay it.
    fn take_forced(&self, alloc: Global, kit: &Kit, act: &Act) -> Result<Taken, Refusal>
        requires { is_forced act.now ≡ true }
        ensures verdict { (state : GameState) → IsStandingOf state self.now → MatchResult result
            (λ _. IsVerdict (operating_judgement true kit.now state act.now) None)
            (λ fault. MayFind (operating_judgement true kit.now state act.now) Refusal.OutOfMemory fault) }
        ensures standing { IfOk result (λ taken. (state : GameState) → IsStandingOf state self.now → IsStandingOf (state_in G.Operating kit.now state act.now) taken.standing) }
        ensures entries { IfOk result (λ taken. (state : GameState) → IsStandingOf state self.now → taken.entries ≡ entries_in G.Operating kit.now state act.now) }
    {
        crate::forced::judge(alloc, kit, &self.position, act)?;
        let mut desk = Desk::new(alloc, &self.position)?;
        crate::forced::play(kit.roster(), kit.chart(), &mut desk, act)?;
        let (position, entries) = desk.into_parts();
        let revenue = self.revenue;
        Ok(Taken {
            standing: Standing { position, revenue },
            entries,
        })
    }

    // A command of a corporation's turn.
    fn take_in_turn(&self, alloc: Global, kit: &Kit, act: &Act) -> Result<Taken, Refusal>
        requires turn { is_forced act.now ≡ false }
        requires small { depot.IsSmall act.now }
        ensures verdict { (state : GameState) → IsStandingOf state self.now → MatchResult result
            (λ _. IsVerdict (operating_judgement false kit.now state act.now) None)
            (λ fault. MayFind (operating_judgement false kit.now state act.now) Refusal.OutOfMemory fault) }
        ensures standing { IfOk result (λ taken. (state : GameState) → IsStandingOf state self.now → IsStandingOf (state_in G.Operating kit.now state act.now) taken.standing) }
        ensures entries { IfOk result (λ taken. (state : GameState) → IsStandingOf state self.now → taken.entries ≡ entries_in G.Operating kit.now state act.now) }
    {
        let revenue = rr_operate::judge(alloc, kit, &self.position, self.revenue, act)?;
        let mut desk = Desk::new(alloc, &self.position)?;
        rr_operate::play(kit, &mut desk, self.revenue, act)?;
        let (position, entries) = desk.into_parts();
        Ok(Taken {
            standing: Standing { position, revenue },
            entries,
        })
    }
}
