ghost use Rattle.std.specs.Prelude.{◌≡◌, ◌≤◌, ◌≤ℤ◌, pos, List, ℕ, length, None, IfOk, MatchResult};
ghost use Rattle.rr_auction.specs.Opening.{opened};
ghost use Rattle.rr_auction.specs.Small as auction;
ghost use Rattle.rr_stock.specs.Small.{HasSeat};
ghost use Rattle.rr_trains.specs.Depot.Small as depot;
ghost use Rattle.rr_books.specs.Book.{Book};
ghost use Rattle.rr_desk.specs.Position.Position.{IsPositionOf};
ghost use Rattle.rr_turns.specs.Judgement.{IsVerdict, MayFind};
ghost use Rattle.rr_rules.specs.Judging.{bank_is_broken, game_is_over, judgement, judgement_in, stage};
ghost use Rattle.rr_rules.specs.Playing.{entries_after, entries_in, state_after, state_in};
ghost use Rattle.rr_rules.specs.State.{GameState, IsStandingOf};

use crate::names::judge_names;
use rr_books::{Act, Money, Refusal};
use rr_desk::{Entries, Position};
use rr_kit::Kit;
use rr_market::operations::Stage;
use rr_roster::Roster;
use std::alloc::{AllocError, Global};
use std::marker::Model;

/// How a table's game stands: the position, and what the trains of the corporation that is due earned in its turn.
#[derive(Debug, Drop)]
pub struct Standing {
    // In a box, so that a standing moves without a copy of it.
    pub(crate) position: Box<Position>,
    // In dollars, nothing before the trains ran.
    pub(crate) revenue: Money,
}

impl Model for Standing {
    ghost use Rattle.std.specs.Prelude.{◌≤ℤ◌, pos};
    ghost use Rattle.rr_rules.specs.State.{AtTable};

    ghost Value = { AtTable };

    ghost view = { λ s. record { position = s.position.value; revenue = s.revenue } };

    ghost invariant = { λ s. (pos 0 ≤ℤ s.revenue.0) × (s.revenue.0 ≤ℤ pos 10000000000) };
}

/// What a command comes to.
#[derive(Debug, Drop)]
pub struct Taken {
    /// How the table stands behind it.
    pub standing: Standing,
    /// What it adds to the table's book, oldest first.
    pub entries: Entries,
}

impl Standing {
    /// How a table stands that opens with so many players, once the auction has begun.
    ///
    /// # Errors
    ///
    /// `AllocError` where there is no memory for its position.
    pub fn open(alloc: Global, players: u8, roster: &Roster) -> Result<Standing, AllocError>
        requires least { 2 ≤ players }
        requires greatest { players ≤ 6 }
        ensures { IfOk result (λ standing. (names : List (List ℕ)) → length names ≡ players
            → IsStandingOf (record { book = opened names roster.now; revenue = record { 0 = pos 0 } }) standing) }
    {
        Ok(Standing {
            position: Box::new(alloc, rr_auction::open_table(players, roster))?,
            revenue: Money(0),
        })
    }

    /// The position.
    pub fn position(&self) -> &Position
        ensures { result.now ≡ self.now.position }
    {
        &self.position
    }

    /// What the trains of the corporation that is due earned in its turn, in dollars: nothing before they ran.
    pub fn revenue(&self) -> Money
        ensures value { result ≡ self.now.revenue }
        ensures least { pos 0 ≤ℤ result.0 }
        ensures greatest { result.0 ≤ℤ pos 10000000000 }
    {
        self.revenue
    }

    /// Whether the game is over: a seat is bankrupt, or a set of operating rounds has ended and the bank owed money
    /// before.
    pub fn is_over(&self, kit: &Kit) -> bool
        ensures { (book : Book) → IsPositionOf book self.now.position → result ≡ game_is_over kit.now book }
    {
        self.position.operations().is_bankrupt() || self.bank_is_broken(kit)
    }

    // Whether a set of operating rounds has ended, and the bank owed money before.
    fn bank_is_broken(&self, kit: &Kit) -> bool
        ensures { (book : Book) → IsPositionOf book self.now.position → result ≡ bank_is_broken kit.now book }
    {
        let operations = self.position.operations();
        operations.stage() == Stage::Operating
            && operations.due(kit.chart()).is_none()
            && operations.bank_owed(kit.roster())
            && !operations.has_more_rounds()
    }

    /// How the table stands behind a command, and what the command adds to its book. A refusal leaves it as it is.
    ///
    /// # Errors
    ///
    /// `NoSuchName` for a hex that the board lacks or a tile that the manifest lacks; then what the rules in force
    /// refuse: those of the auction until it is over, and then those of the stock round or operating round under way.
    /// `OutOfMemory` where none of those comes that take no memory.
    pub fn take(&self, alloc: Global, kit: &Kit, act: &Act) -> Result<Taken, Refusal>
        requires seated { HasSeat act.now }
        requires small_bid { auction.IsSmall act.now }
        requires small_price { depot.IsSmall act.now }
        ensures verdict { (state : GameState) → IsStandingOf state self.now → MatchResult result
            (λ _. IsVerdict (judgement kit.now state act.now) None)
            (λ fault. MayFind (judgement kit.now state act.now) Refusal.OutOfMemory fault) }
        ensures standing { IfOk result (λ taken. (state : GameState) → IsStandingOf state self.now → IsStandingOf (state_after kit.now state act.now) taken.standing) }
        ensures entries { IfOk result (λ taken. (state : GameState) → IsStandingOf state self.now → taken.entries ≡ entries_after kit.now state act.now) }
    {
        judge_names(kit, act)?;
        let taken = self.take_in(self.stage(), alloc, kit, act)?;
        Ok(taken)
    }

    // Takes it by the rules of a stage.
    fn take_in(&self, stage: Stage, alloc: Global, kit: &Kit, act: &Act) -> Result<Taken, Refusal>
        requires seated { HasSeat act.now }
        requires small_bid { auction.IsSmall act.now }
        requires small_price { depot.IsSmall act.now }
        ensures verdict { (state : GameState) → IsStandingOf state self.now → MatchResult result
            (λ _. IsVerdict (judgement_in stage kit.now state act.now) None)
            (λ fault. MayFind (judgement_in stage kit.now state act.now) Refusal.OutOfMemory fault) }
        ensures standing { IfOk result (λ taken. (state : GameState) → IsStandingOf state self.now → IsStandingOf (state_in stage kit.now state act.now) taken.standing) }
        ensures entries { IfOk result (λ taken. (state : GameState) → IsStandingOf state self.now → taken.entries ≡ entries_in stage kit.now state act.now) }
    {
        match stage {
            Stage::Auction => self.take_in_auction(alloc, kit, act),
            Stage::Stock => self.take_in_stock_round(alloc, kit, act),
            Stage::Operating => self.take_in_operating_round(alloc, kit, act),
        }
    }

    /// Whose rules are in force.
    #[tactic(auto, unfolding(crate::specs::Judging::stage))]
    pub fn stage(&self) -> Stage
        ensures { (book : Book) → IsPositionOf book self.now.position → result ≡ stage book }
    {
        if !rr_auction::is_over(&self.position) {
            return Stage::Auction;
        }
        if self.position.rounds().is_under_way() {
            return Stage::Stock;
        }
        Stage::Operating
    }
}
