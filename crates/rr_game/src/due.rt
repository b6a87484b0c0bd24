//! What a game waits for.
ghost use Rattle.std.specs.Prelude.{◌≡◌};
ghost use Rattle.rr_books.specs.Book.{Book};
ghost use Rattle.rr_desk.specs.Position.Position.{IsPositionOf};
ghost use Rattle.rr_rules.specs.Judging.{stage};
ghost use Rattle.rr_game.specs.Queries.{due, due_at, due_in_auction, due_in_operating_round, is_par, owes_par};

use crate::game::Game;
use rr_books::{Corp, Seat};
use rr_desk::Position;
use rr_kit::Kit;
use rr_market::operations::{Stage, TurnStep};

/// What a game waits for.
#[derive(Clone, Copy, Debug, PartialEq, Eq)]
pub enum Due {
    /// The seat's turn in the auction: it buys the cheapest private, bids on another, or passes.
    Turn(Seat),
    /// The seat raises its bid on the cheapest private, for which several raise, or leaves.
    Raise(Seat),
    /// The first price of the B&O, from the seat that got its private company.
    Par(Seat),
    /// The seat's turn in a stock round.
    Stock(Seat),
    /// The corporation's turn in an operating round, which has come to this step.
    Operating(Corp, TurnStep),
    /// Nothing: the game is over.
    Over,
}

impl Game {
    /// What the game waits for.
    pub fn due(&self, kit: &Kit) -> Due
        ensures { (book : Book) → IsPositionOf book self.now.standing.position → result ≡ due kit.now book }
    {
        if self.standing.is_over(kit) {
            return Due::Over;
        }
        self.due_at(self.standing.stage(), kit)
    }

    // What it waits for at a stage, while it isn't over.
    fn due_at(&self, stage: Stage, kit: &Kit) -> Due
        ensures { (book : Book) → IsPositionOf book self.now.standing.position → result ≡ due_at stage kit.now.chart book }
    {
        let position = self.standing.position();
        match stage {
            Stage::Auction => due_in_auction(rr_auction::Due::of(position)),
            Stage::Stock => Due::Stock(position.rounds().turn()),
            Stage::Operating => {
                let operations = position.operations();
                due_in_operating_round(operations.due(kit.chart()), operations.step())
            }
        }
    }

    /// Whether the B&O's par is due.
    pub fn owes_par(&self) -> bool
        ensures { (book : Book) → IsPositionOf book self.now.standing.position → result ≡ owes_par book }
    {
        owes_par(self.standing.position())
    }
}

/// Whether the B&O's par is due at this position.
pub(crate) fn owes_par(position: &Position) -> bool
    ensures { (book : Book) → IsPositionOf book position.now → result ≡ owes_par book }
{
    is_par(rr_auction::Due::of(position))
}

fn due_in_auction(due: rr_auction::Due) -> Due
    ensures { result ≡ due_in_auction due }
{
    match due {
        rr_auction::Due::Turn(seat) => Due::Turn(seat),
        rr_auction::Due::Raise(seat) => Due::Raise(seat),
        rr_auction::Due::Par(seat) => Due::Par(seat),
        rr_auction::Due::Stock(seat) => Due::Stock(seat),
    }
}

fn due_in_operating_round(corp: Option<Corp>, step: TurnStep) -> Due
    ensures { result ≡ due_in_operating_round corp step }
{
    match corp {
        Some(corp) => Due::Operating(corp, step),
        None => Due::Over,
    }
}

fn is_par(due: rr_auction::Due) -> bool
    ensures { result ≡ is_par due }
{
    match due {
        rr_auction::Due::Par(_) => true,
        _ => false,
    }
}
