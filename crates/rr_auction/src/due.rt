ghost use Rattle.std.specs.Prelude.{◌≡◌, ◌+◌, None, Some, ◌&&◌, is_some, not};
ghost use Rattle.rr_books.specs.Book.{Book, holder, players};
ghost use Rattle.rr_books.specs.State.{holder_in};
ghost use Rattle.rr_rounds.specs.Bids.Bids.{bids_on, raiser};
ghost use Rattle.rr_rounds.specs.Bids.Progress.{all_pass, progress, raise_due};
ghost use Rattle.rr_rounds.specs.Bids.Unsold.{cheapest, is_private};
ghost use Rattle.rr_desk.specs.Position.Position.{IsPositionOf};
ghost use Rattle.rr_auction.specs.Effects.{brings_incomes, is_over};
ghost use Rattle.rr_auction.specs.Rules.{due, due_by, due_in, turns, turns_in};

use rr_books::{Books, Private, Seat};
use rr_desk::Position;
use rr_rounds::bids::{Bidding, cheapest, is_cheapest};

/// What the auction waits for.
#[derive(Clone, Copy, Debug, PartialEq, Eq)]
pub enum Due {
    /// The seat's turn: it buys the cheapest private, bids on another, or passes.
    Turn(Seat),
    /// The seat raises its bid on the cheapest private, for which several raise, or leaves.
    Raise(Seat),
    /// The first price of the B&O, from the seat that got its private company.
    Par(Seat),
    /// The auction is over: the seat with priority begins the first stock round.
    Stock(Seat),
}

impl Due {
    /// What the auction waits for, at a table of this position.
    pub fn of(position: &Position) -> Due
        ensures shown { result ≡ due_in (holder_in position.now.books) position.now.bidding }
        ensures book { (book : Book) → IsPositionOf book position.now → result ≡ due book }
    {
        due_by(position.books(), position.bidding())
    }
}

/// How many turns have ended. Each purchase, bid and pass ends one; where it brings the B&O's par, the par ends it.
pub fn turns(position: &Position) -> u32
    ensures shown { result ≡ turns_in position.now.bidding }
    ensures book { (book : Book) → IsPositionOf book position.now → result ≡ turns book }
{
    turns_by(position.bidding())
}

/// Whether the auction is over.
pub fn is_over(position: &Position) -> bool
    ensures { (book : Book) → IsPositionOf book position.now → result ≡ is_over (due book) }
{
    is_stock(Due::of(position))
}

/// Whether a pass brings the incomes.
pub(crate) fn brings_incomes(position: &Position) -> bool
    ensures { (book : Book) → IsPositionOf book position.now → result ≡ brings_incomes (players book) (holder book) (progress book) }
{
    brings_by(position.books(), position.bidding())
}

// Whether the auction waits for the first stock round.
fn is_stock(due: Due) -> bool
    ensures { result ≡ is_over due }
{
    match due {
        Due::Stock(_) => true,
        _ => false,
    }
}

// What the auction waits for, by the books and the bids.
fn due_by(books: &Books, bidding: &Bidding) -> Due
    ensures { result ≡ due_in (holder_in books.now) bidding.now }
{
    if let Some(seat) = bidding.par_due() {
        return Due::Par(seat);
    }
    match cheapest(books) {
        Some(private) => due_for(private, bidding),
        None => Due::Stock(bidding.priority()),
    }
}

// What the auction waits for while this private is the cheapest and no par is due.
fn due_for(private: Private, bidding: &Bidding) -> Due
    ensures { result ≡ due_by None (Some private) (raiser (bids_on bidding.now.bids private)) bidding.now }
{
    match bidding.raiser(private) {
        Some(seat) => Due::Raise(seat),
        None => Due::Turn(bidding.turn()),
    }
}

// How many turns have ended, by the bids.
fn turns_by(bidding: &Bidding) -> u32
    ensures { result ≡ turns_in bidding.now }
{
    match bidding.par_due() {
        Some(_) => bidding.commands().saturating_sub(1),
        None => bidding.commands(),
    }
}

// Whether a pass brings the incomes, by the books and the bids.
fn brings_by(books: &Books, bidding: &Bidding) -> bool
    ensures { result ≡ brings_incomes books.now.players (holder_in books.now) bidding.now }
{
    match bidding.raise_due(books) {
        Some(_) => false,
        None => bidding.all_pass(books.players()) && !is_cheapest(Private::Sv, books),
    }
}
