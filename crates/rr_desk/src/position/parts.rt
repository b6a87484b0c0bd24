//! A position as plain values, from which it can be made again.
ghost use Rattle.std.specs.Prelude.{◌≡◌, ◌↔◌, IsTrue, MatchOption};
ghost use Rattle.rr_market.specs.Operations.Parts.{AreOperations};
ghost use Rattle.rr_market.specs.Parts.{AreMarket};
ghost use Rattle.rr_rounds.specs.Parts.{AreRounds};
ghost use Rattle.rr_desk.specs.Position.Parts.{AreCounted, IsPosition, parts_of, position_form, position_of};

use crate::layout::Layout;
use crate::position::position::{MOST_ENTRIES, Position};
use rr_books::{Books, BooksParts};
use rr_market::operations::{Operations, OperationsParts};
use rr_market::{Market, MarketParts};
use rr_rounds::bids::{Bidding, BiddingParts};
use rr_rounds::{Rounds, RoundsParts};
use rr_words::spelling::{Cursor, Spell};
use std::alloc::AllocError;

/// The plain values of all that runs along with a table's book.
#[derive(Clone, Copy, Debug)]
pub struct PositionParts {
    pub books: BooksParts,
    pub bidding: BiddingParts,
    pub market: MarketParts,
    pub rounds: RoundsParts,
    pub operations: OperationsParts,
    pub layout: Layout,
    /// How many entries were followed, of those of the opening the payments alone.
    pub entries: u32,
}

/// The same values, one behind the other.
type Row = (
    BooksParts,
    (
        BiddingParts,
        (MarketParts, (RoundsParts, (OperationsParts, (Layout, u32)))),
    ),
);

impl Spell for PositionParts {
    ghost form = { position_form };

    fn write(&self, out: &mut Vec<u8>) -> Result<(), AllocError> {
        self.books.write(out)?;
        self.bidding.write(out)?;
        self.market.write(out)?;
        self.rounds.write(out)?;
        self.operations.write(out)?;
        self.layout.write(out)?;
        self.entries.write(out)?;
        Ok(())
    }

    fn read(cursor: &mut Cursor) -> Option<PositionParts> {
        let row = Row::read(cursor)?;
        let (books, (bidding, (market, views))) = row;
        let (rounds, (operations, (layout, entries))) = views;
        Some(PositionParts {
            books,
            bidding,
            market,
            rounds,
            operations,
            layout,
            entries,
        })
    }
}

impl PositionParts {
    /// Whether a position may have these values: each view may have its own, none of them counts more payments,
    /// commands, turns, rounds or sets than there are entries, and there are at most `MOST_ENTRIES`.
    pub fn are_sound(&self) -> bool
        ensures { IsTrue result ↔ IsPosition self.now }
    {
        are_counted(self)
            && Books::from_parts(self.books).is_some()
            && Bidding::from_parts(self.bidding).is_some()
            && have_sound_rounds(self)
    }
}

impl Position {
    /// The plain values of the position.
    pub fn parts(&self) -> PositionParts
        ensures value { result ≡ parts_of self.now }
        ensures sound { IsPosition result }
    {
        PositionParts {
            books: self.books.parts(),
            bidding: self.bidding.parts(),
            market: self.market.parts(),
            rounds: self.rounds.parts(),
            operations: self.operations.parts(),
            layout: self.layout,
            entries: self.entries,
        }
    }

    /// The position of these values, if a position may have them: each view may have its own, none of them counts more
    /// payments, commands, turns, rounds or sets than there are entries, and there are at most `MOST_ENTRIES`.
    pub fn from_parts(parts: PositionParts) -> Option<Position>
        ensures { MatchOption result (IsPosition parts → ⊥) (λ position. IsPosition parts × (position ≡ position_of parts)) }
    {
        if !are_counted(&parts) {
            return None;
        }
        let books = Books::from_parts(parts.books)?;
        let bidding = Bidding::from_parts(parts.bidding)?;
        let market = Market::from_parts(parts.market)?;
        let rounds = Rounds::from_parts(parts.rounds)?;
        let operations = Operations::from_parts(parts.operations)?;
        Some(Position {
            books,
            bidding,
            market,
            rounds,
            operations,
            layout: parts.layout,
            entries: parts.entries,
        })
    }
}

// Whether the market and the rounds of both kinds may have their values.
fn have_sound_rounds(parts: &PositionParts) -> bool
    ensures { IsTrue result ↔ (AreMarket parts.now.market × AreRounds parts.now.rounds × AreOperations parts.now.operations) }
{
    Market::from_parts(parts.market).is_some()
        && Rounds::from_parts(parts.rounds).is_some()
        && Operations::from_parts(parts.operations).is_some()
}

// Whether the views count no more than there are entries, and those are few enough.
fn are_counted(parts: &PositionParts) -> bool
    ensures { IsTrue result ↔ AreCounted parts.now }
{
    let entries = u64::from(parts.entries);
    parts.books.payments <= parts.entries
        && parts.bidding.commands <= parts.entries
        && parts.rounds.turns <= entries
        && parts.rounds.begun <= entries
        && parts.operations.sets <= entries
        && parts.operations.round <= entries
        && parts.entries <= MOST_ENTRIES
}
