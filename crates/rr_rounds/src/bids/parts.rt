//! The auction as plain values, from which it can be made again.
ghost use Rattle.std.specs.Prelude.{◌≡◌, ◌↔◌, ◌≤◌, All, IsTrue, MatchOption};
ghost use Rattle.rr_rounds.specs.Bids.Parts.{AreInBounds, IsBidding, bidding_of, parts_of, bidding_form};

use crate::bids::bidding::Bidding;
use rr_books::Seat;
use rr_words::spelling::{Cursor, Spell};
use std::alloc::AllocError;

/// The most commands of an auction, whatever its book is.
const MOST_COMMANDS: u32 = 400_000_000;

/// The highest bid, of ten digits, in dollars.
const HIGHEST_BID: u64 = 10_000_000_000;

/// The plain values of how far the auction of a table has come.
#[derive(Clone, Copy, Debug)]
pub struct BiddingParts {
    pub turn: Seat,
    /// How many seats have passed in a row.
    pub passes: u32,
    /// How often the first private's price has fallen.
    pub falls: u32,
    /// What each seat bids on each private, in dollars: 0 without a bid.
    pub bids: [[u64; 6]; 6],
    /// The seat that owes the B&O a par.
    pub par_due: Option<Seat>,
    pub priority: Seat,
    /// How many purchases, bids and passes there were.
    pub commands: u32,
}

/// The same values, one behind the other.
type Row = (
    Seat,
    (u32, (u32, ([[u64; 6]; 6], (Option<Seat>, (Seat, u32))))),
);

impl Spell for BiddingParts {
    ghost form = { bidding_form };

    fn write(&self, out: &mut Vec<u8>) -> Result<(), AllocError> {
        let seats = (self.par_due, (self.priority, self.commands));
        let row: Row = (self.turn, (self.passes, (self.falls, (self.bids, seats))));
        row.write(out)
    }

    fn read(cursor: &mut Cursor) -> Option<BiddingParts> {
        let row = Row::read(cursor)?;
        let (turn, (passes, (falls, (bids, seats)))) = row;
        let (par_due, (priority, commands)) = seats;
        Some(BiddingParts {
            turn,
            passes,
            falls,
            bids,
            par_due,
            priority,
            commands,
        })
    }
}

impl Bidding {
    /// The plain values of the auction.
    pub fn parts(&self) -> BiddingParts
        ensures value { result ≡ parts_of self.now }
        ensures sound { IsBidding result }
    {
        BiddingParts {
            turn: self.turn,
            passes: self.passes,
            falls: self.falls,
            bids: self.bids,
            par_due: self.par_due,
            priority: self.priority,
            commands: self.commands,
        }
    }

    /// The auction of these values, if an auction may have them: at most 400,000,000 commands, no more passes and falls
    /// than commands, and no bid above 10,000,000,000 dollars.
    #[tactic(auto, using(crate::proofs::BidsLemmas::PartLemmas::bidding_within, crate::proofs::BidsLemmas::PartLemmas::bounds_of_bidding))]
    pub fn from_parts(parts: BiddingParts) -> Option<Bidding>
        ensures { MatchOption result (IsBidding parts → ⊥) (λ bidding. IsBidding parts × (bidding ≡ bidding_of parts)) }
    {
        if !are_in_bounds(&parts) {
            return None;
        }
        Some(Bidding {
            turn: parts.turn,
            passes: parts.passes,
            falls: parts.falls,
            bids: parts.bids,
            par_due: parts.par_due,
            priority: parts.priority,
            commands: parts.commands,
        })
    }
}

// Whether each number is within its bounds.
fn are_in_bounds(parts: &BiddingParts) -> bool
    ensures { IsTrue result ↔ AreInBounds parts.now }
{
    parts.passes <= parts.commands
        && parts.falls <= parts.commands
        && parts.commands <= MOST_COMMANDS
        && are_small(&parts.bids)
}

// Whether no bid has more than ten digits.
fn are_small(bids: &[[u64; 6]; 6]) -> bool
    ensures { IsTrue result ↔ All (λ row. All (λ bid. bid ≤ 10000000000) row) bids.now }
{
    bids.iter().all(|row| is_small(row))
}

fn is_small(row: &[u64; 6]) -> bool
    ensures { IsTrue result ↔ All (λ bid. bid ≤ 10000000000) row.now }
{
    row.iter().all(|bid| *bid <= HIGHEST_BID)
}
