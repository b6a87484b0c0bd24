ghost use Rattle.std.specs.Prelude.{◌≡◌, ◌==◌, ◌&&◌, nat_lt};
ghost use Rattle.rr_rounds.specs.Bids.Bids.{bid_in, first_before, first_behind, has_bid, highest, leader, next_bidder, raiser, sole_bidder};

use rr_books::Seat;

// The seats that a table may have.
const SEATS: [Seat; 6] = [Seat(0), Seat(1), Seat(2), Seat(3), Seat(4), Seat(5)];

/// The seat's bid in a row of bids on one private, 0 without one.
pub(crate) fn bid_in(row: &[u64; 6], seat: Seat) -> u64
    ensures { result ≡ bid_in row.now seat }
{
    match row.get(seat.0 as usize) {
        Some(bid) => *bid,
        None => 0,
    }
}

/// The highest bid of the row.
#[tactic(auto, unfolding(crate::specs::Bids::Bids::highest))]
pub(crate) fn highest(row: &[u64; 6]) -> u64
    ensures { result ≡ highest row.now }
{
    row.iter()
        .copied()
        .fold(0, |greatest, bid| greatest.max(bid))
}

/// The seat with the highest bid.
#[tactic(auto, unfolding(crate::specs::Bids::Bids::leader))]
pub(crate) fn leader(row: &[u64; 6]) -> Option<Seat>
    ensures { result ≡ leader row.now }
{
    let greatest = highest(row);
    SEATS
        .iter()
        .copied()
        .find(|seat| bids_just(row, *seat, greatest))
}

/// The seat that is to raise or leave: the nearest bidder on the left of the one with the highest bid.
pub(crate) fn raiser(row: &[u64; 6]) -> Option<Seat>
    ensures { result ≡ raiser row.now }
{
    match leader(row) {
        Some(seat) => next_bidder(row, seat),
        None => None,
    }
}

/// The bidder, where there is just one.
pub(crate) fn sole_bidder(row: &[u64; 6]) -> Option<Seat>
    ensures { result ≡ sole_bidder row.now }
{
    match raiser(row) {
        Some(_) => None,
        None => leader(row),
    }
}

// The nearest bidder on the seat's left.
fn next_bidder(row: &[u64; 6], seat: Seat) -> Option<Seat>
    ensures { result ≡ next_bidder row.now seat }
{
    match first_behind(row, seat) {
        Some(other) => Some(other),
        None => first_before(row, seat),
    }
}

// The first bidder behind the seat.
#[tactic(auto, unfolding(crate::specs::Bids::Bids::first_behind))]
fn first_behind(row: &[u64; 6], seat: Seat) -> Option<Seat>
    ensures { result ≡ first_behind row.now seat }
{
    SEATS
        .iter()
        .copied()
        .find(|other| bids_behind(row, seat, *other))
}

// The first bidder before the seat.
#[tactic(auto, unfolding(crate::specs::Bids::Bids::first_before))]
fn first_before(row: &[u64; 6], seat: Seat) -> Option<Seat>
    ensures { result ≡ first_before row.now seat }
{
    SEATS
        .iter()
        .copied()
        .find(|other| bids_before(row, seat, *other))
}

// Whether the seat has a bid.
fn has_bid(row: &[u64; 6], seat: Seat) -> bool
    ensures { result ≡ has_bid row.now seat }
{
    0 < bid_in(row, seat)
}

// Whether the seat has a bid, of just this amount.
fn bids_just(row: &[u64; 6], seat: Seat, amount: u64) -> bool
    ensures { result ≡ (has_bid row.now seat && (bid_in row.now seat == amount)) }
{
    has_bid(row, seat) && bid_in(row, seat) == amount
}

// Whether the other seat is behind this one and has a bid.
fn bids_behind(row: &[u64; 6], seat: Seat, other: Seat) -> bool
    ensures { result ≡ (nat_lt seat.0 other.0 && has_bid row.now other) }
{
    seat.0 < other.0 && has_bid(row, other)
}

// Whether the other seat is before this one and has a bid.
fn bids_before(row: &[u64; 6], seat: Seat, other: Seat) -> bool
    ensures { result ≡ (nat_lt other.0 seat.0 && has_bid row.now other) }
{
    other.0 < seat.0 && has_bid(row, other)
}
