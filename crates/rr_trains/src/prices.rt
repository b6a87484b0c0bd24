ghost use Rattle.std.specs.Prelude.{◌≡◌, ◌≤◌, ◌≤ℤ◌, pos};
ghost use Rattle.rr_roster.specs.Terms.{price_of, trade_of};
ghost use Rattle.rr_books.specs.Book.{Book, train_holder};
ghost use Rattle.rr_books.specs.State.{IsStateOf, train_place_of};
ghost use Rattle.rr_trains.specs.Sales.{IsCheapest, better, cheapest, comes_before, first_of_two, is_traded_in, source_rank};

use crate::sales::is_on_sale;
use rr_books::{Books, Kind, Money, TrainSource};
use rr_roster::Roster;

/// A train that is on sale, by its kind and where it is bought.
#[derive(Clone, Copy, Debug, PartialEq, Eq)]
pub struct TrainOnSale {
    pub kind: Kind,
    pub source: TrainSource,
}

const EVERY_OFFER: [TrainOnSale; 12] = [
    TrainOnSale {
        kind: Kind::Two,
        source: TrainSource::Bank,
    },
    TrainOnSale {
        kind: Kind::Three,
        source: TrainSource::Bank,
    },
    TrainOnSale {
        kind: Kind::Four,
        source: TrainSource::Bank,
    },
    TrainOnSale {
        kind: Kind::Five,
        source: TrainSource::Bank,
    },
    TrainOnSale {
        kind: Kind::Six,
        source: TrainSource::Bank,
    },
    TrainOnSale {
        kind: Kind::Diesel,
        source: TrainSource::Bank,
    },
    TrainOnSale {
        kind: Kind::Two,
        source: TrainSource::Pool,
    },
    TrainOnSale {
        kind: Kind::Three,
        source: TrainSource::Pool,
    },
    TrainOnSale {
        kind: Kind::Four,
        source: TrainSource::Pool,
    },
    TrainOnSale {
        kind: Kind::Five,
        source: TrainSource::Pool,
    },
    TrainOnSale {
        kind: Kind::Six,
        source: TrainSource::Pool,
    },
    TrainOnSale {
        kind: Kind::Diesel,
        source: TrainSource::Pool,
    },
];

/// What a train of the kind costs, in the bank and in the pool.
pub fn price(roster: &Roster, kind: Kind) -> Money
    ensures value { result.0 ≡ pos (price_of roster.now kind) }
    ensures least { pos 10 ≤ℤ result.0 }
    ensures greatest { result.0 ≤ℤ pos 5000 }
{
    Money(i64::from(roster.price(kind)))
}

/// What a D costs for which a 4, 5 or 6 is handed in.
pub fn trade_price(roster: &Roster) -> Money
    ensures value { result.0 ≡ pos (trade_of roster.now) }
    ensures least { pos 1 ≤ℤ result.0 }
    ensures greatest { result.0 ≤ℤ pos (price_of roster.now Kind.Diesel) }
{
    Money(i64::from(roster.trade()))
}

/// Whether a train of the kind may be handed in for a D.
pub fn is_traded_in(kind: Kind) -> bool
    ensures { result ≡ is_traded_in kind }
{
    matches!(kind, Kind::Four | Kind::Five | Kind::Six)
}

/// The cheapest train on sale: of equal prices the bank's before the pool's, and then the smaller kind. A D counts with
/// its full price. None where no train is on sale.
pub fn cheapest(books: &Books, roster: &Roster) -> Option<TrainOnSale>
    ensures shown { result ≡ cheapest (train_place_of books.now) roster.now }
    ensures book { (book : Book) → IsStateOf book books.now → result ≡ cheapest (train_holder book) roster.now }
    ensures first { (book : Book) → IsStateOf book books.now → IsCheapest (train_holder book) roster.now result }
{
    cheapest_shown(books, roster)
}

#[tactic(auto, unfolding(crate::specs::Sales::cheapest))]
fn cheapest_shown(books: &Books, roster: &Roster) -> Option<TrainOnSale>
    ensures { result ≡ cheapest (train_place_of books.now) roster.now }
{
    let mut best = None;
    for offer in EVERY_OFFER {
        best = better(books, roster, best, offer);
    }
    best
}

fn better(
    books: &Books,
    roster: &Roster,
    best: Option<TrainOnSale>,
    offer: TrainOnSale,
) -> Option<TrainOnSale>
    ensures { result ≡ better (train_place_of books.now) roster.now best offer }
{
    if is_on_sale(books, offer.kind, offer.source) {
        return first_of_two(roster, best, offer);
    }
    best
}

fn first_of_two(
    roster: &Roster,
    best: Option<TrainOnSale>,
    offer: TrainOnSale,
) -> Option<TrainOnSale>
    ensures { result ≡ first_of_two roster.now best offer }
{
    match best {
        Some(found) => {
            if comes_before(roster, offer, found) {
                return Some(offer);
            }
            best
        }
        None => Some(offer),
    }
}

fn comes_before(roster: &Roster, one: TrainOnSale, other: TrainOnSale) -> bool
    ensures { result ≡ comes_before roster.now one other }
{
    let price = roster.price(one.kind);
    let other_price = roster.price(other.kind);
    if price != other_price {
        return price < other_price;
    }
    let rank = source_rank(one.source);
    let other_rank = source_rank(other.source);
    if rank != other_rank {
        return rank < other_rank;
    }
    one.kind.index() < other.kind.index()
}

fn source_rank(source: TrainSource) -> u8
    ensures { result ≡ source_rank source }
{
    match source {
        TrainSource::Bank => 0,
        TrainSource::Pool => 1,
    }
}
