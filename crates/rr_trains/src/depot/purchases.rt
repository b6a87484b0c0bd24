//! What a corporation gets, and what it owes for it.
ghost use Rattle.std.specs.Prelude.{◌≡◌, ◌≤◌};
ghost use Rattle.rr_roster.specs.Terms.{price_of, trade_of};
ghost use Rattle.rr_books.specs.Book.{Book, train_holder};
ghost use Rattle.rr_books.specs.State.{IsStateOf};
ghost use Rattle.rr_trains.specs.Sales.{source_place};
ghost use Rattle.rr_trains.specs.Depot.Effects.{is_first_sold, of_bank, of_corporation};

use crate::is_sold;
use rr_books::{Books, Corp, Kind, Party, Place, Seat, TrainSource};
use rr_roster::Roster;

/// The lowest train of a kind at a place, which a corporation gets for an amount.
#[derive(Clone, Copy, Debug)]
pub(crate) struct Purchase {
    pub corp: Corp,
    pub kind: Kind,
    pub from: Place,
    /// Whether no train of the kind has left the bank before.
    pub is_first: bool,
    pub payee: Party,
    pub amount: u64,
}

/// A train that one corporation buys of another, and the seats that agree on the price as their presidents.
#[derive(Clone, Copy, Debug)]
pub(crate) struct Deal {
    pub corp: Corp,
    pub kind: Kind,
    pub seller: Corp,
    pub price: u64,
    pub president: Seat,
    pub seller_president: Seat,
}

impl Purchase {
    /// A train of the bank or the pool.
    pub(crate) fn of_bank(
        books: &Books,
        corp: Corp,
        kind: Kind,
        source: TrainSource,
        amount: u64,
    ) -> Purchase
        ensures value { (book : Book) → IsStateOf book books.now → result ≡ of_bank (train_holder book) corp kind source amount }
        ensures payee { result.payee ≡ Party.Bank }
        ensures amount { result.amount ≡ amount }
    {
        Purchase {
            corp,
            kind,
            from: source_place(source),
            is_first: is_first_sold(books, kind, source),
            payee: Party::Bank,
            amount,
        }
    }

    /// Another corporation's train.
    pub(crate) fn of_corporation(deal: &Deal) -> Purchase
        ensures { result ≡ of_corporation deal.now }
    {
        Purchase {
            corp: deal.corp,
            kind: deal.kind,
            from: Place::Corp(deal.seller),
            is_first: false,
            payee: Party::Corp(deal.seller),
            amount: deal.price,
        }
    }
}

/// What a train of the kind costs.
pub(crate) fn price(roster: &Roster, kind: Kind) -> u64
    ensures value { result ≡ price_of roster.now kind }
    ensures small { result ≤ 10000000000 }
{
    u64::from(roster.price(kind))
}

/// What a D costs with a train handed in.
pub(crate) fn trade_price(roster: &Roster) -> u64
    ensures value { result ≡ trade_of roster.now }
    ensures small { result ≤ 10000000000 }
{
    u64::from(roster.trade())
}

// Whether a train of the kind bought there is the first that leaves the bank.
fn is_first_sold(books: &Books, kind: Kind, source: TrainSource) -> bool
    ensures { (book : Book) → IsStateOf book books.now → result ≡ is_first_sold (train_holder book) kind source }
{
    match source {
        TrainSource::Bank => !is_sold(books, kind),
        TrainSource::Pool => false,
    }
}

// Where the trains of a source are.
fn source_place(source: TrainSource) -> Place
    ensures { result ≡ source_place source }
{
    match source {
        TrainSource::Bank => Place::Offer,
        TrainSource::Pool => Place::Pool,
    }
}
