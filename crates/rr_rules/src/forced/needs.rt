//! What a corporation that must own a train needs for it.
ghost use Rattle.std.specs.Prelude.{◌≡◌, ◌≤◌, ◌<◌, ◌≤ℤ◌, ◌+ℤ◌, neg_ℤ, pos, true, Some, IfOk, IfSome, OnErr};
ghost use Rattle.rr_roster.specs.Terms.{price_of};
ghost use Rattle.rr_books.specs.Book.{Book};
ghost use Rattle.rr_books.specs.State.{IsStateOf, train_place_of};
ghost use Rattle.rr_desk.specs.Position.Position.{IsPositionOf};
ghost use Rattle.rr_market.specs.Operations.Due.{due};
ghost use Rattle.rr_trains.specs.Depot.Effects.{is_first_sold};
ghost use Rattle.rr_trains.specs.Depot.Situation.{situation_in, situation_of};
ghost use Rattle.rr_rules.specs.Forced.Rules.{could_owe};
ghost use Rattle.rr_rules.specs.Forced.Needs.{IsNeed, IsNeedOf, cheapest_need, joint_cash, leader, missing, need_for};

use rr_books::{Books, Corp, Kind, Money, Party, Seat, TrainSource};
use rr_desk::Position;
use rr_kit::Kit;
use rr_operate::owes_train;
use rr_roster::Roster;
use rr_trains::{TrainOnSale, cheapest, is_sold};
use std::alloc::{AllocError, Global};

/// What a corporation that must own a train needs for the cheapest on sale. Amounts are whole dollars.
#[derive(Clone, Copy, Debug, PartialEq, Eq)]
pub struct Need {
    pub corp: Corp,
    /// The seat at the table that has the corporation's 20% certificate.
    pub president: Option<Seat>,
    /// The cheapest train on sale; of equal prices the bank's, and then the smaller kind.
    pub train: TrainOnSale,
    /// Whether no train of the kind has left the bank before.
    pub is_first: bool,
    /// What the train costs, a D at its full price: 10 to 5,000.
    pub price: u64,
    /// What the corporation's cash is below the price; 0 where it can pay alone.
    pub lack: u64,
    /// What the corporation's and its president's cash together are below the price; 0 where they can pay.
    pub shortfall: u64,
}

/// What the corporation due needs, if it must own a train: it has none, one is on sale at the bank or in the pool,
/// whatever it costs, and it has a route. None too where no corporation is due.
///
/// # Errors
///
/// Want of memory alone, and only where the corporation due has no train and one is on sale.
pub fn needed_train(
    alloc: Global,
    kit: &Kit,
    position: &Position,
) -> Result<Option<Need>, AllocError>
    ensures need { (book : Book) → IsPositionOf book position.now → IfOk result (λ need. IsNeed kit.now book need) }
    ensures memory { (book : Book) → IsPositionOf book position.now → OnErr result (could_owe book (due kit.now.chart book) ≡ true) }
    ensures seated { IfOk result (λ need. IfSome need (λ need. IfSome need.president (λ seat. seat.0 < 6))) }
{
    need_of(alloc, kit, position, due(kit, position))
}

/// The corporation due.
pub(crate) fn due(kit: &Kit, position: &Position) -> Option<Corp>
    ensures { (book : Book) → IsPositionOf book position.now → result ≡ due kit.now.chart book }
{
    position.operations().due(kit.chart())
}

/// What a corporation needs, if it must own a train.
pub(crate) fn need_of(
    alloc: Global,
    kit: &Kit,
    position: &Position,
    corp: Option<Corp>,
) -> Result<Option<Need>, AllocError>
    ensures need { (book : Book) → IsPositionOf book position.now → IfOk result (λ need. IsNeedOf kit.now book corp need) }
    ensures memory { (book : Book) → IsPositionOf book position.now → OnErr result (could_owe book corp ≡ true) }
    ensures seated { IfOk result (λ need. IfSome need (λ need. IfSome need.president (λ seat. seat.0 < 6))) }
{
    let Some(corp) = corp else {
        return Ok(None);
    };
    if !owes_train(alloc, kit, position, corp)? {
        return Ok(None);
    }
    Ok(cheapest_need(kit.roster(), position.books(), corp))
}

/// What the corporation needs for the cheapest train on sale.
pub(crate) fn cheapest_need(roster: &Roster, books: &Books, corp: Corp) -> Option<Need>
    ensures shown { result ≡ cheapest_need roster.now (situation_in books.now) corp }
    ensures small { IfSome result (λ need. need.price ≤ 10000000000) }
    ensures lack { IfSome result (λ need. need.lack ≤ 10000000000) }
    ensures seated { IfSome result (λ need. IfSome need.president (λ seat. seat.0 < 6)) }
{
    let train = cheapest(books, roster)?;
    Some(need_for(roster, books, corp, train))
}

// What the corporation needs for this train.
fn need_for(roster: &Roster, books: &Books, corp: Corp, train: TrainOnSale) -> Need
    ensures shown { result ≡ need_for roster.now (situation_in books.now) corp train }
    ensures small { result.price ≤ 10000000000 }
    ensures lack { result.lack ≤ 10000000000 }
    ensures seated { IfSome result.president (λ seat. seat.0 < 6) }
{
    let price = price(roster, train.kind);
    Need {
        corp,
        president: leader(books, corp),
        train,
        is_first: is_first_sold(books, train),
        price,
        lack: missing(price, books.balance(Party::Corp(corp))),
        shortfall: missing(price, joint_cash(books, corp)),
    }
}

fn price(roster: &Roster, kind: Kind) -> u64
    ensures value { result ≡ price_of roster.now kind }
    ensures small { result ≤ 10000000000 }
{
    u64::from(roster.price(kind))
}

// What a price is above the money that is there.
fn missing(price: u64, money: Money) -> u64
    ensures value { result ≡ missing price money.0 }
    ensures small { result ≤ price }
{
    match u64::try_from(money.0) {
        Ok(money) => price.saturating_sub(money),
        Err(_) => price,
    }
}

// What the corporation and its president have together.
fn joint_cash(books: &Books, corp: Corp) -> Money
    ensures { result.0 ≡ joint_cash (situation_in books.now) corp }
{
    let cash = books.balance(Party::Corp(corp));
    match leader(books, corp) {
        Some(seat) => Money(cash.0 + books.balance(Party::Seat(seat)).0),
        None => cash,
    }
}

// The corporation's president, if it is one of the table.
fn leader(books: &Books, corp: Corp) -> Option<Seat>
    ensures shown { result ≡ leader (situation_in books.now) corp }
    ensures few { IfSome result (λ seat. seat.0 < 6) }
{
    let seat = books.president(corp)?;
    if seat.0 < books.players() {
        return Some(seat);
    }
    None
}

// Whether no train of the kind has left the bank before this one.
fn is_first_sold(books: &Books, train: TrainOnSale) -> bool
    ensures { result ≡ is_first_sold (train_place_of books.now) train.kind train.source }
{
    match train.source {
        TrainSource::Bank => !is_sold(books, train.kind),
        TrainSource::Pool => false,
    }
}
