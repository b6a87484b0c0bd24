ghost use Rattle.std.specs.Prelude.{◌≡◌, ◌≤◌, ◌*◌, ◌↔◌, true, is_some, IsTrue, None, Some, OnOk, MatchResult};
ghost use Rattle.rr_books.specs.Book.{Book};
ghost use Rattle.rr_books.specs.State.{holder_in};
ghost use Rattle.rr_books.specs.Shares.{share};
ghost use Rattle.rr_market.specs.Marks.{price_at};
ghost use Rattle.rr_market.specs.State.{cell_in};
ghost use Rattle.rr_rounds.specs.Round.{is_first, progress};
ghost use Rattle.rr_desk.specs.Position.Position.{IsPositionOf};
ghost use Rattle.rr_shares.specs.Limits.Holdings.{holdings_of, holdings_in};
ghost use Rattle.rr_shares.specs.Limits.Sales.{is_successor, has_successor, leaves_no_president, sale_verdict, sell_verdict, HasLawfulSale, sells_one, has_lawful_sale, must_sell_first};

use crate::limits::limits::is_over_limit;
use rr_books::{Books, Cert, Corp, Place, Refusal, Seat};
use rr_desk::Position;
use rr_roster::chart::Chart;

/// Whether the seat may sell `count` 10% shares of the corporation, in whatever round.
///
/// # Errors
///
/// `NotForSale` where the corporation has no price, `count` is 0, the seat holds less, or it is the president and is
/// left with less than 20% while no other player holds as much; then `PoolOverHalf` where the pool would hold more
/// than 50%.
pub fn judge_sale(
    position: &Position,
    chart: &Chart,
    seat: Seat,
    corp: Corp,
    count: u64,
) -> Result<(), Refusal>
    ensures shown { MatchResult result
        (λ _. sale_verdict (holdings_in chart.now position.now) seat corp count ≡ None)
        (λ fault. sale_verdict (holdings_in chart.now position.now) seat corp count ≡ Some fault) }
    ensures book { (book : Book) → IsPositionOf book position.now → MatchResult result
        (λ _. sale_verdict (holdings_of chart.now book) seat corp count ≡ None)
        (λ fault. sale_verdict (holdings_of chart.now book) seat corp count ≡ Some fault) }
    ensures priced { OnOk result (is_some (price_at chart.now (cell_in position.now.market corp)) ≡ true) }
    ensures held { OnOk result (10 * count ≤ share (holder_in position.now.books) (Place.Seat seat) corp) }
    ensures bounds { OnOk result ((1 ≤ count) × (count ≤ 5)) }
{
    if position.market().price(chart, corp).is_none() || count == 0 {
        return Err(Refusal::NotForSale);
    }
    let held = position.books().share(Place::Seat(seat), corp);
    if count > u64::from(held / 10) {
        return Err(Refusal::NotForSale);
    }
    let sold = 10 * count as u8;
    if leaves_no_president(position.books(), seat, corp, held - sold) {
        return Err(Refusal::NotForSale);
    }
    if position.books().share(Place::Pool, corp) + sold > 50 {
        return Err(Refusal::PoolOverHalf);
    }
    Ok(())
}

/// Whether the seat may sell `count` 10% shares of the corporation in the stock round under way.
///
/// # Errors
///
/// `FirstStockRound` in the first stock round; then those of `judge_sale`.
pub fn judge_sale_in_round(
    position: &Position,
    chart: &Chart,
    seat: Seat,
    corp: Corp,
    count: u64,
) -> Result<(), Refusal>
    ensures shown { MatchResult result
        (λ _. sell_verdict (holdings_in chart.now position.now) (is_first position.now.rounds) seat corp count ≡ None)
        (λ fault. sell_verdict (holdings_in chart.now position.now) (is_first position.now.rounds) seat corp count ≡ Some fault) }
    ensures book { (book : Book) → IsPositionOf book position.now → MatchResult result
        (λ _. sell_verdict (holdings_of chart.now book) (is_first (progress book)) seat corp count ≡ None)
        (λ fault. sell_verdict (holdings_of chart.now book) (is_first (progress book)) seat corp count ≡ Some fault) }
    ensures priced { OnOk result (is_some (price_at chart.now (cell_in position.now.market corp)) ≡ true) }
    ensures held { OnOk result (10 * count ≤ share (holder_in position.now.books) (Place.Seat seat) corp) }
    ensures bounds { OnOk result ((1 ≤ count) × (count ≤ 5)) }
{
    if position.rounds().is_first() {
        return Err(Refusal::FirstStockRound);
    }
    judge_sale(position, chart, seat, corp, count)?;
    Ok(())
}

/// Whether the seat can lawfully sell shares of some corporation in the stock round under way.
pub fn has_lawful_sale(position: &Position, chart: &Chart, seat: Seat) -> bool
    ensures shown { result ≡ has_lawful_sale (holdings_in chart.now position.now) (is_first position.now.rounds) seat }
    ensures book { (book : Book) → IsPositionOf book position.now → result ≡ has_lawful_sale (holdings_of chart.now book) (is_first (progress book)) seat }
    ensures sale { (book : Book) → IsPositionOf book position.now → IsTrue result ↔ HasLawfulSale (holdings_of chart.now book) (is_first (progress book)) seat }
{
    sells_one_of_any(position, chart, seat)
}

/// Whether the seat holds too much and can lawfully sell shares, so that it may only sell or swap in the stock round
/// under way.
pub fn must_sell_first(position: &Position, chart: &Chart, seat: Seat) -> bool
    ensures shown { result ≡ must_sell_first (holdings_in chart.now position.now) (is_first position.now.rounds) seat }
    ensures book { (book : Book) → IsPositionOf book position.now → result ≡ must_sell_first (holdings_of chart.now book) (is_first (progress book)) seat }
{
    if !is_over_limit(position, chart, seat) {
        return false;
    }
    has_lawful_sale(position, chart, seat)
}

// Whether the seat can lawfully sell one share of some corporation in a stock round.
#[tactic(auto, unfolding(crate::specs::Limits::Sales::has_lawful_sale))]
fn sells_one_of_any(position: &Position, chart: &Chart, seat: Seat) -> bool
    ensures { result ≡ has_lawful_sale (holdings_in chart.now position.now) (is_first position.now.rounds) seat }
{
    Corp::ALL
        .iter()
        .any(|corp| sells_one(position, chart, seat, *corp))
}

// Whether the seat can lawfully sell one share of the corporation in a stock round.
fn sells_one(position: &Position, chart: &Chart, seat: Seat, corp: Corp) -> bool
    ensures { result ≡ sells_one (holdings_in chart.now position.now) (is_first position.now.rounds) seat corp }
{
    judge_sale_in_round(position, chart, seat, corp, 1).is_ok()
}

// Whether the seat is the corporation's president, and with so many percent it is left with less than 20% though no
// other player has as much.
fn leaves_no_president(books: &Books, seat: Seat, corp: Corp, left: u8) -> bool
    ensures { result ≡ leaves_no_president books.now.players (holder_in books.now) seat corp left }
{
    if books.holder(Cert::President(corp)) != Place::Seat(seat) {
        return false;
    }
    if left >= 20 {
        return false;
    }
    !has_successor(books, seat, corp)
}

// Whether another player holds at least 20% of the corporation.
#[tactic(auto, unfolding(crate::specs::Limits::Sales::has_successor))]
fn has_successor(books: &Books, seat: Seat, corp: Corp) -> bool
    ensures { result ≡ has_successor books.now.players (holder_in books.now) seat corp }
{
    (0..books.players()).any(|other| is_successor(books, seat, corp, Seat(other)))
}

// Whether it is another seat and holds at least 20% of the corporation.
fn is_successor(books: &Books, seat: Seat, corp: Corp, other: Seat) -> bool
    ensures { result ≡ is_successor (holder_in books.now) seat corp other }
{
    other != seat && books.share(Place::Seat(other), corp) >= 20
}
