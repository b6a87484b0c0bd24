ghost use Rattle.std.specs.Prelude.{◌≡◌, ◌<◌, ◌≤◌, ◌&&◌, int_lt, is_some, pos, None, Some, OnOk, IfSome, OnSome, MatchResult};
ghost use Rattle.rr_books.specs.Book.{Book};
ghost use Rattle.rr_books.specs.State.{cash_of, holder_in};
ghost use Rattle.rr_market.specs.Marks.{price_at, zone_at};
ghost use Rattle.rr_market.specs.Moves.{is_par};
ghost use Rattle.rr_market.specs.State.{cell_in, first_in};
ghost use Rattle.rr_desk.specs.Position.Position.{IsPositionOf};
ghost use Rattle.rr_rounds.specs.Round.{may_buy_again};
ghost use Rattle.rr_stock.specs.Rules.{done_verdict, has_share, is_brown, is_purchase, must_sell, par_verdict, purchase_verdict, sale_verdict, swap_verdict, turn_verdict, verdict, verdict_in};
ghost use Rattle.rr_stock.specs.Situation.{situation_in};
ghost use Rattle.rr_stock.specs.Small.{HasSeat, HasSmallNumbers};

use crate::reading::{place_of_source, share_price};
use rr_books::{Act, Books, Cert, Corp, Party, Place, Private, Refusal, Seat, ShareSource};
use rr_desk::{Position, lowest_share};
use rr_market::{Market, par_cell};
use rr_roster::chart::{Chart, Zone};
use rr_rounds::{Purchases, Rounds};
use rr_shares::limits::{
    judge_sale_in_round, must_sell_first, would_be_over_certificates, would_be_over_sixty,
};

/// Whether a stock round takes the command now.
///
/// # Errors
///
/// The first of these that applies. `WrongStep` where no stock round is under way or the command is none of `par`,
/// `buy` of a share, `sell`, `swap` and `done`; `NotYourTurn` where another seat is in turn. Then for each command in
/// this order:
///
/// - `par`: `MustSellFirst`; `NotForSale` where the 20% certificate isn't on offer; `NotAPar` where the chart has no
///   par cell of the price; `SecondPurchase` where something was bought in this turn; `CertificateLimit`; `OverSixty`;
///   `TooLittleCash` where the seat has less than twice the par.
/// - `buy`: `MustSellFirst`; `NotForSale` where no 10% certificate is there or the corporation has no par;
///   `SecondPurchase`; `SoldThisRound`; `CertificateLimit`; `OverSixty`; `TooLittleCash` where the seat has less than
///   the par, or for a share from the pool the market price.
/// - `sell`: `FirstStockRound`, `NotForSale`, `PoolOverHalf`.
/// - `swap`: `NotForSale` where the seat doesn't hold the M&H or no 10% certificate of the NYC is there; `OverSixty`.
/// - `done`: `MustSellFirst`.
pub fn judge(chart: &Chart, position: &Position, act: &Act) -> Result<(), Refusal>
    ensures shown { MatchResult result
        (λ _. verdict_in chart.now (situation_in chart.now position.now) act.now ≡ None)
        (λ fault. verdict_in chart.now (situation_in chart.now position.now) act.now ≡ Some fault) }
    ensures verdict { (book : Book) → IsPositionOf book position.now → MatchResult result
        (λ _. verdict chart.now book act.now ≡ None)
        (λ fault. verdict chart.now book act.now ≡ Some fault) }
    ensures seated { (book : Book) → IsPositionOf book position.now → OnOk result (HasSeat act.now) }
    ensures small { OnOk result (HasSmallNumbers act.now) }
{
    judge_act(position, chart, act)
}

// Whether a stock round takes the command, by what runs along with the book.
fn judge_act(position: &Position, chart: &Chart, act: &Act) -> Result<(), Refusal>
    ensures verdict { MatchResult result
        (λ _. verdict_in chart.now (situation_in chart.now position.now) act.now ≡ None)
        (λ fault. verdict_in chart.now (situation_in chart.now position.now) act.now ≡ Some fault) }
    ensures seated { (book : Book) → IsPositionOf book position.now → OnOk result (HasSeat act.now) }
    ensures small { OnOk result (HasSmallNumbers act.now) }
{
    match act {
        Act::Par { seat, corp, price } => judge_par(position, chart, *seat, *corp, *price),
        Act::BuyShare { seat, corp, source } => {
            judge_purchase(position, chart, *seat, *corp, *source)
        }
        Act::Sell { seat, corp, count } => judge_sale(position, chart, *seat, *corp, *count),
        Act::Swap { seat, source } => judge_swap(position, chart, *seat, *source),
        Act::Done { seat } => judge_done(position, chart, *seat),
        _ => Err(Refusal::WrongStep),
    }
}

// Whether the seat may set the par now.
fn judge_par(
    position: &Position,
    chart: &Chart,
    seat: Seat,
    corp: Corp,
    price: u64,
) -> Result<(), Refusal>
    ensures verdict { MatchResult result
        (λ _. verdict_in chart.now (situation_in chart.now position.now) (Act.Par seat corp price) ≡ None)
        (λ fault. verdict_in chart.now (situation_in chart.now position.now) (Act.Par seat corp price) ≡ Some fault) }
    ensures seated { (book : Book) → IsPositionOf book position.now → OnOk result (seat.0 < 6) }
    ensures small { OnOk result (price ≤ 999) }
{
    judge_turn(position, seat)?;
    judge_par_rules(position, chart, seat, corp, price)?;
    Ok(())
}

// Whether the seat may buy a 10% certificate of the corporation now.
fn judge_purchase(
    position: &Position,
    chart: &Chart,
    seat: Seat,
    corp: Corp,
    source: ShareSource,
) -> Result<(), Refusal>
    ensures verdict { MatchResult result
        (λ _. verdict_in chart.now (situation_in chart.now position.now) (Act.BuyShare seat corp source) ≡ None)
        (λ fault. verdict_in chart.now (situation_in chart.now position.now) (Act.BuyShare seat corp source) ≡ Some fault) }
    ensures seated { (book : Book) → IsPositionOf book position.now → OnOk result (seat.0 < 6) }
{
    judge_turn(position, seat)?;
    judge_purchase_rules(position, chart, seat, corp, source)?;
    Ok(())
}

// Whether the seat may sell so many 10% shares of the corporation now.
fn judge_sale(
    position: &Position,
    chart: &Chart,
    seat: Seat,
    corp: Corp,
    count: u64,
) -> Result<(), Refusal>
    ensures verdict { MatchResult result
        (λ _. verdict_in chart.now (situation_in chart.now position.now) (Act.Sell seat corp count) ≡ None)
        (λ fault. verdict_in chart.now (situation_in chart.now position.now) (Act.Sell seat corp count) ≡ Some fault) }
    ensures seated { (book : Book) → IsPositionOf book position.now → OnOk result (seat.0 < 6) }
    ensures small { OnOk result (count ≤ 10) }
{
    judge_turn(position, seat)?;
    judge_sale_rules(position, chart, seat, corp, count)?;
    Ok(())
}

// Whether the seat may change the M&H for a 10% certificate of the NYC now.
fn judge_swap(
    position: &Position,
    chart: &Chart,
    seat: Seat,
    source: ShareSource,
) -> Result<(), Refusal>
    ensures verdict { MatchResult result
        (λ _. verdict_in chart.now (situation_in chart.now position.now) (Act.Swap seat source) ≡ None)
        (λ fault. verdict_in chart.now (situation_in chart.now position.now) (Act.Swap seat source) ≡ Some fault) }
    ensures seated { (book : Book) → IsPositionOf book position.now → OnOk result (seat.0 < 6) }
{
    judge_turn(position, seat)?;
    judge_swap_rules(position, chart, seat, source)?;
    Ok(())
}

// Whether the seat may end its turn now.
fn judge_done(position: &Position, chart: &Chart, seat: Seat) -> Result<(), Refusal>
    ensures verdict { MatchResult result
        (λ _. verdict_in chart.now (situation_in chart.now position.now) (Act.Done seat) ≡ None)
        (λ fault. verdict_in chart.now (situation_in chart.now position.now) (Act.Done seat) ≡ Some fault) }
    ensures seated { (book : Book) → IsPositionOf book position.now → OnOk result (seat.0 < 6) }
{
    judge_turn(position, seat)?;
    judge_done_rules(position, chart, seat)?;
    Ok(())
}

// Whether the seat may act in a stock round now.
#[tactic(auto, unfolding(crate::specs::Rules::turn_verdict))]
fn judge_turn(position: &Position, seat: Seat) -> Result<(), Refusal>
    ensures verdict { MatchResult result
        (λ _. turn_verdict position.now.rounds seat ≡ None)
        (λ fault. turn_verdict position.now.rounds seat ≡ Some fault) }
    ensures seated { (book : Book) → IsPositionOf book position.now → OnOk result (seat.0 < 6) }
{
    let rounds = position.rounds();
    // There are at most six players, so the seat in turn is one of six.
    let _players = position.books().players();
    if !rounds.is_under_way() {
        return Err(Refusal::WrongStep);
    }
    if seat != rounds.turn() {
        return Err(Refusal::NotYourTurn);
    }
    Ok(())
}

// Whether the seat may set the par, in its turn.
#[tactic(auto, unfolding(crate::specs::Rules::par_verdict))]
fn judge_par_rules(
    position: &Position,
    chart: &Chart,
    seat: Seat,
    corp: Corp,
    price: u64,
) -> Result<(), Refusal>
    ensures verdict { MatchResult result
        (λ _. par_verdict chart.now (situation_in chart.now position.now) seat corp price ≡ None)
        (λ fault. par_verdict chart.now (situation_in chart.now position.now) seat corp price ≡ Some fault) }
    ensures small { OnOk result (price ≤ 999) }
{
    if must_sell(position, chart, seat) {
        return Err(Refusal::MustSellFirst);
    }
    if position.books().holder(Cert::President(corp)) != Place::Offer {
        return Err(Refusal::NotForSale);
    }
    let Some(par) = par_on_chart(chart, price) else {
        return Err(Refusal::NotAPar);
    };
    if has_bought(position.rounds()) {
        return Err(Refusal::SecondPurchase);
    }
    if would_be_over_certificates(position, chart, seat, corp) {
        return Err(Refusal::CertificateLimit);
    }
    if would_be_over_sixty(position, chart, seat, corp, 20) {
        return Err(Refusal::OverSixty);
    }
    if is_short(position.books(), seat, 2 * u32::from(par)) {
        return Err(Refusal::TooLittleCash);
    }
    Ok(())
}

// Whether the seat may buy a 10% certificate of the corporation, in its turn.
#[tactic(auto, unfolding(crate::specs::Rules::purchase_verdict))]
fn judge_purchase_rules(
    position: &Position,
    chart: &Chart,
    seat: Seat,
    corp: Corp,
    source: ShareSource,
) -> Result<(), Refusal>
    ensures { MatchResult result
        (λ _. purchase_verdict (situation_in chart.now position.now) seat corp source ≡ None)
        (λ fault. purchase_verdict (situation_in chart.now position.now) seat corp source ≡ Some fault) }
{
    if must_sell(position, chart, seat) {
        return Err(Refusal::MustSellFirst);
    }
    if !is_for_sale(position, chart, corp, source) {
        return Err(Refusal::NotForSale);
    }
    if !may_buy_again(position, chart, corp, source) {
        return Err(Refusal::SecondPurchase);
    }
    if position.rounds().has_sold(seat, corp) {
        return Err(Refusal::SoldThisRound);
    }
    if would_be_over_certificates(position, chart, seat, corp) {
        return Err(Refusal::CertificateLimit);
    }
    if would_be_over_sixty(position, chart, seat, corp, 10) {
        return Err(Refusal::OverSixty);
    }
    if is_short(
        position.books(),
        seat,
        share_price(position, chart, corp, source),
    ) {
        return Err(Refusal::TooLittleCash);
    }
    Ok(())
}

// Whether the seat may sell so many 10% shares of the corporation, in its turn.
#[tactic(auto, unfolding(crate::specs::Rules::sale_verdict))]
fn judge_sale_rules(
    position: &Position,
    chart: &Chart,
    seat: Seat,
    corp: Corp,
    count: u64,
) -> Result<(), Refusal>
    ensures verdict { MatchResult result
        (λ _. sale_verdict (situation_in chart.now position.now) seat corp count ≡ None)
        (λ fault. sale_verdict (situation_in chart.now position.now) seat corp count ≡ Some fault) }
    ensures small { OnOk result (count ≤ 10) }
{
    judge_sale_in_round(position, chart, seat, corp, count)?;
    Ok(())
}

// Whether the seat may change the M&H for a 10% certificate of the NYC, in its turn.
#[tactic(auto, unfolding(crate::specs::Rules::swap_verdict))]
fn judge_swap_rules(
    position: &Position,
    chart: &Chart,
    seat: Seat,
    source: ShareSource,
) -> Result<(), Refusal>
    ensures { MatchResult result
        (λ _. swap_verdict (situation_in chart.now position.now) seat source ≡ None)
        (λ fault. swap_verdict (situation_in chart.now position.now) seat source ≡ Some fault) }
{
    let books = position.books();
    if books.holder(Cert::Private(Private::Mh)) != Place::Seat(seat) {
        return Err(Refusal::NotForSale);
    }
    if !has_share(books, Corp::Nyc, source) {
        return Err(Refusal::NotForSale);
    }
    if would_be_over_sixty(position, chart, seat, Corp::Nyc, 10) {
        return Err(Refusal::OverSixty);
    }
    Ok(())
}

// Whether the seat may end its turn.
#[tactic(auto, unfolding(crate::specs::Rules::done_verdict))]
fn judge_done_rules(position: &Position, chart: &Chart, seat: Seat) -> Result<(), Refusal>
    ensures { MatchResult result
        (λ _. done_verdict (situation_in chart.now position.now) seat ≡ None)
        (λ fault. done_verdict (situation_in chart.now position.now) seat ≡ Some fault) }
{
    if must_sell(position, chart, seat) {
        return Err(Refusal::MustSellFirst);
    }
    Ok(())
}

// Whether the seat holds too much and may only sell or swap.
fn must_sell(position: &Position, chart: &Chart, seat: Seat) -> bool
    ensures { result ≡ must_sell (situation_in chart.now position.now) seat }
{
    must_sell_first(position, chart, seat)
}

// Whether something was bought in the turn under way.
fn has_bought(rounds: &Rounds) -> bool
    ensures { result ≡ is_purchase rounds.now.purchases }
{
    match rounds.purchases() {
        Purchases::Nothing => false,
        _ => true,
    }
}

// Whether one purchase a turn leaves room for this one.
fn may_buy_again(position: &Position, chart: &Chart, corp: Corp, source: ShareSource) -> bool
    ensures { result ≡ may_buy_again (is_brown (zone_at chart.now (cell_in position.now.market corp))) source corp position.now.rounds }
{
    let in_brown = is_brown(position.market(), chart, corp);
    position.rounds().may_buy_again(corp, source, in_brown)
}

// Whether the seat has less than the amount.
fn is_short(books: &Books, seat: Seat, amount: u32) -> bool
    ensures { result ≡ int_lt (cash_of books.now (Party.Seat seat)) (pos amount) }
{
    books.balance(Party::Seat(seat)).0 < i64::from(amount)
}

// The price, if the chart has a par cell of it.
fn par_on_chart(chart: &Chart, price: u64) -> Option<u16>
    ensures there { is_some result ≡ is_par chart.now price }
    ensures same { IfSome result (λ par. par ≡ price) }
    ensures small { OnSome result (price ≤ 999) }
{
    let _cell = par_cell(chart, price)?;
    // A chart has no greater price than 999.
    Some(price as u16)
}

// Whether a 10% certificate of the corporation is there, and the corporation has a par.
fn is_for_sale(position: &Position, chart: &Chart, corp: Corp, source: ShareSource) -> bool
    ensures { result ≡ has_share (holder_in position.now.books) corp source && is_some (price_at chart.now (first_in position.now.market corp)) }
{
    has_share(position.books(), corp, source) && position.market().par(chart, corp).is_some()
}

// Whether a 10% certificate of the corporation is there.
fn has_share(books: &Books, corp: Corp, source: ShareSource) -> bool
    ensures { result ≡ has_share (holder_in books.now) corp source }
{
    lowest_share(books, corp, place_of_source(source)).is_some()
}

// Whether the corporation stands in brown.
fn is_brown(market: &Market, chart: &Chart, corp: Corp) -> bool
    ensures { result ≡ is_brown (zone_at chart.now (cell_in market.now corp)) }
{
    matches!(market.zone(chart, corp), Some(Zone::Brown))
}
