//! Judges a president's sale of shares for a train by what the corporation due needs.
ghost use Rattle.std.specs.Prelude.{◌≡◌, ◌≤◌, ◌<◌, None, Some, option_map, IfSome, MatchResult, OnOk};
ghost use Rattle.rr_books.specs.State.{holder_in};
ghost use Rattle.rr_shares.specs.Limits.Holdings.{holdings_in};
ghost use Rattle.rr_shares.specs.Limits.Sales.{sale_verdict};
ghost use Rattle.rr_rules.specs.Forced.Sales.{can_raise, changes_president, is_seat, president_verdict, raise_verdict, raises_one, share_verdict};

use crate::forced::needs::Need;
use rr_books::{Books, Corp, Refusal, Seat};
use rr_desk::Position;
use rr_roster::chart::Chart;
use rr_shares::handover_after_sale;
use rr_shares::limits::judge_sale;

// What a president would sell for the train that is needed: so many 10% shares of a corporation.
#[derive(Clone, Copy)]
pub(crate) struct Raise {
    pub(crate) seat: Seat,
    pub(crate) corp: Corp,
    pub(crate) count: u64,
}

// Whether the seat may sell so many shares for the train that is needed.
pub(crate) fn judge_raise_for(
    chart: &Chart,
    position: &Position,
    need: Option<Need>,
    raise: Raise,
) -> Result<(), Refusal>
    requires { IfSome need (λ need. IfSome need.president (λ seat. seat.0 < 6)) }
    ensures shown { MatchResult result
        (λ _. raise_verdict (holdings_in chart.now position.now) need raise.seat raise.corp raise.count ≡ None)
        (λ fault. raise_verdict (holdings_in chart.now position.now) need raise.seat raise.corp raise.count ≡ Some fault) }
    ensures seated { OnOk result (raise.seat.0 < 6) }
    ensures small { OnOk result (raise.count ≤ 10) }
{
    let Some(need) = need else {
        return Err(Refusal::NotYourTurn);
    };
    if !is_seat(need.president, raise.seat) {
        return Err(Refusal::NotYourTurn);
    }
    if need.shortfall == 0 {
        return Err(Refusal::SaleNotNeeded);
    }
    judge_shares(chart, position, need.corp, raise)?;
    Ok(())
}

// Whether the seat may sell so many shares where a corporation is due, whatever money there is.
#[tactic(auto, unfolding(crate::specs::Forced::Sales::share_verdict))]
fn judge_shares(chart: &Chart, position: &Position, due: Corp, raise: Raise) -> Result<(), Refusal>
    ensures verdict { MatchResult result
        (λ _. share_verdict (holdings_in chart.now position.now) due raise.seat raise.corp raise.count ≡ None)
        (λ fault. share_verdict (holdings_in chart.now position.now) due raise.seat raise.corp raise.count ≡ Some fault) }
    ensures small { OnOk result (raise.count ≤ 10) }
{
    let Raise { seat, corp, count } = raise;
    judge_count(chart, position, seat, corp, count)?;
    judge_president(position.books(), due, seat, corp, count as u8)?;
    Ok(())
}

// Whether the seat may sell so many shares in any round.
fn judge_count(
    chart: &Chart,
    position: &Position,
    seat: Seat,
    corp: Corp,
    count: u64,
) -> Result<(), Refusal>
    ensures verdict { MatchResult result
        (λ _. (sale_verdict (holdings_in chart.now position.now) seat corp count) ≡ None)
        (λ fault. (sale_verdict (holdings_in chart.now position.now) seat corp count) ≡ Some fault) }
    ensures small { OnOk result (count ≤ 10) }
{
    judge_sale(position, chart, seat, corp, count)?;
    Ok(())
}

// Whether the corporation due keeps its president.
fn judge_president(
    books: &Books,
    due: Corp,
    seat: Seat,
    corp: Corp,
    count: u8,
) -> Result<(), Refusal>
    ensures { MatchResult result
        (λ _. president_verdict (holder_in books.now) books.now.players due seat corp count ≡ None)
        (λ fault. president_verdict (holder_in books.now) books.now.players due seat corp count ≡ Some fault) }
{
    if changes_president(books, due, seat, corp, count) {
        return Err(Refusal::PresidencyWouldChange);
    }
    Ok(())
}

// Whether another seat becomes president of the corporation due.
fn changes_president(books: &Books, due: Corp, seat: Seat, corp: Corp, count: u8) -> bool
    ensures { result ≡ changes_president (holder_in books.now) books.now.players due seat corp count }
{
    corp == due && handover_after_sale(books, corp, seat, count).is_some()
}

// Whether the seat is this one.
pub(crate) fn is_seat(president: Option<Seat>, seat: Seat) -> bool
    ensures { result ≡ is_seat president seat }
{
    match president {
        Some(president) => president == seat,
        None => false,
    }
}

// Whether the seat can sell a share of some corporation for the train that is needed.
#[tactic(auto, unfolding(crate::specs::Forced::Sales::can_raise))]
pub(crate) fn can_raise(chart: &Chart, position: &Position, need: Option<Need>, seat: Seat) -> bool
    requires { IfSome need (λ need. IfSome need.president (λ seat. seat.0 < 6)) }
    ensures { result ≡ can_raise (holdings_in chart.now position.now) need seat }
{
    Corp::ALL
        .iter()
        .any(|corp| raises_one(chart, position, need, seat, *corp))
}

// Whether the seat can sell a share of the corporation for it.
fn raises_one(
    chart: &Chart,
    position: &Position,
    need: Option<Need>,
    seat: Seat,
    corp: Corp,
) -> bool
    requires { IfSome need (λ need. IfSome need.president (λ seat. seat.0 < 6)) }
    ensures { result ≡ raises_one (holdings_in chart.now position.now) need seat corp }
{
    let raise = Raise {
        seat,
        corp,
        count: 1,
    };
    judge_raise_for(chart, position, need, raise).is_ok()
}
