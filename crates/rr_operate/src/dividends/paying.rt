ghost use Rattle.std.specs.Prelude.{◌≡◌, ◌<◌, ◌≤◌, ◌≤ℤ◌, pos, None, Some, OnOk, IfErr, MatchResult};
ghost use Rattle.rr_books.specs.Book.{Book, holder};
ghost use Rattle.rr_books.specs.Shares.{share};
ghost use Rattle.rr_books.specs.State.{IsStateOf, party_index};
ghost use Rattle.rr_desk.specs.Position.Position.{IsPositionOf};
ghost use Rattle.rr_market.specs.Moves.{dividend_marks, mark_at, withholding_marks};
ghost use Rattle.rr_desk.specs.Desk.{Takes};
ghost use Rattle.rr_operate.specs.Dividends.Dividends.{marks, part, pay_verdict, pays_for, pays_out, pays_seats, withholds};
ghost use Rattle.rr_books.specs.declared.refusal.Refusal.TheVariants as B;

use rr_books::{Act, Cell, Corp, Entry, Marker, Money, Party, Place, Refusal, Seat};
use rr_desk::{Desk, Position};
use rr_roster::chart::Chart;

/// The greatest revenue that is paid or kept: more than all trains can earn.
pub const MOST_REVENUE: i64 = 10_000_000_000;

/// Judges a corporation's paying out a revenue, 0 where it didn't run.
///
/// # Errors
///
/// `WrongStep` where there is no revenue to pay.
pub fn judge_pay(revenue: Money) -> Result<(), Refusal>
    ensures { MatchResult result
        (λ _. pay_verdict revenue ≡ None)
        (λ fault. pay_verdict revenue ≡ Some fault) }
{
    if 0 < revenue.0 {
        return Ok(());
    }
    Err(Refusal::WrongStep)
}

/// Pays a corporation's revenue out of the bank, whatever that has: to each seat the part of its shares, in seating
/// order, to the corporation that of the shares in the pool. Nobody is paid for shares in the offering, and payments of
/// 0 are entries too. The token goes right, at the right edge up, and stays where there is no such cell.
///
/// # Errors
///
/// `OutOfMemory`; the desk may have some of the entries then.
pub fn pay_out(desk: &mut Desk, chart: &Chart, corp: Corp, revenue: Money) -> Result<(), Refusal>
    requires least { pos 0 ≤ℤ revenue.0 }
    requires greatest { revenue.0 ≤ℤ MOST_REVENUE }
    ensures fault { IfErr result (λ fault. fault ≡ B.OutOfMemory) }
    ensures takes { OnOk result (Takes (pays_out chart.now corp revenue) desk.old desk.new) }
{
    desk.push(Entry::Step(Marker::Act(Act::PayOut { corp })))?;
    pay_seats(desk, corp, revenue)?;
    pay_for(desk, corp, revenue, Place::Pool, Party::Corp(corp))?;
    move_right(desk, chart, corp)?;
    Ok(())
}

/// Pays a corporation's revenue, 0 without a run, to the corporation itself. The token goes left, at the left edge
/// down, and stays where there is no such cell.
///
/// # Errors
///
/// `OutOfMemory`; the desk may have some of the entries then.
#[tactic(auto, unfolding(crate::specs::Dividends::Dividends::withholds))]
pub fn withhold(desk: &mut Desk, chart: &Chart, corp: Corp, revenue: Money) -> Result<(), Refusal>
    requires least { pos 0 ≤ℤ revenue.0 }
    requires greatest { revenue.0 ≤ℤ MOST_REVENUE }
    ensures fault { IfErr result (λ fault. fault ≡ B.OutOfMemory) }
    ensures takes { OnOk result (Takes (withholds chart.now corp revenue) desk.old desk.new) }
{
    desk.push(Entry::Step(Marker::Act(Act::Hold { corp })))?;
    desk.push(Entry::Pay {
        from: Party::Bank,
        to: Party::Corp(corp),
        amount: revenue,
    })?;
    move_left(desk, chart, corp)?;
    Ok(())
}

// Each seat is paid for its shares.
fn pay_seats(desk: &mut Desk, corp: Corp, revenue: Money) -> Result<(), Refusal>
    requires least { pos 0 ≤ℤ revenue.0 }
    requires greatest { revenue.0 ≤ℤ MOST_REVENUE }
    ensures fault { IfErr result (λ fault. fault ≡ B.OutOfMemory) }
    ensures takes { OnOk result (Takes (pays_seats corp revenue) desk.old desk.new) }
{
    let players = desk.books().players();
    for seat in 0..players {
        let seat = Seat(seat);
        pay_for(desk, corp, revenue, Place::Seat(seat), Party::Seat(seat))?;
    }
    Ok(())
}

// The bank pays the party for the shares at the place.
#[tactic(auto, unfolding(crate::specs::Dividends::Dividends::pays_for))]
fn pay_for(
    desk: &mut Desk,
    corp: Corp,
    revenue: Money,
    place: Place,
    payee: Party,
) -> Result<(), Refusal>
    requires payee { party_index payee < 15 }
    requires least { pos 0 ≤ℤ revenue.0 }
    requires greatest { revenue.0 ≤ℤ MOST_REVENUE }
    ensures fault { IfErr result (λ fault. fault ≡ B.OutOfMemory) }
    ensures takes { OnOk result (Takes (pays_for corp revenue place payee) desk.old desk.new) }
{
    let percent = desk.books().share(place, corp);
    let amount = part(revenue, percent);
    desk.push(Entry::Pay {
        from: Party::Bank,
        to: payee,
        amount,
    })?;
    Ok(())
}

// The part of an amount that falls to so many percent.
fn part(amount: Money, percent: u8) -> Money
    requires least { pos 0 ≤ℤ amount.0 }
    requires greatest { amount.0 ≤ℤ MOST_REVENUE }
    requires percent { percent ≤ 100 }
    ensures value { result ≡ part amount percent }
    ensures low { pos 0 ≤ℤ result.0 }
    ensures high { result.0 ≤ℤ MOST_REVENUE }
{
    Money(amount.0 * i64::from(percent) / 100)
}

// The token moves as a dividend is paid.
fn move_right(desk: &mut Desk, chart: &Chart, corp: Corp) -> Result<(), Refusal>
    ensures fault { IfErr result (λ fault. fault ≡ B.OutOfMemory) }
    ensures takes { OnOk result (Takes (dividend_marks chart.now corp) desk.old desk.new) }
{
    let cell = cell_on_the_right(desk.position(), chart, corp);
    mark_if(desk, corp, cell)?;
    Ok(())
}

// The token moves as a dividend is withheld.
fn move_left(desk: &mut Desk, chart: &Chart, corp: Corp) -> Result<(), Refusal>
    ensures fault { IfErr result (λ fault. fault ≡ B.OutOfMemory) }
    ensures takes { OnOk result (Takes (withholding_marks chart.now corp) desk.old desk.new) }
{
    let cell = cell_on_the_left(desk.position(), chart, corp);
    mark_if(desk, corp, cell)?;
    Ok(())
}

fn cell_on_the_right(position: &Position, chart: &Chart, corp: Corp) -> Option<Cell>
    ensures { (book : Book) → IsPositionOf book position.now → mark_at corp result ≡ dividend_marks chart.now corp book }
{
    position.market().cell_after_paying(chart, corp)
}

fn cell_on_the_left(position: &Position, chart: &Chart, corp: Corp) -> Option<Cell>
    ensures { (book : Book) → IsPositionOf book position.now → mark_at corp result ≡ withholding_marks chart.now corp book }
{
    position.market().cell_after_withholding(chart, corp)
}

// Marks the token at a cell, if there is one.
fn mark_if(desk: &mut Desk, corp: Corp, cell: Option<Cell>) -> Result<(), Refusal>
    ensures fault { IfErr result (λ fault. fault ≡ B.OutOfMemory) }
    ensures takes { OnOk result (Takes (marks corp cell) desk.old desk.new) }
{
    match cell {
        Some(cell) => desk.push(Entry::Mark { corp, cell }),
        None => Ok(()),
    }
}
