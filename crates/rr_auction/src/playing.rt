ghost use Rattle.std.specs.Prelude.{◌≡◌, ◌<◌, ◌≤◌, ◌≤ℤ◌, pos, [], ◌∷◌, OnOk, IfErr};
ghost use Rattle.rr_books.specs.Book.{Book, holder, players};
ghost use Rattle.rr_desk.specs.Effects.{adds, in_turn};
ghost use Rattle.rr_market.specs.Moves.{par_marks};
ghost use Rattle.rr_rounds.specs.Bids.Progress.{progress};
ghost use Rattle.rr_rounds.specs.Bids.Unsold.{cheapest};
ghost use Rattle.rr_desk.specs.Desk.{Takes};
ghost use Rattle.rr_auction.specs.Effects.{brings_incomes, entries_of, incomes_if, pass_of, purchase_of, said, sale, sets_par, settle};
ghost use Rattle.rr_auction.specs.Small.{IsSmall};

use crate::due::brings_incomes;
use crate::pricing::{cost, for_sale};
use crate::settling::{sell, settle};
use rr_books::{Act, Corp, Entry, Marker, Money, Private, Refusal, Seat};
use rr_desk::{Desk, pay_incomes};
use rr_market::par_cell;
use rr_roster::Roster;
use rr_roster::chart::Chart;

/// Adds what a command of the auction adds to a table's book: its own step first, and then what it settles. A command
/// that the auction doesn't take adds what it would add if it did; one that isn't of the auction adds nothing.
///
/// # Errors
///
/// `OutOfMemory`; some of the entries may be on the desk then.
pub fn play(roster: &Roster, chart: &Chart, desk: &mut Desk, act: &Act) -> Result<(), Refusal>
    requires { IsSmall act.now }
    ensures fault { IfErr result (λ fault. fault ≡ Refusal.OutOfMemory) }
    ensures takes { OnOk result (Takes (λ book. entries_of roster.now chart.now book act.now) desk.old desk.new) }
{
    match act {
        Act::BuyPrivate { seat } => play_purchase(roster, desk, *seat),
        Act::Bid {
            seat,
            private,
            amount,
        } => play_bid(desk, *seat, *private, *amount),
        Act::Pass { seat } => play_pass(roster, desk, *seat),
        Act::Par { seat, corp, price } => play_par(chart, desk, *seat, *corp, *price),
        _ => Ok(()),
    }
}

// The seat buys the cheapest private.
fn play_purchase(roster: &Roster, desk: &mut Desk, seat: Seat) -> Result<(), Refusal>
    requires { seat.0 < 6 }
    ensures fault { IfErr result (λ fault. fault ≡ Refusal.OutOfMemory) }
    ensures takes { OnOk result (Takes (λ book. purchase_of roster.now seat (progress book).falls (cheapest (holder book)) book) desk.old desk.new) }
{
    match for_sale(desk.position()) {
        Some(private) => {
            let amount = cost(desk.position(), private, roster);
            buy_for(desk, seat, private, amount)?;
            Ok(())
        }
        None => Ok(()),
    }
}

// The seat buys the private for the amount.
fn buy_for(desk: &mut Desk, seat: Seat, private: Private, amount: Money) -> Result<(), Refusal>
    requires seated { seat.0 < 6 }
    requires low { pos 0 ≤ℤ amount.0 }
    requires high { amount.0 ≤ℤ pos 10000000000 }
    ensures fault { IfErr result (λ fault. fault ≡ Refusal.OutOfMemory) }
    ensures takes { OnOk result (Takes (in_turn (adds (Entry.Step (Marker.Act (Act.BuyPrivate seat))) ∷ sale seat private amount ∷ settle ∷ [])) desk.old desk.new) }
{
    desk.push(Entry::Step(Marker::Act(Act::BuyPrivate { seat })))?;
    sell(desk, seat, private, amount)?;
    settle(desk)?;
    Ok(())
}

// The seat bids on a private.
fn play_bid(desk: &mut Desk, seat: Seat, private: Private, amount: u64) -> Result<(), Refusal>
    requires { amount ≤ 10000000000 }
    ensures fault { IfErr result (λ fault. fault ≡ Refusal.OutOfMemory) }
    ensures takes { OnOk result (Takes (said (Act.Bid seat private amount)) desk.old desk.new) }
{
    desk.push(Entry::Step(Marker::Act(Act::Bid {
        seat,
        private,
        amount,
    })))?;
    settle(desk)?;
    Ok(())
}

// The seat passes, or leaves where several raise.
fn play_pass(roster: &Roster, desk: &mut Desk, seat: Seat) -> Result<(), Refusal>
    ensures fault { IfErr result (λ fault. fault ≡ Refusal.OutOfMemory) }
    ensures takes { OnOk result (Takes (λ book. pass_of roster.now seat (brings_incomes (players book) (holder book) (progress book)) book) desk.old desk.new) }
{
    let brings = brings_incomes(desk.position());
    pass(roster, desk, seat, brings)?;
    Ok(())
}

// The seat passes, which brings the incomes or doesn't.
fn pass(roster: &Roster, desk: &mut Desk, seat: Seat, brings: bool) -> Result<(), Refusal>
    ensures fault { IfErr result (λ fault. fault ≡ Refusal.OutOfMemory) }
    ensures takes { OnOk result (Takes (pass_of roster.now seat brings) desk.old desk.new) }
{
    desk.push(Entry::Step(Marker::Act(Act::Pass { seat })))?;
    settle(desk)?;
    pay_incomes_if(roster, desk, brings)?;
    Ok(())
}

// The privates pay their owners, if a pass brings that.
fn pay_incomes_if(roster: &Roster, desk: &mut Desk, brings: bool) -> Result<(), Refusal>
    ensures fault { IfErr result (λ fault. fault ≡ Refusal.OutOfMemory) }
    ensures takes { OnOk result (Takes (incomes_if roster.now brings) desk.old desk.new) }
{
    if !brings {
        return Ok(());
    }
    pay_incomes(desk, roster)?;
    Ok(())
}

// The seat sets a corporation's first price.
fn play_par(
    chart: &Chart,
    desk: &mut Desk,
    seat: Seat,
    corp: Corp,
    price: u64,
) -> Result<(), Refusal>
    ensures fault { IfErr result (λ fault. fault ≡ Refusal.OutOfMemory) }
    ensures takes { OnOk result (Takes (sets_par chart.now seat corp price) desk.old desk.new) }
{
    desk.push(Entry::Step(Marker::Act(Act::Par { seat, corp, price })))?;
    mark_par(chart, desk, corp, price)?;
    settle(desk)?;
    Ok(())
}

// The corporation's token is put on the par cell of the price, if the chart has one.
fn mark_par(chart: &Chart, desk: &mut Desk, corp: Corp, price: u64) -> Result<(), Refusal>
    ensures fault { IfErr result (λ fault. fault ≡ Refusal.OutOfMemory) }
    ensures takes { OnOk result (Takes (par_marks chart.now corp price) desk.old desk.new) }
{
    match par_cell(chart, price) {
        Some(cell) => desk.push(Entry::Mark { corp, cell }),
        None => Ok(()),
    }
}
