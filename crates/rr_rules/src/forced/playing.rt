//! Plays the commands of a corporation that must own a train and can't pay it.
ghost use Rattle.std.specs.Prelude.{◌≡◌, ◌≤◌, ◌<◌, OnOk, IfErr, IfSome};
ghost use Rattle.rr_books.specs.State.{party_index};
ghost use Rattle.rr_desk.specs.Desk.{Takes};
ghost use Rattle.rr_stock.specs.Situation as stock;
ghost use Rattle.rr_trains.specs.Sales.{source_place};
ghost use Rattle.rr_trains.specs.Depot.Effects.{pays, says};
ghost use Rattle.rr_trains.specs.Depot.Situation.{situation_of};
ghost use Rattle.rr_rules.specs.Forced.Effects.{entries_of, forces, forces_if, gets_train, helps, raises};
ghost use Rattle.rr_rules.specs.Forced.Needs.{cheapest_need};
ghost use Rattle.rr_rules.specs.Forced.Small.{IsSmall};

use crate::forced::needs::{Need, cheapest_need};
use rr_books::{Act, Corp, Entry, Marker, Money, Party, Place, Refusal, Seat, TrainSource};
use rr_desk::{Desk, dollars};
use rr_roster::Roster;
use rr_roster::chart::Chart;
use rr_shares::sell_shares;
use rr_stock::{Sale, pay_seller, proceeds};
use rr_trains::{first_train, give_lowest_train};

/// Adds to the desk what a command of a corporation brings about that must own a train and can't pay it. Any other
/// command adds nothing. It doesn't ask whether the command is lawful, which `judge` tells.
///
/// - `force`: its words, what the president pays to the corporation, the cheapest train on sale, the payment for it to
///   the bank, and what the first train of its kind brings about.
/// - `raise`: its words, and what a sale in a stock round adds: the presidency by the shares after it, the shares, the
///   price before it for each, and the fall of the token.
/// - `bankrupt`: its words alone.
///
/// # Errors
///
/// `OutOfMemory`; the desk may have some of the entries then.
pub fn play(roster: &Roster, chart: &Chart, desk: &mut Desk, act: &Act) -> Result<(), Refusal>
    requires { IsSmall act.now }
    ensures fault { IfErr result (λ fault. fault ≡ Refusal.OutOfMemory) }
    ensures takes { OnOk result (Takes (λ book. entries_of roster.now chart.now book act.now) desk.old desk.new) }
{
    match act {
        Act::Force { corp } => play_force(roster, desk, *corp),
        Act::Raise { seat, corp, count } => play_raise(chart, desk, *seat, *corp, *count),
        Act::Bankrupt { seat } => play_bankruptcy(desk, *seat),
        _ => Ok(()),
    }
}

// The seat sells so many 10% shares at the market price, which falls then.
fn play_raise(
    chart: &Chart,
    desk: &mut Desk,
    seat: Seat,
    corp: Corp,
    count: u64,
) -> Result<(), Refusal>
    requires seated { seat.0 < 6 }
    requires small { count ≤ 10 }
    ensures fault { IfErr result (λ fault. fault ≡ Refusal.OutOfMemory) }
    ensures takes { OnOk result (Takes (λ book. raises chart.now (stock.situation_of chart.now book) seat corp count book) desk.old desk.new) }
{
    let shares = count as u8;
    let amount = proceeds(desk.position(), chart, corp, shares);
    let sale = Sale {
        seat,
        corp,
        count: shares,
        amount,
    };
    desk.push(Entry::Step(Marker::Act(Act::Raise { seat, corp, count })))?;
    sell_shares(desk, corp, seat, shares)?;
    pay_seller(desk, chart, sale)?;
    Ok(())
}

// The seat is bankrupt.
fn play_bankruptcy(desk: &mut Desk, seat: Seat) -> Result<(), Refusal>
    ensures fault { IfErr result (λ fault. fault ≡ Refusal.OutOfMemory) }
    ensures takes { OnOk result (Takes (says (Act.Bankrupt seat)) desk.old desk.new) }
{
    desk.push(Entry::Step(Marker::Act(Act::Bankrupt { seat })))?;
    Ok(())
}

// The corporation buys the cheapest train on sale.
fn play_force(roster: &Roster, desk: &mut Desk, corp: Corp) -> Result<(), Refusal>
    ensures fault { IfErr result (λ fault. fault ≡ Refusal.OutOfMemory) }
    ensures takes { OnOk result (Takes (λ book. forces_if (cheapest_need roster.now (situation_of book) corp) book) desk.old desk.new) }
{
    let need = cheapest_need(roster, desk.books(), corp);
    force_if(desk, need)?;
    Ok(())
}

fn force_if(desk: &mut Desk, need: Option<Need>) -> Result<(), Refusal>
    requires small { IfSome need (λ need. need.price ≤ 10000000000) }
    requires lack { IfSome need (λ need. need.lack ≤ 10000000000) }
    requires seated { IfSome need (λ need. IfSome need.president (λ seat. seat.0 < 6)) }
    ensures fault { IfErr result (λ fault. fault ≡ Refusal.OutOfMemory) }
    ensures takes { OnOk result (Takes (forces_if need) desk.old desk.new) }
{
    match need {
        Some(need) => force(desk, need),
        None => Ok(()),
    }
}

// The president adds what the corporation lacks, and the train is bought.
#[tactic(auto, unfolding(crate::specs::Forced::Effects::forces))]
fn force(desk: &mut Desk, need: Need) -> Result<(), Refusal>
    requires small { need.price ≤ 10000000000 }
    requires lack { need.lack ≤ 10000000000 }
    requires seated { IfSome need.president (λ seat. seat.0 < 6) }
    ensures fault { IfErr result (λ fault. fault ≡ Refusal.OutOfMemory) }
    ensures takes { OnOk result (Takes (forces need) desk.old desk.new) }
{
    desk.push(Entry::Step(Marker::Act(Act::Force { corp: need.corp })))?;
    help(desk, need.president, need.corp, need.lack)?;
    get_train(desk, need)?;
    Ok(())
}

// The president pays the corporation.
fn help(desk: &mut Desk, president: Option<Seat>, corp: Corp, lack: u64) -> Result<(), Refusal>
    requires few { IfSome president (λ seat. seat.0 < 6) }
    requires small { lack ≤ 10000000000 }
    ensures fault { IfErr result (λ fault. fault ≡ Refusal.OutOfMemory) }
    ensures takes { OnOk result (Takes (helps president corp lack) desk.old desk.new) }
{
    match president {
        Some(seat) => {
            let amount = dollars(lack);
            desk.push(Entry::Pay {
                from: Party::Seat(seat),
                to: Party::Corp(corp),
                amount,
            })?;
            Ok(())
        }
        None => Ok(()),
    }
}

// The corporation gets the train, pays for it, and what the train brings about follows.
#[tactic(auto, unfolding(crate::specs::Forced::Effects::gets_train))]
fn get_train(desk: &mut Desk, need: Need) -> Result<(), Refusal>
    requires { need.price ≤ 10000000000 }
    ensures fault { IfErr result (λ fault. fault ≡ Refusal.OutOfMemory) }
    ensures takes { OnOk result (Takes (gets_train need) desk.old desk.new) }
{
    let corp = need.corp;
    let kind = need.train.kind;
    give_lowest_train(
        desk,
        kind,
        source_place(need.train.source),
        Place::Corp(corp),
    )?;
    pay_bank(desk, corp, need.price)?;
    first_train(desk, need.is_first, kind, corp)?;
    Ok(())
}

// The corporation pays the bank.
fn pay_bank(desk: &mut Desk, corp: Corp, amount: u64) -> Result<(), Refusal>
    requires { amount ≤ 10000000000 }
    ensures fault { IfErr result (λ fault. fault ≡ Refusal.OutOfMemory) }
    ensures takes { OnOk result (Takes (pays corp Party.Bank amount) desk.old desk.new) }
{
    let amount = dollars(amount);
    desk.push(Entry::Pay {
        from: Party::Corp(corp),
        to: Party::Bank,
        amount,
    })?;
    Ok(())
}

// Where the trains of a source are.
fn source_place(source: TrainSource) -> Place
    ensures { result ≡ source_place source }
{
    match source {
        TrainSource::Bank => Place::Offer,
        TrainSource::Pool => Place::Pool,
    }
}
