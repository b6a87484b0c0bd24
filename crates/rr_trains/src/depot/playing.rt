ghost use Rattle.std.specs.Prelude.{◌≡◌, ◌≤◌, OnOk, IfErr};
ghost use Rattle.rr_desk.specs.Desk.{Takes};
ghost use Rattle.rr_trains.specs.Depot.Effects.{buys_train, buys_train_from, discards_train, entries_of, takes_private, trades_train};
ghost use Rattle.rr_trains.specs.Depot.Situation.{situation_of};
ghost use Rattle.rr_trains.specs.Depot.Small.{IsSmall};

use crate::depot::purchases::{Deal, Purchase, price, trade_price};
use crate::depot::reading::owner;
use crate::depot::trading::{get_train, pay_player};
use crate::give_lowest_train;
use rr_books::{Act, Cert, Corp, Entry, Kind, Marker, Place, Private, Refusal, TrainSource};
use rr_desk::Desk;
use rr_roster::Roster;

/// Adds to the desk what a corporation's purchase or discard brings about: `train`, `trade`, `drop` or `private`. Any
/// other command adds nothing. It doesn't ask whether the command is lawful, which `judge` tells.
///
/// # Errors
///
/// `OutOfMemory`; the desk may have some of the entries then.
pub fn play(roster: &Roster, desk: &mut Desk, act: &Act) -> Result<(), Refusal>
    requires { IsSmall act.now }
    ensures fault { IfErr result (λ fault. fault ≡ Refusal.OutOfMemory) }
    ensures takes { OnOk result (Takes (λ book. entries_of roster.now book act.now) desk.old desk.new) }
{
    match act {
        Act::BuyTrain { corp, kind, source } => play_train(roster, desk, *corp, *kind, *source),
        Act::BuyTrainFrom {
            corp,
            kind,
            seller,
            price,
            president,
            seller_president,
        } => play_deal(
            desk,
            Deal {
                corp: *corp,
                kind: *kind,
                seller: *seller,
                price: *price,
                president: *president,
                seller_president: *seller_president,
            },
        ),
        Act::Trade { corp, kind } => play_trade(roster, desk, *corp, *kind),
        Act::Discard { corp, kind } => play_discard(desk, *corp, *kind),
        Act::TakePrivate {
            corp,
            private,
            price,
        } => play_private(desk, *corp, *private, *price),
        _ => Ok(()),
    }
}

// The corporation buys a train of the bank or the pool.
fn play_train(
    roster: &Roster,
    desk: &mut Desk,
    corp: Corp,
    kind: Kind,
    source: TrainSource,
) -> Result<(), Refusal>
    ensures fault { IfErr result (λ fault. fault ≡ Refusal.OutOfMemory) }
    ensures takes { OnOk result (Takes (λ book. buys_train roster.now (situation_of book) corp kind source book) desk.old desk.new) }
{
    let amount = price(roster, kind);
    let purchase = Purchase::of_bank(desk.books(), corp, kind, source, amount);
    desk.push(Entry::Step(Marker::Act(Act::BuyTrain { corp, kind, source })))?;
    get_train(desk, purchase)?;
    Ok(())
}

// The corporation buys another one's train.
#[tactic(auto, unfolding(crate::specs::Depot::Effects::buys_train_from))]
fn play_deal(desk: &mut Desk, deal: Deal) -> Result<(), Refusal>
    requires { deal.price ≤ 10000000000 }
    ensures fault { IfErr result (λ fault. fault ≡ Refusal.OutOfMemory) }
    ensures takes { OnOk result (Takes (buys_train_from deal) desk.old desk.new) }
{
    desk.push(Entry::Step(Marker::Act(Act::BuyTrainFrom {
        corp: deal.corp,
        kind: deal.kind,
        seller: deal.seller,
        price: deal.price,
        president: deal.president,
        seller_president: deal.seller_president,
    })))?;
    get_train(desk, Purchase::of_corporation(&deal))?;
    Ok(())
}

// The corporation hands in a train for a D.
fn play_trade(roster: &Roster, desk: &mut Desk, corp: Corp, kind: Kind) -> Result<(), Refusal>
    ensures fault { IfErr result (λ fault. fault ≡ Refusal.OutOfMemory) }
    ensures takes { OnOk result (Takes (λ book. trades_train roster.now (situation_of book) corp kind book) desk.old desk.new) }
{
    let amount = trade_price(roster);
    let purchase = Purchase::of_bank(desk.books(), corp, Kind::Diesel, TrainSource::Bank, amount);
    desk.push(Entry::Step(Marker::Act(Act::Trade { corp, kind })))?;
    give_lowest_train(desk, kind, Place::Corp(corp), Place::Gone)?;
    get_train(desk, purchase)?;
    Ok(())
}

// The corporation gives up a train.
#[tactic(auto, unfolding(crate::specs::Depot::Effects::discards_train))]
fn play_discard(desk: &mut Desk, corp: Corp, kind: Kind) -> Result<(), Refusal>
    ensures fault { IfErr result (λ fault. fault ≡ Refusal.OutOfMemory) }
    ensures takes { OnOk result (Takes (discards_train corp kind) desk.old desk.new) }
{
    desk.push(Entry::Step(Marker::Act(Act::Discard { corp, kind })))?;
    give_lowest_train(desk, kind, Place::Corp(corp), Place::Pool)?;
    Ok(())
}

// The corporation buys a private of the player that has it.
fn play_private(desk: &mut Desk, corp: Corp, private: Private, price: u64) -> Result<(), Refusal>
    requires { price ≤ 10000000000 }
    ensures fault { IfErr result (λ fault. fault ≡ Refusal.OutOfMemory) }
    ensures takes { OnOk result (Takes (λ book. takes_private (situation_of book) corp private price book) desk.old desk.new) }
{
    let player = owner(desk.books(), private);
    desk.push(Entry::Step(Marker::Act(Act::TakePrivate {
        corp,
        private,
        price,
    })))?;
    desk.push(Entry::Move {
        cert: Cert::Private(private),
        to: Place::Corp(corp),
    })?;
    pay_player(desk, corp, player, price)?;
    Ok(())
}
