//! What a purchase adds, once what it reads of the books is known.
ghost use Rattle.std.specs.Prelude.{◌≡◌, ◌<◌, ◌≤◌, OnOk, OnErr, IfErr, IfSome};
ghost use Rattle.rr_books.specs.State.{party_index};
ghost use Rattle.rr_desk.specs.Desk.{AddsSome, Takes};
ghost use Rattle.rr_trains.specs.Depot.Effects.{gets_train, pays, pays_player};

use crate::depot::purchases::Purchase;
use crate::{first_train, give_lowest_train};
use rr_books::{Corp, Entry, Money, Party, Place, Refusal, Seat};
use rr_desk::{Desk, dollars};

/// The corporation gets the train, pays for it, and what the train brings about follows.
#[tactic(auto, unfolding(crate::specs::Depot::Effects::gets_train))]
pub(crate) fn get_train(desk: &mut Desk, purchase: Purchase) -> Result<(), Refusal>
    requires payee { party_index purchase.payee < 15 }
    requires small { purchase.amount ≤ 10000000000 }
    ensures fault { IfErr result (λ fault. fault ≡ Refusal.OutOfMemory) }
    ensures takes { OnOk result (Takes (gets_train purchase) desk.old desk.new) }
{
    let corp = purchase.corp;
    let kind = purchase.kind;
    give_lowest_train(desk, kind, purchase.from, Place::Corp(corp))?;
    pay(desk, corp, purchase.payee, purchase.amount)?;
    first_train(desk, purchase.is_first, kind, corp)?;
    Ok(())
}

/// The corporation pays the player, if there is one. Where there is none, no memory is wanted.
pub(crate) fn pay_player(
    desk: &mut Desk,
    corp: Corp,
    player: Option<Seat>,
    amount: u64,
) -> Result<(), Refusal>
    requires few { IfSome player (λ seat. seat.0 < 6) }
    requires small { amount ≤ 10000000000 }
    ensures fault { IfErr result (λ fault. fault ≡ Refusal.OutOfMemory) }
    ensures takes { OnOk result (Takes (pays_player corp player amount) desk.old desk.new) }
    ensures needed { OnErr result (AddsSome (pays_player corp player amount) desk.old) }
{
    match player {
        Some(seat) => pay(desk, corp, Party::Seat(seat), amount),
        None => Ok(()),
    }
}

// The corporation pays.
fn pay(desk: &mut Desk, corp: Corp, to: Party, amount: u64) -> Result<(), Refusal>
    requires payee { party_index to < 15 }
    requires small { amount ≤ 10000000000 }
    ensures fault { IfErr result (λ fault. fault ≡ Refusal.OutOfMemory) }
    ensures takes { OnOk result (Takes (pays corp to amount) desk.old desk.new) }
{
    let amount = dollars(amount);
    desk.push(Entry::Pay {
        from: Party::Corp(corp),
        to,
        amount,
    })?;
    Ok(())
}
