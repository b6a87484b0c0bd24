ghost use Rattle.std.specs.Prelude.{◌≡◌, OnOk, IfErr};
ghost use Rattle.rr_desk.specs.Desk.{Takes};
ghost use Rattle.rr_shares.specs.Effects.{presidency_after_sale, sale_shares};

use crate::giving::give_lowest_shares;
use crate::succession::{hand_over_if, handover_after_sale};
use rr_books::{Corp, Place, Refusal, Seat};
use rr_desk::Desk;

/// The seat's shares go to the pool: first the presidency, judged by what the seats hold after the sale, and then the
/// `count` lowest 10% certificates that the seller has by then. The price is paid elsewhere.
///
/// # Errors
///
/// `OutOfMemory`; some certificates may have moved then.
#[tactic(auto, unfolding(crate::specs::Effects::sale_shares))]
pub fn sell_shares(desk: &mut Desk, corp: Corp, seller: Seat, count: u8) -> Result<(), Refusal>
    ensures fault { IfErr result (λ fault. fault ≡ Refusal.OutOfMemory) }
    ensures takes { OnOk result (Takes (sale_shares corp seller count) desk.old desk.new) }
{
    settle_presidency_after_sale(desk, corp, seller, count)?;
    give_lowest_shares(desk, corp, count, Place::Seat(seller), Place::Pool)?;
    Ok(())
}

// The presidency goes to whoever is heir once the seller has sold so many shares.
#[tactic(auto, unfolding(crate::specs::Effects::presidency_after_sale))]
fn settle_presidency_after_sale(
    desk: &mut Desk,
    corp: Corp,
    seller: Seat,
    count: u8,
) -> Result<(), Refusal>
    ensures fault { IfErr result (λ fault. fault ≡ Refusal.OutOfMemory) }
    ensures takes { OnOk result (Takes (presidency_after_sale corp seller count) desk.old desk.new) }
{
    let due = handover_after_sale(desk.books(), corp, seller, count);
    hand_over_if(desk, corp, due)?;
    Ok(())
}
