ghost use Rattle.std.specs.Prelude.{◌≡◌, OnOk, IfErr};
ghost use Rattle.rr_desk.specs.Desk.{Takes};
ghost use Rattle.rr_shares.specs.Effects.{moves_lowest_shares};

use rr_books::{Corp, Place, Refusal};
use rr_desk::{Desk, give_lowest_share};

/// Moves the `count` lowest of the corporation's 10% certificates that are at one place to another, one after
/// another; all where fewer are there.
///
/// # Errors
///
/// `OutOfMemory`; some may have moved then.
pub fn give_lowest_shares(
    desk: &mut Desk,
    corp: Corp,
    count: u8,
    from: Place,
    to: Place,
) -> Result<(), Refusal>
    ensures fault { IfErr result (λ fault. fault ≡ Refusal.OutOfMemory) }
    ensures takes { OnOk result (Takes (moves_lowest_shares corp count from to) desk.old desk.new) }
{
    for moved in 0..count {
        give_lowest_share(desk, corp, from, to)?;
    }
    Ok(())
}
