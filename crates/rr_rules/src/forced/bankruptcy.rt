//! Judges a president's bankruptcy by what the corporation due needs.
ghost use Rattle.std.specs.Prelude.{◌≡◌, None, Some, MatchResult};
ghost use Rattle.rr_rules.specs.Forced.Sales.{bankrupt_verdict};

use crate::forced::needs::Need;
use crate::forced::raising::is_seat;
use rr_books::{Refusal, Seat};

// Whether the seat is bankrupt, given whether it can sell shares for the train that is needed.
pub(crate) fn judge_bankrupt_for(
    need: Option<Need>,
    seat: Seat,
    can_raise: bool,
) -> Result<(), Refusal>
    ensures { MatchResult result
        (λ _. bankrupt_verdict need seat can_raise ≡ None)
        (λ fault. bankrupt_verdict need seat can_raise ≡ Some fault) }
{
    let Some(need) = need else {
        return Err(Refusal::NotYourTurn);
    };
    if !is_seat(need.president, seat) {
        return Err(Refusal::NotYourTurn);
    }
    if need.shortfall == 0 {
        return Err(Refusal::NotBankrupt);
    }
    if can_raise {
        return Err(Refusal::NotBankrupt);
    }
    Ok(())
}
