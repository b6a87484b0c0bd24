//! Laws of the definitions, each the contract of a function that does nothing.
ghost use Rattle.rr_stock.specs.PoolLimits.{PoolStaysWithinHalf};
ghost use Rattle.rr_stock.specs.SoldShares.{LawfulSalesMoveShares};
ghost use Rattle.rr_stock.specs.TurnCounts.{OneTurnAtMost};
ghost use Rattle.rr_stock.specs.WorkedLimits.{WorkedMustSell, WorkedSecondPurchase, WorkedSixty, WorkedSuccession};
ghost use Rattle.rr_stock.specs.WorkedRounds.{WorkedEnd, WorkedFloat, WorkedPar, WorkedPresidency, WorkedSale};

/// Whatever the book and the command, its entries end at most one turn and begin no stock round.
pub fn one_turn_at_most()
    ensures { OneTurnAtMost }
{}

/// If the pool has at most half of each corporation, it has at most half of each after any lawful command.
pub fn pool_stays_within_half()
    ensures { PoolStaysWithinHalf }
{}

/// A lawful sale, of a corporation that has a president at the table, moves just the shares that are sold, and nobody
/// holds more than the president then.
pub fn lawful_sales_move_shares()
    ensures { LawfulSalesMoveShares }
{
    rr_shares::laws::sales_move_shares();
}

/// A sale of two shares at 100 brings 200, and the price falls two rows.
pub fn worked_sale()
    ensures { WorkedSale }
{}

/// A player who buys more than the president has becomes president, for two of its shares.
pub fn worked_presidency()
    ensures { WorkedPresidency }
{}

/// A par of 100 costs 200.
pub fn worked_par()
    ensures { WorkedPar }
{}

/// A corporation of par 100 gets 1,000 as 60% has left the offer, and only then.
pub fn worked_float()
    ensures { WorkedFloat }
{}

/// As all seats have passed in a row, what is sold out goes up, and an operating round begins.
pub fn worked_end()
    ensures { WorkedEnd }
{}

/// Nobody buys more than 60% of a corporation in white and yellow.
pub fn worked_sixty()
    ensures { WorkedSixty }
{}

/// A player who has more than 60% of a corporation in white or yellow has to sell first, once sales are lawful.
pub fn worked_must_sell()
    ensures { WorkedMustSell }
{}

/// Several shares are bought in one turn only from the pool, and only in brown.
pub fn worked_second_purchase()
    ensures { WorkedSecondPurchase }
{}

/// A president goes below 20% only if another player has 20%, who then becomes president.
pub fn worked_succession()
    ensures { WorkedSuccession }
{}
