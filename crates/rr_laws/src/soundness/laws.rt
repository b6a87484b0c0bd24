//! Laws of the definitions, each the contract of a function that does nothing.
ghost use Rattle.rr_laws.specs.Soundness.GoodOrder.{GoodOrderHasGreatestPresidents};
ghost use Rattle.rr_laws.specs.Soundness.Presidencies.{AuctionStaysGoverned, GovernedHasGreatestPresidents, StockStaysGoverned};
ghost use Rattle.rr_laws.specs.Soundness.Priority.{FirstTurnIsOfPriority, PriorityIsOne};
ghost use Rattle.rr_laws.specs.Soundness.Seating.{TurnIsAtTheTable};
ghost use Rattle.rr_laws.specs.Soundness.Sound.{AuctionStaysWithinHalf, StockStaysDealt, StockStaysSolvent, StockStaysSound};

/// Whatever the book, the seat in turn in a stock round and the seat with priority sit at the table.
pub fn turn_is_at_the_table()
    ensures { TurnIsAtTheTable }
{}

/// If no seat and no corporation has less than nothing, none has after any lawful command of a stock round.
pub fn stock_stays_solvent()
    ensures { StockStaysSolvent }
{}

/// If each certificate has a place of the table, each has one after any lawful command of a stock round.
pub fn stock_stays_dealt()
    ensures { StockStaysDealt }
{}

/// Whatever lawful command of a stock round is played on a sound book, it stays sound: nobody but the bank has less
/// than nothing, each certificate has a place of the table, and the pool has at most half of each corporation.
pub fn stock_stays_sound()
    ensures { StockStaysSound }
{
    rr_stock::laws::pool_stays_within_half();
}

/// If the pool has at most half of each corporation, it has at most half of each after any act of the auction.
pub fn auction_stays_within_half()
    ensures { AuctionStaysWithinHalf }
{}

/// From the opening of a table on, whatever lawful acts the auction takes, each corporation awaits its par, with no
/// more than 20% of it at any seat, or is led by its president.
pub fn auction_stays_governed()
    ensures { AuctionStaysGoverned }
{}

/// A solvent table whose corporations all await their par or are led by their presidents stays so with whatever lawful
/// command of a stock round.
pub fn stock_stays_governed()
    ensures { StockStaysGoverned }
{
    rr_stock::laws::lawful_sales_move_shares();
}

/// If each corporation awaits its par or is led by its president, each 20% certificate is in the offering, or with a
/// player than whom no other holds more of the corporation.
pub fn governed_has_greatest_presidents()
    ensures { GovernedHasGreatestPresidents }
{}

/// The auction and the stock rounds name one and the same seat for priority until the first stock round begins, and in
/// it until the first purchase or sale.
pub fn priority_is_one()
    ensures { PriorityIsOne }
{}

/// The first stock round begins with the turn of the seat that has priority by the auction.
pub fn first_turn_is_of_priority()
    ensures { FirstTurnIsOfPriority }
{}

/// At a table in good order each 20% certificate is in the offering, or with a player than whom no other holds more of
/// the corporation.
pub fn good_order_has_greatest_presidents()
    ensures { GoodOrderHasGreatestPresidents }
{}
