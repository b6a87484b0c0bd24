//! Laws of the definitions, each the contract of a function that does nothing.
ghost use Rattle.rr_trains.specs.Depot.Over.{OverIsOfSomeCorporation};
ghost use Rattle.rr_trains.specs.Depot.PurchaseLaws.{BankSellsInOrder, NobodyOverspends, PrivatesGoAtFairPrices, PurchasesKeepTheLimit};
ghost use Rattle.rr_trains.specs.Depot.WorkedPurchases.{WorkedDiscard, WorkedFirstFour, WorkedPrivate, WorkedSale, WorkedTrade};

/// A corporation that lawfully buys a train of the bank, the pool or another corporation has no more trains then than
/// the phase before the purchase allows.
pub fn purchases_keep_the_limit()
    ensures { PurchasesKeepTheLimit }
{}

/// If the bank lawfully sells a train, all smaller kinds are sold; or it is a D, and a 6 was sold.
pub fn bank_sells_in_order()
    ensures { BankSellsInOrder }
{}

/// A private lawfully goes for no less than half its face and no more than twice that, from the first 3 until the first
/// 5.
pub fn privates_go_at_fair_prices()
    ensures { PrivatesGoAtFairPrices }
{}

/// If no seat and no corporation has less than nothing, none has after a lawful purchase or discard.
pub fn nobody_overspends()
    ensures { NobodyOverspends }
{}

/// Trains have to be given up exactly if some corporation has more than the phase allows.
pub fn over_is_of_some_corporation()
    ensures { OverIsOfSomeCorporation }
{}

/// As the first 4 is bought all 2s leave the game, and the train limit falls to 3.
pub fn worked_first_four()
    ensures { WorkedFirstFour }
{}

/// A corporation with a train too many gives one up to the pool, and one with as many as it may have none.
pub fn worked_discard()
    ensures { WorkedDiscard }
{}

/// A D costs 800 with a 4, which leaves the game.
pub fn worked_trade()
    ensures { WorkedTrade }
{}

/// One corporation sells another a train where both presidents agree.
pub fn worked_sale()
    ensures { WorkedSale }
{}

/// A player sells a corporation a private, for half to twice its face.
pub fn worked_private()
    ensures { WorkedPrivate }
{}
