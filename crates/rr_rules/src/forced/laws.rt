//! Laws of the definitions, each the contract of a function that does nothing.
ghost use Rattle.rr_rules.specs.Forced.SaleLaws.{OneShareSuffices};
ghost use Rattle.rr_rules.specs.Forced.WorkedNeeds.{WorkedForce};
ghost use Rattle.rr_rules.specs.Forced.WorkedSales.{WorkedBankruptcy, WorkedPresidency, WorkedRaise};

/// If a president can lawfully sell any number of shares of any corporation for a train, it can sell one share of some
/// corporation.
pub fn one_share_suffices()
    ensures { OneShareSuffices }
{}

/// A corporation with 50 and a president with 40 buy a 2 for 80: the president adds 30. With a president of 25 it is
/// too little.
pub fn worked_force()
    ensures { WorkedForce }
{}

/// A president of 25 sells a share at 100 for the same train; one of 40 doesn't need to.
pub fn worked_raise()
    ensures { WorkedRaise }
{}

/// The corporation that is due keeps its president in a forced sale.
pub fn worked_presidency()
    ensures { WorkedPresidency }
{}

/// A president of 25 is bankrupt where no share of its can be sold.
pub fn worked_bankruptcy()
    ensures { WorkedBankruptcy }
{}
