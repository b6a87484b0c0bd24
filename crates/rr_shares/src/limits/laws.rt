//! Laws of the definitions, each the contract of a function that does nothing.
ghost use Rattle.rr_shares.specs.Limits.SaleLaws.{OneShareSuffices};

/// If a seat can lawfully sell any number of shares of any corporation, it can sell one share of some corporation.
pub fn one_share_suffices()
    ensures { OneShareSuffices }
{}
