/// Where a share is bought.
#[derive(Clone, Copy, Debug, PartialEq, Eq)]
pub enum ShareSource {
    /// The initial offering, at par.
    Offer,
    /// The bank's pool, at the market's price.
    Pool,
}

/// Where a train is bought, if not from a corporation.
#[derive(Clone, Copy, Debug, PartialEq, Eq)]
pub enum TrainSource {
    /// The bank, at the price of its kind.
    Bank,
    /// The bank's pool, at the same price.
    Pool,
}
