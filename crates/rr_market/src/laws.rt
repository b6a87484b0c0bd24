//! Laws of the definitions, each the contract of a function that does nothing.
ghost use Rattle.rr_market.specs.Marks.{ArrivalsDiffer};
ghost use Rattle.rr_market.specs.Moves.{SalesFall};
ghost use Rattle.rr_market.specs.Order.{OperatingOrderIsInOrder};

/// The operating order has each corporation with a price once and no other, and none of them operates before one that
/// stands before it.
pub fn operating_order_is_in_order()
    ensures { OperatingOrderIsInOrder }
{}

/// A sale drops a token by a row for each 10% share, or by fewer to the cell above the first missing one.
pub fn sales_fall()
    ensures { SalesFall }
{}

/// The tokens of two corporations never arrive at once, so that no two of them operate at once.
pub fn arrivals_differ()
    ensures { ArrivalsDiffer }
{}
