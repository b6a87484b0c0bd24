//! Laws of the definitions, each the contract of a function that does nothing.
ghost use Rattle.rr_shares.specs.Presidents.{HeirHasTheMost, PresidentHasTheMost, SalesKeepAPresident, StaysWithASeat};
ghost use Rattle.rr_shares.specs.Sales.{SalesMoveShares};
ghost use Rattle.rr_shares.specs.WorkedHeirs.{WorkedHeirs};

/// A corporation that has a president before shares are bought or sold has one afterwards: its 20% certificate is never
/// in the pool.
pub fn presidency_stays_with_a_seat()
    ensures bought { StaysWithASeat }
    ensures sold { SalesKeepAPresident }
{}

/// The heir of a president is at the table and has more, and no seat has more than the heir; where there is none, no
/// seat has more than the president.
pub fn heir_has_the_most()
    ensures { HeirHasTheMost }
{}

/// If a seat of the table is a corporation's president, one is after the presidency was settled, and nobody at the
/// table holds more of the corporation than that one.
pub fn president_has_the_most()
    ensures { PresidentHasTheMost }
{}

/// A sale by a seat that holds what it sells moves just those shares to the pool, and nobody at the table holds more
/// than the president then; a president that sells keeps 20%, or another seat has as much to take over.
pub fn sales_move_shares()
    ensures { SalesMoveShares }
{}

/// If two seats have equally many shares, the nearer one on the president's left takes over. A president who has no
/// fewer than they stays.
pub fn worked_heirs()
    ensures { WorkedHeirs }
{}
