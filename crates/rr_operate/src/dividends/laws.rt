//! Laws of the definitions, each the contract of a function that does nothing.
ghost use Rattle.rr_operate.specs.Dividends.DividendLaws.{DividendsMoveTokens, EntriesAreThese, NobodyIsPaidForTheOffering, PaysEachHolder, WithholdingPaysTheCorporation};
ghost use Rattle.rr_operate.specs.Dividends.WorkedDividends.{WorkedDebt, WorkedDividend, WorkedEdge, WorkedWithholding};

/// A revenue of 100 is paid out where a seat holds 60%, the pool has 20% and the offering 20%; a bank that has 50 owes
/// 30 then.
pub fn worked_dividends()
    ensures dividend { WorkedDividend }
    ensures debt { WorkedDebt }
{}

/// Where tokens go, and when they stay; what a corporation keeps.
pub fn worked_moves()
    ensures edge { WorkedEdge }
    ensures withholding { WorkedWithholding }
{}

/// What a dividend adds follows from the book before it: the command's words, a payment to each seat in seating order
/// and one to the corporation for the pool, and the token's mark, if it moves.
pub fn entries_are_these()
    ensures { EntriesAreThese }
{}

/// A revenue that is paid out is shared by percentage: each seat gains the part of its shares, the corporation that of
/// the pool's, no other corporation anything, and the bank loses just what these gain, whatever it has.
pub fn pays_each_holder()
    ensures { PaysEachHolder }
{}

/// A revenue that is withheld goes to the corporation whole.
pub fn withholding_pays_the_corporation()
    ensures { WithholdingPaysTheCorporation }
{}

/// A dividend that is paid moves the corporation's token right, one that is withheld left, and no other token.
pub fn dividends_move_tokens()
    ensures { DividendsMoveTokens }
{}

/// Nobody is paid for the shares in the offering, so that no more than the revenue is paid.
pub fn nobody_is_paid_for_the_offering()
    ensures { NobodyIsPaidForTheOffering }
{}
