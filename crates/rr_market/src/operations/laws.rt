//! Laws of the definitions, each the contract of a function that does nothing.
ghost use Rattle.rr_market.specs.Operations.OperatingLaws.{BankruptciesAreRemembered, DebtsAreRemembered, DueStays, SetsKeepTheirLength, StepsNeverGoBack, TurnsAreOfTheirRound, TurnsComeOnce};
ghost use Rattle.rr_market.specs.Operations.WorkedRound.{WorkedRound};

/// If each command is one that the step takes, a turn's steps never go back.
pub fn steps_never_go_back()
    ensures { StepsNeverGoBack }
{}

/// The corporation due stays until a turn ends or a round begins, whatever is marked on the chart meanwhile.
pub fn due_stays()
    ensures { DueStays }
{}

/// A corporation had its turn in an operating round exactly if it said `end` since the round began.
pub fn turns_are_of_their_round()
    ensures { TurnsAreOfTheirRound }
{}

/// A corporation that had its turn isn't due again until an operating round begins.
pub fn turns_come_once()
    ensures { TurnsComeOnce }
{}

/// A set has as many rounds as the phase said when its first one began, and they are counted from 1.
pub fn sets_keep_their_length()
    ensures { SetsKeepTheirLength }
{}

/// Whatever the bank began with, it counts as having owed exactly if it had less than nothing after some front of the
/// book.
pub fn debts_are_remembered()
    ensures { DebtsAreRemembered }
{}

/// A bankruptcy is known exactly if some entry of the book says so.
pub fn bankruptcies_are_remembered()
    ensures { BankruptciesAreRemembered }
{}

/// The PRR is due through all of its turn, whatever its token does; only in the next round the NYC comes first.
pub fn worked_round()
    ensures { WorkedRound }
{}
