//! Laws of the definitions, each the contract of a function that does nothing.
ghost use Rattle.rr_operate.specs.TurnLaws.{DiscardsComeFirst, OneVerdict, OnlyTheCorporationDue, StepsAreKept};
ghost use Rattle.rr_operate.specs.WorkedTurn.{WorkedOrder, WorkedRun, WorkedTurnEnd};

/// A command has one verdict.
pub fn one_verdict()
    ensures { OneVerdict }
{
    rr_running::laws::one_verdict_on_a_run();
}

/// A lawful command acts for the corporation that is due, unless it gives up a train.
pub fn only_the_corporation_due()
    ensures { OnlyTheCorporationDue }
{}

/// While some corporation is over the train limit, a lawful command gives up a train.
pub fn discards_come_first()
    ensures { DiscardsComeFirst }
{}

/// A lawful command is one that the step of the turn takes.
pub fn steps_are_kept()
    ensures { StepsAreKept }
{}

/// Trains over a limit are given up before anything else, and a wrong step is reported before a wrong turn.
pub fn worked_order()
    ensures { WorkedOrder }
{}

/// A corporation with a train ends its turn, and the next round begins; what its trains earned is forgotten. One
/// without a train could buy one of the pool.
pub fn worked_turn_end()
    ensures { WorkedTurnEnd }
{}

/// A run is its words, after the certificate if there is one.
pub fn worked_run()
    ensures { WorkedRun }
{}
