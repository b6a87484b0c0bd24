//! Laws of the definitions, each the contract of a function that does nothing.
ghost use Rattle.rr_operate.specs.Sets.SetLaws.{RoundsPass};
ghost use Rattle.rr_operate.specs.Sets.WorkedSets.{WorkedSets, WorkedTokens};

/// Rounds without a turn pass, each with its incomes, and the game ends with a set.
pub fn worked_sets()
    ensures { WorkedSets }
{}

/// A corporation's first token, and no second one.
pub fn worked_tokens()
    ensures { WorkedTokens }
{}

/// After what passes by itself, a round that is over is the last one of the game; else a corporation is due, or a stock
/// round has begun.
pub fn rounds_pass()
    ensures { RoundsPass }
{}
