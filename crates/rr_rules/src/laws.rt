//! Laws of the definitions, each the contract of a function that does nothing.
ghost use Rattle.rr_rules.specs.RuleLaws.{ActsHaveOneVerdict, BankruptcyEndsTheGame};

/// A command isn't refused for two reasons, nor refused and lawful.
pub fn acts_have_one_verdict()
    ensures { ActsHaveOneVerdict }
{
    rr_operate::laws::one_verdict();
}

/// Once a seat has said that it is bankrupt the game is over, whatever follows.
pub fn bankruptcy_ends_the_game()
    ensures { BankruptcyEndsTheGame }
{}
