//! Laws of the definitions, each the contract of a function that does nothing.
ghost use Rattle.rr_laws.specs.Turns.Turns.{LawfulCommandsAreOfTurns, PlaysOfTurnsKeepGoodOrder, RevenueIsNeverNegative, TurnsKeepGoodOrder};

/// A lawful command is one of those that a corporation's turn is made of.
pub fn lawful_commands_are_of_turns()
    ensures { LawfulCommandsAreOfTurns }
{}

/// Whatever lawful command of a corporation's turn is played at a table in good order, it stays in good order: what
/// bank, seats and corporations were paid is what they paid and nobody but the bank has less than nothing, each
/// certificate has a place of the table, the pool has at most half of each corporation, and each corporation awaits its
/// par or is led by its president. What the trains have earned in the turn isn't below nothing.
pub fn turns_keep_good_order()
    ensures { TurnsKeepGoodOrder }
{}

/// What the trains have earned in a turn, in dollars, is never below nothing, whatever command follows.
pub fn revenue_is_never_negative()
    ensures { RevenueIsNeverNegative }
{}

/// Whatever lawful commands of corporations' turns are played one after another at a table in good order, it stays in
/// good order, and what the trains have earned after them isn't below nothing.
pub fn plays_of_turns_keep_good_order()
    ensures { PlaysOfTurnsKeepGoodOrder }
{}
