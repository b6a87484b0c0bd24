//! What always holds of tables that are taken back, and of the counts at the ends of their turns. The calls do no more
//! than those of `Ends`, most do nothing: their contracts hold of all tables.
ghost use Rattle.std.specs.Prelude.{◌≡◌, ◌<◌, ◌≤◌, All};
ghost use Rattle.rr_turns.specs.Ends.{BackKeepsItsCount, BackKeepsItsEnds, EachTurnHasItsEnd, EndsAreWithinTheCommands, EndsGrowAtTheEnd, TellsOneEndMore, TellsTheCountOfABack, TellsTheEndedTurns, TellsTheEndsOfABack};
ghost use Rattle.rr_turns.specs.Laws.{BackEndsWithItsTurn, BackToThePresentTurn, EndedTurnsStay, FloorsNeverFall, OneFrontEndsWithATurn, StampsNeverFall};

use crate::ends::Ends;
use crate::limits::{LONGEST_COMMAND, MOST_COMMANDS};

/// Each accepted request raises the stamp by one, a take-back too.
pub fn stamps_never_fall<C>()
    ensures { StampsNeverFall C }
{}

/// The floor never falls, and the turn at the floor stays one that has ended.
pub fn floors_never_fall<C>()
    ensures { FloorsNeverFall C }
{}

/// A table that is taken back to a turn has ended exactly the turns up to it, and keeps the commands up to that turn's
/// end.
pub fn back_ends_with_its_turn<C>()
    ensures { BackEndsWithItsTurn C }
{}

/// One front of a table's commands ends with a turn, and no other.
pub fn one_front_ends_with_a_turn<C>()
    ensures { OneFrontEndsWithATurn C }
{}

/// If a turn has just ended, going back to it changes nothing. A turn that is under way is dropped.
pub fn back_to_the_present_turn<C>()
    ensures { BackToThePresentTurn C }
{}

/// What is played later changes no turn that has ended.
pub fn ended_turns_stay<C>()
    ensures { EndedTurnsStay C }
{}

/// A table that is taken back to a turn keeps as many commands as were kept at that turn's end.
pub fn back_keeps_its_count<C>()
    ensures { BackKeepsItsCount C }
{}

/// A command that ends a turn adds one turn's end: the count of commands with it.
pub fn ends_grow_at_the_end<C>()
    ensures { EndsGrowAtTheEnd C }
{}

/// Each turn that has ended has its count, and turn 0 the opening's.
pub fn each_turn_has_its_end<C>()
    ensures { EachTurnHasItsEnd C }
{}

/// A table that is taken back to a turn keeps the counts of the turns up to that one.
pub fn back_keeps_its_ends<C>()
    ensures { BackKeepsItsEnds C }
{}

/// No turn's end keeps more commands than the table does.
pub fn ends_are_within_the_commands<C>()
    ensures { EndsAreWithinTheCommands C }
{}

/// If the counts are a table's and its next command ends a turn, `Ends::add` returns those of the table with it.
pub fn one_end_more<C>(ends: &mut Ends, count: usize)
    requires later { All (λ earlier. earlier < count) ends.old }
    requires most { count ≤ MOST_COMMANDS }
    ensures { TellsOneEndMore C ends.old count ends.new }
{
    ends.add(count);
}

/// If the counts are a table's, `Ends::through` returns those of the table taken back.
pub fn ends_of_a_back<C>(ends: &Ends, turn: usize) -> Ends
    ensures { TellsTheEndsOfABack C ends.now turn result }
{
    ends.through(turn)
}

/// If the counts are a table's, `Ends::kept_at` returns how many commands a take-back keeps.
pub fn count_of_a_back<C>(ends: &Ends, turn: usize) -> Option<usize>
    ensures { TellsTheCountOfABack C ends.now turn result }
{
    ends.kept_at(turn)
}

/// If the counts are a table's, `Ends::turns` returns how many of its turns have ended.
pub fn ended_turns<C>(ends: &Ends) -> usize
    ensures { TellsTheEndedTurns C ends.now result }
{
    ends.turns()
}

/// The limits in numbers.
pub fn limits()
    ensures commands { MOST_COMMANDS ≡ 4096 }
    ensures words { LONGEST_COMMAND ≡ 65535 }
{}
