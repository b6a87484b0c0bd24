//! What always holds of the tables of a game. The calls do nothing: their contracts hold of all tables.
ghost use Rattle.std.specs.Prelude.{◌≡◌};
ghost use Rattle.rr_game.specs.History.Laws.{AcceptedTurnsAreKept, BackGoesToItsTurn, BackKeepsItsCount, BackPlaysFew, BackToThePresentTurn, PlayedTablesAreSeen, PlaysAreJudgedAlike, RequestsHaveOneVerdict, TablesGoOn, TurnsMakeTheBook};

use crate::history::snapshots::SNAPSHOT_SPACING;

/// A table that accepts one request more is that of all of them.
pub fn tables_go_on()
    ensures { TablesGoOn }
{}

/// A table that was taken back to a turn has the game of its turns up to that one.
pub fn back_goes_to_its_turn()
    ensures { BackGoesToItsTurn }
{}

/// A table that was taken back to a turn keeps the number of commands that its game has for that turn's end.
pub fn back_keeps_its_count()
    ensures { BackKeepsItsCount }
{}

/// If a turn has just ended, going back to it changes no game. What was played since a turn's end is dropped.
pub fn back_to_the_present_turn()
    ensures { BackToThePresentTurn }
{}

/// A request that isn't refused names a turn between the floor and the turns, if it names one.
pub fn accepted_turns_are_kept()
    ensures { AcceptedTurnsAreKept }
{}

/// Each request has one verdict, whatever its stamp and its table are.
pub fn requests_have_one_verdict()
    ensures { RequestsHaveOneVerdict }
{
    crate::laws::commands_have_one_verdict();
}

/// A table that has its snapshots is taken back by fewer commands than stand between two of them.
pub fn back_plays_few()
    ensures { BackPlaysFew }
{}

/// The entries of all turns, the turn under way included, joined in order make the table's book.
pub fn turns_make_the_book()
    ensures { TurnsMakeTheBook }
{}

/// A table whose game is the play of what it keeps is seen as that play, and so judged as the rules say of it. Of another
/// table nothing but its position says how it is judged.
pub fn played_tables_are_seen()
    ensures seen { PlayedTablesAreSeen }
    ensures judged { PlaysAreJudgedAlike }
{}

/// How many commands stand between two snapshots, in numbers.
pub fn spacing()
    ensures { SNAPSHOT_SPACING ≡ 64 }
{}
