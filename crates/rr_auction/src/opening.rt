ghost use Rattle.std.specs.Prelude.{◌≡◌, ℕ, List, ◌≤◌, length};
ghost use Rattle.rr_desk.specs.Position.Position.{IsPositionOf};
ghost use Rattle.rr_auction.specs.Opening.{opened};

use rr_desk::Position;
use rr_roster::Roster;

/// The position of a table that opens with so many players, once the auction has begun.
pub fn open_table(players: u8, roster: &Roster) -> Position
    requires least { 2 ≤ players }
    requires greatest { players ≤ 6 }
    ensures { (names : List (List ℕ)) → length names ≡ players → IsPositionOf (opened names roster.now) result }
{
    Position::open(players, roster)
}
