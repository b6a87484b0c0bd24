//! A table told again from what a file keeps of it.
ghost use Rattle.std.specs.Prelude.{◌≡◌, ◌≢◌, length, IfSome, MatchOption};
ghost use Rattle.rr_game.specs.History.Tables.{kept_in};

use crate::Game;
use crate::history::kept::KeptCommands;
use crate::history::table::Table;

impl Table {
    /// The table that keeps these commands, at a game that has played as many: its floor is 0, and its stamp their
    /// number. Nothing is judged: a file tells both. None where the game has played more or fewer.
    pub fn of_kept(kept: KeptCommands, game: Game) -> Option<Table>
        ensures value { MatchOption result (game.played ≢ length kept.commands)
            (λ table. (kept_in table ≡ record { commands = kept.commands; floor = 0; stamp = length kept.commands })
            × (table.game ≡ game) × (table.kept ≡ kept)) }
        ensures counted { IfSome result (λ table. game.played ≡ length kept.commands) }
    {
        let count = kept.len();
        if game.played() as usize != count {
            return None;
        }
        Some(Table {
            game,
            kept,
            floor: 0,
            stamp: count as u64,
        })
    }
}
