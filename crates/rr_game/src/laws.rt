//! What always holds of the commands of a game, of its plain values and of their bytes. The calls do nothing but the
//! last: their contracts hold of all commands and values.
ghost use Rattle.std.specs.Prelude.{◌≡◌, Some, IfOk};
ghost use Rattle.rr_game.specs.Laws.{CommandsHaveOneVerdict};
ghost use Rattle.rr_game.specs.Parts.{GamesHaveTheirParts, PartsHaveOneSpelling, PartsMakeTheGame};

use crate::game::Game;
use std::alloc::{AllocError, Global};

/// Each command has one verdict, whatever the table's kit, players and state are.
pub fn commands_have_one_verdict()
    ensures { CommandsHaveOneVerdict }
{
    rr_rules::laws::acts_have_one_verdict();
}

/// A game and its plain values stand for one another, and bytes are those of one game's values at most.
pub fn games_have_their_parts()
    ensures made { PartsMakeTheGame }
    ensures told { GamesHaveTheirParts }
    ensures spelled { PartsHaveOneSpelling }
{}

/// Each game is made again of its plain values.
///
/// # Errors
///
/// `AllocError` where there is no memory for its position.
pub fn made_again(alloc: Global, game: &Game) -> Result<Option<Game>, AllocError>
    ensures { IfOk result (λ again. again ≡ Some game.now) }
{
    Game::from_parts(alloc, &game.parts())
}
