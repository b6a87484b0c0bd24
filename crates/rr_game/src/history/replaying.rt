//! Commands played again, from the opening or from a snapshot on.
ghost use Rattle.std.specs.Prelude.{◌≡◌, ◌-◌, ◌≤◌, [], ◌∷◌, length, take, IfOk, IsOkUnless, MatchResult, if◌then◌else◌};
ghost use Rattle.rr_game.specs.Keeping.{IsGameOf};
ghost use Rattle.rr_game.specs.Play.{begins_with_opening};
ghost use Rattle.rr_game.specs.History.Playing.{ArePlayed};

use crate::Game;
use crate::history::fault::Fault;
use crate::history::kept::KeptCommands;
use rr_books::Refusal;
use rr_code::Command;
use rr_kit::Kit;
use std::alloc::Global;

/// A game to which commands were played, and how many they were.
#[derive(Drop)]
pub(crate) struct Replayed {
    pub(crate) game: Game,
    pub(crate) plays: usize,
}

/// Plays the first so many commands of a table again.
///
/// # Errors
///
/// `OutOfMemory`; and what the game refuses, which doesn't come where the commands were played.
pub(crate) fn replay(
    alloc: Global,
    kept: &KeptCommands,
    count: usize,
    kit: &Kit,
) -> Result<Replayed, Fault>
    requires some { 1 ≤ count }
    requires within { count ≤ length kept.now.commands }
    ensures played { IfOk result (λ new. new.game.played ≡ count) }
    ensures plays { IfOk result (λ new. new.plays ≡ count - 1) }
    ensures game { IfOk result (λ new. IsGameOf kit.now (take count kept.now.commands) new.game) }
    ensures memory { ∥ ArePlayed kit.now (take count kept.now.commands) ∥₁ → IsOkUnless result Fault.OutOfMemory }
{
    let game = opened(alloc, &kept.command(0), kit)?;
    play_on(alloc, game, kept, count, kit)
}

/// The game that an opening begins.
///
/// # Errors
///
/// `OutOfMemory` for an opening. Another command opens no table, and comes at the wrong step.
fn opened(alloc: Global, opening: &Command, kit: &Kit) -> Result<Game, Fault>
    ensures { MatchResult result
        (λ game. IsGameOf kit.now (opening.now ∷ []) game)
        (λ fault. fault ≡ (if begins_with_opening (opening.now ∷ []) then Fault.OutOfMemory else Fault.Game Refusal.WrongStep)) }
{
    match opening {
        Command::Open { players } => Ok(Game::open(alloc, *players, kit)?),
        _ => Err(Fault::Game(Refusal::WrongStep)),
    }
}

/// Plays a table's commands on, from a game that has so many of them behind it up to the first so many.
///
/// # Errors
///
/// `OutOfMemory`; and what the game refuses, which doesn't come where the commands were played.
pub(crate) fn play_on(
    alloc: Global,
    game: Game,
    kept: &KeptCommands,
    count: usize,
    kit: &Kit,
) -> Result<Replayed, Fault>
    requires order { game.played ≤ count }
    requires within { count ≤ length kept.now.commands }
    ensures played { IfOk result (λ new. new.game.played ≡ count) }
    ensures plays { IfOk result (λ new. new.plays ≡ count - game.played) }
    ensures game { IfOk result (λ new. IsGameOf kit.now (take game.played kept.now.commands) game →
        IsGameOf kit.now (take count kept.now.commands) new.game) }
    ensures memory { IsGameOf kit.now (take game.played kept.now.commands) game →
        ∥ ArePlayed kit.now (take count kept.now.commands) ∥₁ → IsOkUnless result Fault.OutOfMemory }
{
    crate::laws::commands_have_one_verdict();
    // A table keeps few enough commands.
    let _count = kept.len();
    let start = game.played as usize;
    let mut next = game;
    let mut plays = 0;
    for place in start..count {
        let command = kept.command(place);
        next = next.step(alloc, &command, kit)?;
        plays += 1;
    }
    Ok(Replayed { game: next, plays })
}
