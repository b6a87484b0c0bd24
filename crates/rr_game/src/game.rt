ghost use Rattle.std.specs.Prelude.{◌≡◌, ◌+◌, ◌<◌, ◌≤◌, ◌++◌, List, [], ◌∷◌, None, Some, IfOk, MatchResult};
ghost use Rattle.std.proofs.Props.{props};
ghost use Rattle.rr_turns.specs.declared.limits.TheConstants.{MOST_COMMANDS};
ghost use Rattle.rr_rules.specs.State.{GameState, IsStandingOf};
ghost use Rattle.rr_game.specs.Names.{amount_in};
ghost use Rattle.rr_game.specs.Play.{entries_of_command, play, players_of};
ghost use Rattle.rr_game.specs.Turning.{AreWithin};
ghost use Rattle.rr_game.specs.Verdict.{command_judgement, over_verdict};
ghost use Rattle.rr_turns.specs.Judgement.{IsVerdict, MayFind};

use rr_books::Refusal;
use rr_code::{Command, Players};
use rr_desk::Entries;
use rr_kit::Kit;
use rr_rules::Standing;
use rr_turns::Ends;
use std::alloc::{AllocError, Global};

/// One table's game. It is moved and not copied: its position is large, and in a box. The kit is lent to each call: the
/// one with which the table opened, always.
#[derive(Debug, Drop)]
pub struct Game {
    pub(crate) players: Players,
    pub(crate) standing: Standing,
    /// The commands that were played, the opening among them.
    pub(crate) played: u32,
    /// How many were played at the end of each turn.
    pub(crate) ends: Ends,
    ghost within: { AreWithin played ends } by { Prim.hlevel props },
}

/// The result of a command.
#[derive(Debug, Drop)]
pub(crate) struct Applied {
    /// The game after the command.
    pub(crate) game: Game,
    /// The entries that the command adds to the table's book, oldest first.
    pub(crate) entries: Entries,
}

impl Game {
    ghost use Rattle.rr_code.specs.declared.command.Command.{Command as Line};
    ghost use Rattle.rr_game.specs.Keeping.{IsGameOf};

    /// The game of a table that opens with these players.
    ///
    /// # Errors
    ///
    /// `AllocError` where there is no memory for its position.
    pub fn open(alloc: Global, players: Players, kit: &Kit) -> Result<Game, AllocError>
        ensures game { IfOk result (λ game. IsGameOf kit.now (Command.Open players ∷ []) game) }
        ensures played { IfOk result (λ game. game.played ≡ 1) }
    {
        let count = players.as_slice().len() as u8;
        let standing = Standing::open(alloc, count, kit.roster())?;
        Ok(Game {
            players,
            standing,
            played: 1,
            ends: Ends::opening(),
        })
    }

    /// How many commands were played, the opening among them.
    pub fn played(&self) -> u32
        ensures shown { result ≡ self.now.played }
    {
        self.played
    }

    /// The game after a command, which a refusal leaves as it is.
    ///
    /// # Errors
    ///
    /// `GameOver` once the game is over; `NoSuchName` for a player who isn't at the table; then what the rules in force
    /// refuse, in their order. An opening is refused as `WrongStep` while the game isn't over. `OutOfMemory` where none
    /// of those comes that take no memory.
    pub fn step(&self, alloc: Global, command: &Command, kit: &Kit) -> Result<Game, Refusal>
        requires played { self.now.played < MOST_COMMANDS }
        requires small { amount_in command.now ≤ 10000000000 }
        ensures verdict { (accepted : List Line) → IsGameOf kit.now accepted self.now → MatchResult result
            (λ _. IsVerdict (command_judgement kit.now (players_of accepted) (play kit.now accepted) command.now) None)
            (λ fault. MayFind (command_judgement kit.now (players_of accepted) (play kit.now accepted) command.now) Refusal.OutOfMemory fault) }
        ensures judged { (state : GameState) → IsStandingOf state self.now.standing → MatchResult result
            (λ _. IsVerdict (command_judgement kit.now self.now.players state command.now) None)
            (λ fault. MayFind (command_judgement kit.now self.now.players state command.now) Refusal.OutOfMemory fault) }
        ensures game { IfOk result (λ game. (accepted : List Line) → IsGameOf kit.now accepted self.now →
            IsGameOf kit.now (accepted ++ command.now ∷ []) game) }
        ensures played { IfOk result (λ game. game.played ≡ self.now.played + 1) }
    {
        let applied = self.apply(alloc, command, kit)?;
        Ok(applied.game)
    }

    /// The entries that a command would add to the table's book, oldest first. The game stays as it is.
    ///
    /// # Errors
    ///
    /// Those of `step`.
    pub fn entries(&self, alloc: Global, command: &Command, kit: &Kit) -> Result<Entries, Refusal>
        requires played { self.now.played < MOST_COMMANDS }
        requires small { amount_in command.now ≤ 10000000000 }
        ensures verdict { (accepted : List Line) → IsGameOf kit.now accepted self.now → MatchResult result
            (λ _. IsVerdict (command_judgement kit.now (players_of accepted) (play kit.now accepted) command.now) None)
            (λ fault. MayFind (command_judgement kit.now (players_of accepted) (play kit.now accepted) command.now) Refusal.OutOfMemory fault) }
        ensures entries { IfOk result (λ entries. (accepted : List Line) → IsGameOf kit.now accepted self.now →
            entries ≡ entries_of_command kit.now accepted command.now) }
    {
        let applied = self.apply(alloc, command, kit)?;
        Ok(applied.entries)
    }

    /// The game after a command, and the entries that the command adds.
    ///
    /// # Errors
    ///
    /// Those of `step`.
    pub(crate) fn apply(
        &self,
        alloc: Global,
        command: &Command,
        kit: &Kit,
    ) -> Result<Applied, Refusal>
        requires played { self.now.played < MOST_COMMANDS }
        requires small { amount_in command.now ≤ 10000000000 }
        ensures verdict { (accepted : List Line) → IsGameOf kit.now accepted self.now → MatchResult result
            (λ _. IsVerdict (command_judgement kit.now (players_of accepted) (play kit.now accepted) command.now) None)
            (λ fault. MayFind (command_judgement kit.now (players_of accepted) (play kit.now accepted) command.now) Refusal.OutOfMemory fault) }
        ensures judged { (state : GameState) → IsStandingOf state self.now.standing → MatchResult result
            (λ _. IsVerdict (command_judgement kit.now self.now.players state command.now) None)
            (λ fault. MayFind (command_judgement kit.now self.now.players state command.now) Refusal.OutOfMemory fault) }
        ensures game { IfOk result (λ applied. (accepted : List Line) → IsGameOf kit.now accepted self.now →
            IsGameOf kit.now (accepted ++ command.now ∷ []) applied.game) }
        ensures entries { IfOk result (λ applied. (accepted : List Line) → IsGameOf kit.now accepted self.now →
            applied.entries ≡ entries_of_command kit.now accepted command.now) }
        ensures played { IfOk result (λ applied. applied.game.played ≡ self.now.played + 1) }
    {
        self.judge_end(kit)?;
        let act = self.act(alloc, kit, command)?;
        let taken = self.standing.take(alloc, kit, &act)?;
        let ends = self.ends_after(command, &taken.standing);
        Ok(Applied {
            game: Game {
                players: self.players,
                standing: taken.standing,
                played: self.played + 1,
                ends,
            },
            entries: taken.entries,
        })
    }

    // Nothing is played once the game is over.
    pub(crate) fn judge_end(&self, kit: &Kit) -> Result<(), Refusal>
        ensures { (state : GameState) → IsStandingOf state self.now.standing → MatchResult result
            (λ _. over_verdict kit.now state ≡ None)
            (λ fault. over_verdict kit.now state ≡ Some fault) }
    {
        if self.standing.is_over(kit) {
            return Err(Refusal::GameOver);
        }
        Ok(())
    }
}
