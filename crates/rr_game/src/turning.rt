//! Which commands end a turn, and how many were played at each turn's end.
ghost use Rattle.std.specs.Prelude.{◌≡◌, ◌+◌, ◌<◌, ◌≤◌, ◌++◌, List, [], ◌∷◌, IfSome, length, slice_get};
ghost use Rattle.rr_turns.specs.declared.limits.TheConstants.{MOST_COMMANDS};
ghost use Rattle.rr_code.specs.declared.command.Command.{Command as Line};
ghost use Rattle.rr_kit.specs.declared.kit.Kit.{Kit as AnyKit};
ghost use Rattle.rr_rules.specs.State.{IsStandingOf};
ghost use Rattle.rr_turns.specs.Ends.{turn_ends};
ghost use Rattle.rr_turns.specs.Turns.{ended_turns};
ghost use Rattle.rr_game.specs.Keeping.{IsGameOf};
ghost use Rattle.rr_game.specs.Play.{play};
ghost use Rattle.rr_game.specs.Turning.{AreWithin, ends_turn, order_ends_turn, owes_par};

use crate::due;
use crate::game::Game;
use rr_code::{Command, Order};
use rr_rules::Standing;
use rr_turns::Ends;

impl Game {
    /// How many turns have ended. The opening belongs to turn 0, which isn't one of them.
    pub fn turns(&self) -> u64
        ensures value { result + 1 ≡ length self.now.ends }
        ensures ended { (kit : AnyKit) (accepted : List Line) → IsGameOf kit accepted self.now →
            result ≡ ended_turns (ends_turn kit) accepted }
        ensures few { result < self.now.played }
    {
        self.ends.turns() as u64
    }

    /// How many commands were played at the end of a turn, the opening among them, if the turn has ended.
    pub(crate) fn played_at(&self, turn: u64) -> Option<usize>
        ensures value { result ≡ slice_get self.now.ends turn }
        ensures few { IfSome result (λ count. (1 ≤ count) × (count ≤ self.now.played)) }
    {
        self.ends.kept_at(turn as usize)
    }

    /// The counts at the ends of turns after a command, behind which the game stands so.
    pub(crate) fn ends_after(&self, command: &Command, after: &Standing) -> Ends
        requires { self.now.played < MOST_COMMANDS }
        ensures ends { (kit : AnyKit) (accepted : List Line) → IsGameOf kit accepted self.now →
            IsStandingOf (play kit (accepted ++ command.now ∷ [])) after.now →
            result ≡ turn_ends (ends_turn kit) (accepted ++ command.now ∷ []) }
        ensures within { AreWithin (self.now.played + 1) result }
    {
        if !ends_turn(command, &self.standing, after) {
            return self.ends;
        }
        let mut ends = self.ends;
        ends.add(self.played as usize + 1);
        ends
    }
}

/// Whether the command that led from one standing to the other ended a turn.
fn ends_turn(command: &Command, before: &Standing, after: &Standing) -> bool
    ensures { (kit : AnyKit) (commands : List Line) → IsStandingOf (play kit commands) before.now →
        IsStandingOf (play kit (commands ++ command.now ∷ [])) after.now → result ≡ ends_turn kit commands command.now }
{
    match command {
        Command::BuyPrivate { .. } | Command::Bid { .. } | Command::Pass { .. } => !owes_par(after),
        Command::Par { .. } => owes_par(before),
        Command::Done { .. } => true,
        Command::Open { .. }
        | Command::BuyShare { .. }
        | Command::Sell { .. }
        | Command::Swap { .. } => false,
        Command::Order(order) => order_ends_turn(order),
    }
}

/// Whether the B&O's par is due.
fn owes_par(standing: &Standing) -> bool
    ensures { (kit : AnyKit) (commands : List Line) → IsStandingOf (play kit commands) standing.now →
        result ≡ owes_par kit commands }
{
    due::owes_par(standing.position())
}

/// Whether the order ends a turn.
fn order_ends_turn(order: &Order) -> bool
    ensures { result ≡ order_ends_turn order.now }
{
    match order {
        Order::End { .. } | Order::Bankrupt { .. } => true,
        _ => false,
    }
}
