//! The stock rounds as plain values, from which they can be made again.
ghost use Rattle.std.specs.Prelude.{◌≡◌, ◌↔◌, ◌<◌, ◌^◌, IsTrue, MatchOption};
ghost use Rattle.rr_rounds.specs.Parts.{AreRounds, parts_of, rounds_of, rounds_form};

use crate::purchases::Purchases;
use crate::rounds::Rounds;
use rr_books::Seat;
use rr_words::spelling::{Cursor, Spell};
use std::alloc::AllocError;

/// The most seats that a seat's number can tell apart.
const MOST_SEATS: u16 = 256;

/// The plain values of how far the stock rounds of a table have come.
#[derive(Clone, Copy, Debug)]
pub struct RoundsParts {
    /// How many seats the table has, and 0 before it has opened.
    pub players: u16,
    /// The stock rounds that have begun.
    pub begun: u64,
    pub under_way: bool,
    pub turn: Seat,
    /// Whether the seat in turn has bought or sold.
    pub traded: bool,
    pub purchases: Purchases,
    /// How many seats have passed in a row.
    pub passes: u64,
    pub priority: Seat,
    /// For each seat, which corporations it sold in this stock round.
    pub sales: [[bool; 8]; 6],
    /// The turns that have ended.
    pub turns: u64,
    /// Which corporations have floated.
    pub floated: [bool; 8],
}

/// The same values, one behind the other.
type Row = (
    u16,
    (
        u64,
        (
            bool,
            (
                Seat,
                (
                    bool,
                    (Purchases, (u64, (Seat, ([[bool; 8]; 6], (u64, [bool; 8]))))),
                ),
            ),
        ),
    ),
);

impl Spell for RoundsParts {
    ghost form = { rounds_form };

    fn write(&self, out: &mut Vec<u8>) -> Result<(), AllocError> {
        let counts = (self.sales, (self.turns, self.floated));
        let standing = (self.purchases, (self.passes, (self.priority, counts)));
        let turn = (self.turn, (self.traded, standing));
        let row: Row = (self.players, (self.begun, (self.under_way, turn)));
        row.write(out)
    }

    fn read(cursor: &mut Cursor) -> Option<RoundsParts> {
        let row = Row::read(cursor)?;
        let (players, (begun, (under_way, turn))) = row;
        let (turn, (traded, standing)) = turn;
        let (purchases, (passes, (priority, counts))) = standing;
        let (sales, (turns, floated)) = counts;
        Some(RoundsParts {
            players,
            begun,
            under_way,
            turn,
            traded,
            purchases,
            passes,
            priority,
            sales,
            turns,
            floated,
        })
    }
}

impl Rounds {
    /// The plain values of the rounds.
    pub fn parts(&self) -> RoundsParts
        ensures value { result ≡ parts_of self.now }
        ensures sound { AreRounds result }
    {
        RoundsParts {
            players: self.players,
            begun: self.begun,
            under_way: self.under_way,
            turn: self.turn,
            traded: self.traded,
            purchases: self.purchases,
            passes: self.passes,
            priority: self.priority,
            sales: self.sales,
            turns: self.turns,
            floated: self.floated,
        }
    }

    /// The rounds of these values, if rounds may have them: at most 256 seats, no more passes than turns, and seats of
    /// the table in turn and with priority, of a table without seats the first.
    pub fn from_parts(parts: RoundsParts) -> Option<Rounds>
        ensures { MatchOption result (AreRounds parts → ⊥) (λ rounds. AreRounds parts × (rounds ≡ rounds_of parts)) }
    {
        if !are_rounds(&parts) {
            return None;
        }
        Some(Rounds {
            players: parts.players,
            begun: parts.begun,
            under_way: parts.under_way,
            turn: parts.turn,
            traded: parts.traded,
            purchases: parts.purchases,
            passes: parts.passes,
            priority: parts.priority,
            sales: parts.sales,
            turns: parts.turns,
            floated: parts.floated,
        })
    }
}

// Whether rounds may have these values.
fn are_rounds(parts: &RoundsParts) -> bool
    ensures { IsTrue result ↔ AreRounds parts.now }
{
    let seats = parts.players.max(1);
    parts.players <= MOST_SEATS
        && parts.passes <= parts.turns
        && u16::from(parts.turn.0) < seats
        && u16::from(parts.priority.0) < seats
}
