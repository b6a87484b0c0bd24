//! The operating rounds as plain values, from which they can be made again.
ghost use Rattle.std.specs.Prelude.{◌≡◌, MatchOption};
ghost use Rattle.rr_market.specs.Operations.Parts.{AreOperations, operations_form, operations_of, parts_of};

use crate::Market;
use crate::operations::operations::Operations;
use crate::operations::turn::{Stage, TurnStep};
use crate::parts::MarketParts;
use rr_rounds::{Rounds, RoundsParts};
use rr_words::spelling::{Cursor, Spell};
use std::alloc::AllocError;

/// The plain values of how far the operating rounds of a table have come.
#[derive(Clone, Copy, Debug)]
pub struct OperationsParts {
    pub stage: Stage,
    /// The sets of operating rounds that have begun.
    pub sets: u64,
    /// The rounds of the last set that have begun.
    pub round: u64,
    /// The rounds that the last set has.
    pub set_length: u8,
    /// Which corporations had their turn in the last round.
    pub turns: [bool; 8],
    pub step: TurnStep,
    pub has_run: bool,
    /// The least that the bank's balance was after any entry, in dollars, and 0 before the first.
    pub lowest: i64,
    /// Whether a seat said that it is bankrupt.
    pub bankrupt: bool,
    /// The tokens on the chart as the turn began.
    pub market: MarketParts,
    /// The stock rounds as the turn began.
    pub stock: RoundsParts,
}

/// The same values, one behind the other.
type Row = (Stage, (u64, (u64, (u8, ([bool; 8], Turn)))));

/// Those of the turn and behind it.
type Turn = (TurnStep, (bool, (i64, (bool, (MarketParts, RoundsParts)))));

impl Spell for OperationsParts {
    ghost form = { operations_form };

    fn write(&self, out: &mut Vec<u8>) -> Result<(), AllocError> {
        let views = (self.market, self.stock);
        let turn = (
            self.step,
            (self.has_run, (self.lowest, (self.bankrupt, views))),
        );
        let set = (self.round, (self.set_length, (self.turns, turn)));
        let row: Row = (self.stage, (self.sets, set));
        row.write(out)
    }

    fn read(cursor: &mut Cursor) -> Option<OperationsParts> {
        let row = Row::read(cursor)?;
        let (stage, (sets, (round, (set_length, (turns, turn))))) = row;
        let (step, (has_run, (lowest, (bankrupt, views)))) = turn;
        let (market, stock) = views;
        Some(OperationsParts {
            stage,
            sets,
            round,
            set_length,
            turns,
            step,
            has_run,
            lowest,
            bankrupt,
            market,
            stock,
        })
    }
}

impl Operations {
    /// The plain values of the operating rounds.
    pub fn parts(&self) -> OperationsParts
        ensures value { result ≡ parts_of self.now }
        ensures sound { AreOperations result }
    {
        OperationsParts {
            stage: self.stage,
            sets: self.sets,
            round: self.round,
            set_length: self.set_length,
            turns: self.turns,
            step: self.step,
            has_run: self.has_run,
            lowest: self.lowest,
            bankrupt: self.bankrupt,
            market: self.market.parts(),
            stock: self.stock.parts(),
        }
    }

    /// The operating rounds of these values, if operating rounds may have them: the tokens are those of a market, and
    /// the stock rounds are rounds.
    pub fn from_parts(parts: OperationsParts) -> Option<Operations>
        ensures { MatchOption result (AreOperations parts → ⊥) (λ operations. AreOperations parts × (operations ≡ operations_of parts)) }
    {
        let turns = parts.turns;
        let market = Market::from_parts(parts.market)?;
        let stock = Rounds::from_parts(parts.stock)?;
        Some(Operations {
            stage: parts.stage,
            sets: parts.sets,
            round: parts.round,
            set_length: parts.set_length,
            turns,
            step: parts.step,
            has_run: parts.has_run,
            lowest: parts.lowest,
            bankrupt: parts.bankrupt,
            market,
            stock,
        })
    }
}
