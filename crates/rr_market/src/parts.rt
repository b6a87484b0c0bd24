//! The market as plain values, from which it can be made again.
ghost use Rattle.std.specs.Prelude.{◌≡◌, MatchOption};
ghost use Rattle.rr_market.specs.Parts.{AreMarket, market_form, market_of, parts_of, token_form};

use crate::arrivals::Arrivals;
use crate::market::{Market, Token};
use rr_books::Cell;
use rr_words::spelling::{Cursor, Spell};
use std::alloc::AllocError;

/// The plain values of the tokens on the stock chart.
#[derive(Clone, Copy, Debug)]
pub struct MarketParts {
    /// Each corporation's token, where it is on the chart.
    pub tokens: [Option<Token>; 8],
    /// Which corporation's token moved more recently than which: a different number from 0 to 7 for each.
    pub ranks: [u8; 8],
}

/// A token's cells, by row and column.
type TokenRow = ((u8, u8), (u8, u8));

impl Spell for Token {
    ghost form = { token_form };

    fn write(&self, out: &mut Vec<u8>) -> Result<(), AllocError> {
        let first = (self.first.row, self.first.column);
        let row: TokenRow = (first, (self.cell.row, self.cell.column));
        row.write(out)
    }

    fn read(cursor: &mut Cursor) -> Option<Token> {
        let cells = TokenRow::read(cursor)?;
        let (first, cell) = cells;
        let (first_row, first_column) = first;
        let (row, column) = cell;
        Some(Token {
            first: Cell {
                row: first_row,
                column: first_column,
            },
            cell: Cell { row, column },
        })
    }
}

/// The same values, one behind the other.
type Row = ([Option<Token>; 8], [u8; 8]);

impl Spell for MarketParts {
    ghost form = { market_form };

    fn write(&self, out: &mut Vec<u8>) -> Result<(), AllocError> {
        let row: Row = (self.tokens, self.ranks);
        row.write(out)
    }

    fn read(cursor: &mut Cursor) -> Option<MarketParts> {
        let row = Row::read(cursor)?;
        let (tokens, ranks) = row;
        Some(MarketParts { tokens, ranks })
    }
}

impl Market {
    /// The plain values of the market.
    pub fn parts(&self) -> MarketParts
        ensures value { result ≡ parts_of self.now }
        ensures sound { AreMarket result }
    {
        MarketParts {
            tokens: self.tokens,
            ranks: self.arrivals.ranks(),
        }
    }

    /// The market of these values, if a market may have them: the ranks are different numbers below 8. It isn't asked
    /// whether the cells are on a chart: a market has none.
    pub fn from_parts(parts: MarketParts) -> Option<Market>
        ensures { MatchOption result (AreMarket parts → ⊥) (λ market. AreMarket parts × (market ≡ market_of parts)) }
    {
        let MarketParts { tokens, ranks } = parts;
        let arrivals = Arrivals::from_ranks(ranks)?;
        Some(Market { tokens, arrivals })
    }
}
