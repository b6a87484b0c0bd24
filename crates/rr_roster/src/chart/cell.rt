ghost use Rattle.std.specs.Prelude.{◌≡◌};
ghost use Rattle.rr_roster.specs.Chart.Cell.{cell_of, priced};

use rr_words::small_number;

/// The colour of a cell. Which limits hold for the shares of a corporation depends on the colour of
/// the cell at which its price stands.
#[derive(Clone, Copy, Debug, PartialEq, Eq)]
pub enum Zone {
    /// All limits hold.
    White,
    /// Shares don't count against the certificate limit.
    Yellow,
    /// As yellow, and a player may hold more than 60%.
    Orange,
    /// As orange, and a turn may hold several purchases from the pool.
    Brown,
}

/// A cell of the chart.
#[derive(Clone, Copy, Debug, PartialEq, Eq)]
pub struct Cell {
    /// The price of a share, from 1 to 999.
    pub price: u16,
    pub zone: Zone,
    /// Whether a corporation may set its par value here. Such a cell is white.
    pub is_par: bool,
}

/// A place on the chart, whether it has a cell or not.
#[derive(Clone, Copy, Debug, PartialEq, Eq)]
pub struct Place {
    /// The row, from 0 at the top.
    pub row: usize,
    /// The column, from 0 at the left.
    pub column: usize,
}

/// A cell at which a corporation may set its par value.
#[derive(Clone, Copy, Debug, PartialEq, Eq)]
pub struct ParCell {
    /// The price of a share, from 1 to 999.
    pub price: u16,
    pub place: Place,
}

// `Some(None)` of the word for a place without a cell, `None` of a word that spells nothing.
pub(crate) fn cell_of(word: &[u8]) -> Option<Option<Cell>>
    ensures { result ≡ cell_of word.now }
{
    match word {
        [digits @ .., b'y'] => priced(digits, Zone::Yellow, false),
        [digits @ .., b'o'] => priced(digits, Zone::Orange, false),
        [digits @ .., b'b'] => priced(digits, Zone::Brown, false),
        [digits @ .., b'p'] => priced(digits, Zone::White, true),
        [b'.'] => Some(None),
        _ => priced(word, Zone::White, false),
    }
}

fn priced(digits: &[u8], zone: Zone, is_par: bool) -> Option<Option<Cell>>
    ensures { result ≡ priced digits.now zone is_par }
{
    let price = small_number(digits, 1, 999)?;
    Some(Some(Cell {
        price,
        zone,
        is_par,
    }))
}
