//! What a board has: hexes, homes and blocked hexes.
ghost use Rattle.std.specs.Prelude.{◌≡◌, option_map};
ghost use Rattle.rr_kit.specs.Board.Plan.{hex_named};

use rr_roster::{Corp, Private};
use rr_tiles::Tile;
use rr_words::HexName;

/// How many centres a board has at most: each takes a byte of its text at least.
pub const MOST_CENTRES: usize = 65_536;

/// The greatest number by which a home names its city: the greatest of 16 bits.
pub const GREATEST_CENTRE: u16 = 65_535;

/// Where a hex is, by axial coordinates from -50 to 50. Across its edges 0 to 5 lie the places that
/// are (0,1), (-1,1), (-1,0), (0,-1), (1,-1) and (1,0) from it.
#[derive(Clone, Copy, Debug, PartialEq, Eq)]
pub struct Place {
    pub q: i8,
    pub r: i8,
}

/// The colour of a hex as it is printed.
#[derive(Clone, Copy, Debug, PartialEq, Eq)]
pub enum Colour {
    White,
    Yellow,
    Green,
    Brown,
    /// It never takes a tile.
    Grey,
    /// It never takes a tile, and may have off-board areas.
    Red,
}

/// A hex of the board.
#[derive(Debug, Drop)]
pub struct Hex {
    pub name: HexName,
    pub place: Place,
    pub colour: Colour,
    /// What the first tile on it costs, from 0 to 500 dollars.
    pub cost: u16,
    /// What is printed on it.
    pub tile: Tile,
}

/// The city at which a corporation begins.
#[derive(Clone, Copy, Debug)]
pub struct Home {
    pub corp: Corp,
    pub hex: HexName,
    /// The number of the city among the hex's centres, from 1 to `GREATEST_CENTRE`.
    pub centre: u64,
}

/// A hex that a private blocks.
#[derive(Clone, Copy, Debug)]
pub struct Block {
    pub private: Private,
    pub hex: HexName,
}

// The hex of a name, if there is one.
pub(crate) fn hex_named<'a>(hexes: &'a [Hex], name: &[u8]) -> Option<&'a Hex>
    ensures { option_map (λ hex. hex.now) result ≡ hex_named hexes.now name.now }
{
    hexes.iter().find(|hex| hex.name.as_bytes() == name)
}
