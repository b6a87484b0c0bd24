//! The board of a kit.
ghost use Rattle.std.specs.Prelude.{◌≡◌, option_map, IfOk, MatchResult};
ghost use Rattle.rr_kit.specs.Board.Plan.{hex_named};

use crate::board::draft::Draft;
use crate::board::fault::Fault;
use crate::board::hex::{Block, Hex, Home, hex_named};
use std::alloc::Global;
use std::marker::Model;

/// The board of a kit.
#[derive(Debug, Drop)]
pub struct Board {
    hexes: Vec<Hex>,
    homes: Vec<Home>,
    blocks: Vec<Block>,
}

impl Model for Board {
    ghost use Rattle.rr_kit.specs.Board.Plan.{Plan};
    ghost use Rattle.rr_kit.specs.Board.Sound.{IsWholeBoard};

    ghost Value = { Plan };

    ghost view = { λ board. record { hexes = board.hexes.items; homes = board.homes.items; blocks = board.blocks.items } };

    ghost invariant = { λ board. IsWholeBoard (record { hexes = board.hexes.items; homes = board.homes.items; blocks = board.blocks.items }) };
}

impl Board {
    ghost use Rattle.rr_kit.specs.Board.Plan.{Plan};
    ghost use Rattle.rr_kit.specs.Board.Reading.{Spells, IsRefusal};
    ghost use Rattle.rr_kit.specs.Board.Sound.{IsWholeBoard};

    /// Reads a board from its text.
    ///
    /// `hex <name> <q>,<r> <colour> [cost=N] <tile text>` is a hex: its name has 1 to 4 capital letters
    /// or digits, q and r go from -50 to 50, the colour is white, yellow, green, brown, grey or red, and
    /// the cost goes from 0 to 500. No name and no place stands twice, and there are 1 to 200 hexes.
    /// Off-board areas stand in red hexes only. `home <corporation> <hex> <centre>` is the city at which
    /// a corporation begins: a corporation has one at most, and no city is home to more corporations
    /// than it has slots. `block <private> <hex>` is a hex that a private blocks. A home and a block
    /// stand behind their hex. Empty lines, lines of spaces alone and lines that begin with `#` are
    /// skipped, but are counted.
    ///
    /// # Errors
    ///
    /// `BadBoard` with the first wrong line, or with 0 where the text is not ASCII, is longer than
    /// 65,536 bytes or has no hex; `OutOfMemory` at any text of ASCII that is no longer.
    pub fn read(alloc: Global, text: &str) -> Result<Board, Fault>
        ensures read { MatchResult result (λ board. Spells text.now board) (λ fault. IsRefusal text.now fault) }
        ensures only { IfOk result (λ board. (other : Plan) → Spells text.now other → other ≡ board) }
    {
        let Some(rows) = rr_words::rows(alloc, text)? else {
            return Err(Fault::BadBoard { line: 0 });
        };
        let draft = Draft::read_rows(alloc, &rows)?;
        if draft.hexes.is_empty() {
            return Err(Fault::BadBoard { line: 0 });
        }
        Ok(Board::of(draft))
    }

    fn of(draft: Draft) -> Board
        requires { IsWholeBoard draft }
        ensures { result ≡ draft }
    {
        let Draft {
            hexes,
            homes,
            blocks,
        } = draft;
        Board {
            hexes,
            homes,
            blocks,
        }
    }

    /// The hexes, in board order.
    pub fn hexes(&self) -> &[Hex]
        ensures { result.now ≡ self.now.hexes }
    {
        self.hexes.as_slice()
    }

    /// The homes of corporations. A corporation without one gets no token by itself.
    pub fn homes(&self) -> &[Home]
        ensures { result.now ≡ self.now.homes }
    {
        self.homes.as_slice()
    }

    /// The hexes that privates block.
    pub fn blocks(&self) -> &[Block]
        ensures { result.now ≡ self.now.blocks }
    {
        self.blocks.as_slice()
    }

    /// The hex of a name, if there is one.
    pub fn hex(&self, name: &[u8]) -> Option<&Hex>
        ensures { option_map (λ hex. hex.now) result ≡ hex_named self.now.hexes name.now }
    {
        hex_named(&self.hexes, name)
    }

    /// Does nothing: what is true of every board, for a caller's proof.
    pub fn keeps_rules(&self)
        ensures { IsWholeBoard self.now }
    {
        let _ = &self.hexes;
    }
}
