ghost use Rattle.std.specs.Prelude.{◌≡◌};

use rr_reading::dir::{ChainRef, KitChains};

/// Where the present root holds a text: its chain's first page and length, as the directory names them, and all pages
/// of that chain.
#[derive(Drop)]
pub struct TextPages {
    pub chain: ChainRef,
    pub pages: Vec<u32>,
}

/// Where the present root holds the four texts of a kit, and what the bank begins with by its roster. A checkpoint
/// keeps the texts there, and its directory says the bank.
#[derive(Drop)]
pub struct KitPages {
    pub chart: TextPages,
    pub roster: TextPages,
    pub tiles: TextPages,
    pub board: TextPages,
    /// In dollars.
    pub bank: u64,
}

impl KitPages {
    ghost use Rattle.rr_checkpoint.specs.Plan.Kit.{kit_chains};

    // The chains as the directory names them.
    pub(crate) fn chains(&self) -> KitChains
        ensures { result ≡ kit_chains self.now }
    {
        KitChains {
            chart: self.chart.chain,
            roster: self.roster.chain,
            tiles: self.tiles.chain,
            board: self.board.chain,
        }
    }
}
