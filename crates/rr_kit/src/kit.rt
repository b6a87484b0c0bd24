ghost use Rattle.std.specs.Prelude.{◌≡◌, MatchResult};
ghost use Rattle.rr_roster.specs.Chart.Reading.{Spells};
ghost use Rattle.rr_tiles.specs.Manifest as manifest;
ghost use Rattle.rr_kit.specs.Board.Reading as board;
ghost use Rattle.rr_kit.specs.Kits.{IsRosterText, RefusesBoard, RefusesChart, RefusesKit, RefusesManifest, RefusesRoster, SpellsKit, texts_of};

use crate::board::Board;
use crate::fault::Fault;
use rr_roster::Roster;
use rr_roster::chart::Chart;
use rr_tiles::Manifest;
use rr_words::text::TEXT_BYTES;
use std::alloc::Global;

/// What a table is played with: the stock chart, the roster, the manifest of tiles and the board.
#[derive(Debug, Drop)]
pub struct Kit {
    roster: Roster,
    chart: Chart,
    tiles: Manifest,
    board: Board,
}

impl Kit {
    /// Reads a kit from its four texts: stock chart, roster, manifest of tiles, and board.
    ///
    /// # Errors
    ///
    /// The first text that is refused, in the order chart, roster, tiles, board, gives the fault: `BadChart` with the
    /// first wrong word; `BadRoster`, or `RosterRule` with the first rule broken; `BadManifest` and `BadBoard` with the
    /// first wrong line. Any text of more than `TEXT_BYTES` bytes is refused. `OutOfMemory` may come at any text that
    /// is no longer, and is ASCII, or UTF-8 as a roster's.
    pub fn read(
        alloc: Global,
        chart: &[u8],
        roster: &[u8],
        tiles: &[u8],
        board: &[u8],
    ) -> Result<Kit, Fault>
        ensures { MatchResult result
            (λ kit. SpellsKit (texts_of chart.now roster.now tiles.now board.now) kit)
            (λ fault. RefusesKit (texts_of chart.now roster.now tiles.now board.now) fault) }
    {
        let chart = read_chart(alloc, chart)?;
        let roster = read_roster(alloc, roster)?;
        let tiles = read_tiles(alloc, tiles)?;
        let board = read_board(alloc, board)?;
        Ok(Kit {
            roster,
            chart,
            tiles,
            board,
        })
    }

    /// The numbers of privates, corporations and trains.
    pub fn roster(&self) -> &Roster
        ensures { result.now ≡ self.now.roster }
    {
        &self.roster
    }

    /// The stock chart.
    pub fn chart(&self) -> &Chart
        ensures { result.now ≡ self.now.chart }
    {
        &self.chart
    }

    /// The tiles by their numbers, and how many there are of each.
    pub fn tiles(&self) -> &Manifest
        ensures { result.now ≡ self.now.tiles }
    {
        &self.tiles
    }

    /// The board as it is before the first tile is laid.
    pub fn board(&self) -> &Board
        ensures { result.now ≡ self.now.board }
    {
        &self.board
    }
}

/// Reads the chart of a kit.
fn read_chart(alloc: Global, text: &[u8]) -> Result<Chart, Fault>
    ensures { MatchResult result (λ chart. Spells text.now chart) (λ fault. RefusesChart text.now fault) }
{
    match std::str::from_utf8(text) {
        Ok(text) => {
            let chart = Chart::read(alloc, text)?;
            Ok(chart)
        }
        Err(_) => Err(Fault::BadChart { line: 0, word: 0 }),
    }
}

/// Reads the roster of a kit.
fn read_roster(alloc: Global, text: &[u8]) -> Result<Roster, Fault>
    ensures { MatchResult result (λ terms. IsRosterText text.now terms) (λ fault. RefusesRoster text.now fault) }
{
    if text.len() > TEXT_BYTES {
        return Err(Fault::BadRoster);
    }
    match std::str::from_utf8(text) {
        Ok(text) => {
            let roster = Roster::read(alloc, text)?;
            Ok(roster)
        }
        Err(_) => Err(Fault::BadRoster),
    }
}

/// Reads the manifest of a kit.
fn read_tiles(alloc: Global, text: &[u8]) -> Result<Manifest, Fault>
    ensures { MatchResult result (λ supplies. manifest.Spells text.now supplies) (λ fault. RefusesManifest text.now fault) }
{
    match std::str::from_utf8(text) {
        Ok(text) => {
            let manifest = Manifest::read(alloc, text)?;
            Ok(manifest)
        }
        Err(_) => Err(Fault::BadManifest(0)),
    }
}

/// Reads the board of a kit.
fn read_board(alloc: Global, text: &[u8]) -> Result<Board, Fault>
    ensures { MatchResult result (λ plan. board.Spells text.now plan) (λ fault. RefusesBoard text.now fault) }
{
    match std::str::from_utf8(text) {
        Ok(text) => {
            let board = Board::read(alloc, text)?;
            Ok(board)
        }
        Err(_) => Err(Fault::BadBoard(0)),
    }
}
