//! The small board as it is read, with what is put on it: a city, a track, a town, a city and an off-board area in a
//! row, and a hex without tracks.
use rr_desk::layout::{Lay, Layout, MOST_LAYS, MOST_STATIONS, Station};
use rr_kit::board::Board;
use rr_roster::Corp;
use rr_tiles::Manifest;
use rr_words::HexName;
use std::alloc::Global;
use std::process::Abort;

const SMALL: &str = "hex A 0,0 grey c20/1:5
hex B 1,0 yellow 2-5
hex C 2,0 grey t10:2,5
hex D 3,0 grey c30/1:2,5
hex E 4,0 red o40/40:2
hex F 1,1 white
home PRR A 1
home NYC D 1
block SV F
";

pub(crate) fn name(rt: &impl Abort, word: &[u8]) -> HexName {
    HexName::read(word).expect(rt, "a name")
}

pub(crate) fn small_board(rt: &impl Abort, alloc: Global) -> Board {
    Board::read(alloc, SMALL).expect(rt, "a board")
}

pub(crate) fn tiles(rt: &impl Abort, alloc: Global) -> Manifest {
    Manifest::read(alloc, "green 23 x3 0-3 0-4").expect(rt, "tiles")
}

/// What is put on the board.
#[derive(Clone, Copy)]
pub(crate) enum Piece {
    /// PRR's token, in A.
    Prr,
    /// NYC's token, in D.
    Nyc,
    /// Tile 23 on B, turned so far.
    Tile(u8),
}

/// What lies on the board once these are put there, one after the other.
pub(crate) fn laid(rt: &impl Abort, pieces: &[Piece]) -> Layout {
    let mut layout = Layout::new();
    for piece in pieces {
        match piece {
            Piece::Prr => station(rt, &mut layout, Corp::Prr, b"A"),
            Piece::Nyc => station(rt, &mut layout, Corp::Nyc, b"D"),
            Piece::Tile(turn) => lay(rt, &mut layout, *turn),
        }
    }
    layout
}

fn station(rt: &impl Abort, layout: &mut Layout, corp: Corp, hex: &[u8]) {
    let hex = name(rt, hex);
    assert!(rt; layout.stations().len() < MOST_STATIONS);
    layout.station(Station {
        corp,
        hex,
        centre: 1,
    });
}

fn lay(rt: &impl Abort, layout: &mut Layout, turn: u8) {
    let hex = name(rt, b"B");
    assert!(rt; layout.lays().len() < MOST_LAYS);
    layout.lay(Lay {
        hex,
        tile: 23,
        turn,
    });
}
