//! The small board, and texts that are no board.
use crate::shown::is_shown;
use rr_kit::board::{Board, Colour, Fault, Hex, Place, slots_at};
use rr_roster::{Corp, Private};
use std::alloc::Global;
use std::process::Abort;

const SMALL: &str = "hex A 0,0 grey c20/1:5
hex B 1,0 yellow 2-5
hex C 2,0 grey t10:2,5
hex D 3,0 grey c30/1:2,5
hex E 4,0 red o40/40:2
hex F 1,1 white
home PRR A 1
home NYC D 1
block SV F
";

// The calls below have no contracts and assert nothing, so that what a test does costs its proof little.

/// Whether the hex is of this place and colour, has this many parts, and costs this.
fn is_hex(hex: &Hex, place: Place, colour: Colour, parts: usize, cost: u16) -> bool {
    hex.place == place
        && hex.colour == colour
        && hex.tile.parts().len() == parts
        && hex.cost == cost
}

/// A name, a place, a colour and a number of parts.
type HexRow = (&'static [u8], i8, i8, Colour, usize);

static HEXES: [HexRow; 6] = [
    (b"A", 0, 0, Colour::Grey, 1),
    (b"B", 1, 0, Colour::Yellow, 1),
    (b"C", 2, 0, Colour::Grey, 1),
    (b"D", 3, 0, Colour::Grey, 1),
    (b"E", 4, 0, Colour::Red, 1),
    (b"F", 1, 1, Colour::White, 0),
];

fn is_hex_of_row(hex: &Hex, row: &HexRow) -> bool {
    let (name, q, r, colour, parts) = row;
    let place = Place { q: *q, r: *r };
    hex.name.as_bytes() == *name && is_hex(hex, place, *colour, *parts, 0)
}

fn are_hexes(hexes: &[Hex], rows: &[HexRow]) -> bool {
    for (hex, row) in hexes.iter().zip(rows) {
        if !is_hex_of_row(hex, row) {
            return false;
        }
    }
    hexes.len() == rows.len()
}

/// How many hexes, homes and blocks the board has.
fn sizes(board: &Board) -> [usize; 3] {
    [
        board.hexes().len(),
        board.homes().len(),
        board.blocks().len(),
    ]
}

/// Whether the home at an index is the corporation's first centre in this hex.
fn has_home(board: &Board, index: usize, corp: Corp, hex: &[u8]) -> bool {
    match board.homes().get(index) {
        Some(home) => home.corp == corp && home.hex.as_bytes() == hex && home.centre == 1,
        None => false,
    }
}

fn has_block(board: &Board, index: usize, private: Private, hex: &[u8]) -> bool {
    match board.blocks().get(index) {
        Some(block) => block.private == private && block.hex.as_bytes() == hex,
        None => false,
    }
}

fn has_homes_and_blocks(board: &Board) -> [bool; 3] {
    [
        has_home(board, 0, Corp::Prr, b"A"),
        has_home(board, 1, Corp::Nyc, b"D"),
        has_block(board, 0, Private::Sv, b"F"),
    ]
}

/// The slots of a centre of the small board's city.
fn slots_in_city(board: &Board, number: u64) -> Option<u8> {
    let city = board.hex(b"D")?;
    slots_at(city.tile.parts(), number)
}

fn has_slots(board: &Board) -> bool {
    let is_there = board.hex(b"D").is_some();
    is_there && slots_in_city(board, 1) == Some(1) && slots_in_city(board, 65537).is_none()
}

/// Whether the small board's hexes, its homes and blocks, their numbers, and the slots of its city are right.
fn is_small(alloc: Global) -> [bool; 4] {
    match Board::read(alloc, SMALL) {
        Ok(board) => [
            are_hexes(board.hexes(), &HEXES),
            has_homes_and_blocks(&board) == [true; 3],
            sizes(&board) == [6, 2, 1],
            has_slots(&board),
        ],
        Err(_) => [false; 4],
    }
}

#[test]
fn reads_the_small_board(rt: HostRuntime) {
    assert!(rt; is_small(rt.alloc()) == [true; 4]);
}

#[test]
fn states_laws(rt: HostRuntime) {
    let board = Board::read(rt.alloc(), SMALL).expect(&rt, "a board");
    board.keeps_rules();
}

fn is_far(hex: &Hex) -> bool {
    is_hex(hex, Place { q: -50, r: 50 }, Colour::Red, 3, 500) && hex.tile.label().is_some()
}

/// Whether the board has the far hex, and no hex whose name is a front of its name.
fn has_far_hex(board: &Board) -> bool {
    match board.hex(b"ZZ9") {
        Some(hex) => is_far(hex) && board.hex(b"ZZ").is_none(),
        None => false,
    }
}

fn is_far_read(alloc: Global, text: &str) -> bool {
    match Board::read(alloc, text) {
        Ok(board) => has_far_hex(&board),
        Err(_) => false,
    }
}

#[test]
fn finds_hexes_by_name(rt: HostRuntime) {
    let text = "# far off\r\n\r\nhex ZZ9 -50,50 red cost=500 L=NY o990/0: t0:0,1,2,3,4,5 0-3\r\n";
    assert!(rt; is_far_read(rt.alloc(), text));
}

/// Hexes, each on a line of its own, that are wrong.
const WRONG_HEXES: &str = "hex
hex A 0,0
hex ABCDE 0,0 white
hex a 0,0 white
hex A 51,0 white
hex A 0,-51 white
hex A -0,0 white
hex A +1,0 white
hex A 01,0 white
hex A 0 white
hex A 0,0,0 white
hex A 0,0 gray
hex A 0,0 white cost=501
hex A 0,0 white cost=
hex A 0,0 white cost=10 cost=10
hex A 0,0 white 0-0
hex A 0,0 grey o40/40:2";

/// Texts, and the line that is told to be wrong.
static WRONG_TEXTS: [(&str, usize); 20] = [
    ("", 0),
    ("# nothing\n   \n", 0),
    ("hex A 0,0 white é", 0),
    ("hex A 0,0 white\nhex A 1,0 white", 2),
    ("hex A 0,0 white\nhex B 0,0 white", 2),
    ("hex A 0,0 white\n\n# so far\nhexes B 1,0 white", 4),
    ("home PRR A 1\nhex A 0,0 white c20/1:5", 1),
    ("hex A 0,0 white c20/2:5\nhome PRR A 1\nhome PRR A 1", 3),
    ("hex A 0,0 white c20/1:5\nhome PRR A 1\nhome NYC A 1", 3),
    ("block SV A\nhex A 0,0 white", 1),
    ("hex A 0,0 white c20/1:5\nhome PRR B 1", 2),
    ("hex A 0,0 white c20/1:5\nhome PRR A 0", 2),
    ("hex A 0,0 white c20/1:5\nhome PRR A 2", 2),
    ("hex A 0,0 white t20:5\nhome PRR A 1", 2),
    ("hex A 0,0 white c20/1:5\nhome XYZ A 1", 2),
    ("hex A 0,0 white c20/1:5\nhome PRR A", 2),
    ("hex A 0,0 white c20/1:5\nhome PRR A 1 1", 2),
    ("hex A 0,0 white\nblock SV B", 2),
    ("hex A 0,0 white\nblock PRR A", 2),
    ("hex A 0,0 white\nblock SV", 2),
];

fn is_wrong_at(alloc: Global, text: &str, line: usize) -> bool {
    Board::read(alloc, text).err() == Some(Fault::BadBoard { line })
}

/// Whether each line of the text is wrong as a text of its own.
fn is_each_wrong(alloc: Global, texts: &str) -> bool {
    for text in texts.lines() {
        if !is_wrong_at(alloc, text, 1) {
            return false;
        }
    }
    true
}

/// Whether each of the texts is told to be wrong in its line.
fn are_wrong(alloc: Global, texts: &[(&str, usize)]) -> bool {
    for (text, line) in texts {
        if !is_wrong_at(alloc, *text, *line) {
            return false;
        }
    }
    true
}

#[test]
fn refuses_wrong_hexes(rt: HostRuntime) {
    assert!(rt; is_each_wrong(rt.alloc(), WRONG_HEXES));
}

#[test]
fn names_the_first_wrong_line(rt: HostRuntime) {
    assert!(rt; are_wrong(rt.alloc(), &WRONG_TEXTS));
}

fn has_sizes(alloc: Global, text: &str, wanted: [usize; 3]) -> bool {
    match Board::read(alloc, text) {
        Ok(board) => sizes(&board) == wanted,
        Err(_) => false,
    }
}

#[test]
fn shares_a_city_and_a_block(rt: HostRuntime) {
    let text = "hex A 0,0 white t10: c20/2:5\nhome PRR A 2\nhome NYC A 2\nblock SV A\nblock SV A";
    assert!(rt; has_sizes(rt.alloc(), text, [1, 2, 2]));
}

#[test]
fn faults_have_words(rt: HostRuntime) {
    let bad = Fault::BadBoard { line: 2 };
    assert!(rt; is_shown(rt.alloc(), &bad, "bad board 2"));
    assert!(rt; is_shown(rt.alloc(), &Fault::OutOfMemory, "out of memory"));
}
