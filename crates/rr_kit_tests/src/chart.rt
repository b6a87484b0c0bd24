//! The shipped chart's cells and neighbours, and texts that are no chart.
use crate::shown::is_shown;
use rr_roster::chart::{Cell, Chart, Fault, Place, Zone};
use std::alloc::Global;

const SHIPPED: &str = "60y 67 71 76 82 90 100p 112 126 142 160 180 200 225 250 275 300 325 350
53y 60y 66 70 76 82 90p 100 112 126 142 160 180 200 220 240 260 280 300
46y 55y 60y 65 70 76 82p 90 100 111 125 140 155 170 185 200
39o 48y 54y 60y 66 71 76p 82 90 100 110 120 130
32o 41o 48y 55y 62 67 71p 76 82 90 100
25b 34o 42o 50y 58y 65 67p 71 75 80
18b 27b 36o 45o 54y 63 67 69 70
10b 20b 30b 40o 50y 60y 67 68
. 10b 20b 30b 40o 50y 60y
. . 10b 20b 30b 40o 50y
. . . 10b 20b 30b 40o
";

/// The prices of each row's cells, and their letters: `y`, `o` and `b` for the colours, `p` for a par cell, `w` for any
/// other white one, and a point for no cell. No row lies below them.
static ROWS: [(&[u16], &[u8]); 12] = [
    (
        &[
            60, 67, 71, 76, 82, 90, 100, 112, 126, 142, 160, 180, 200, 225, 250, 275, 300, 325, 350,
        ],
        b"ywwwwwpwwwwwwwwwwww",
    ),
    (
        &[
            53, 60, 66, 70, 76, 82, 90, 100, 112, 126, 142, 160, 180, 200, 220, 240, 260, 280, 300,
        ],
        b"yywwwwpwwwwwwwwwwww",
    ),
    (
        &[
            46, 55, 60, 65, 70, 76, 82, 90, 100, 111, 125, 140, 155, 170, 185, 200,
        ],
        b"yyywwwpwwwwwwwww",
    ),
    (
        &[39, 48, 54, 60, 66, 71, 76, 82, 90, 100, 110, 120, 130],
        b"oyyywwpwwwwww",
    ),
    (
        &[32, 41, 48, 55, 62, 67, 71, 76, 82, 90, 100],
        b"ooyywwpwwww",
    ),
    (&[25, 34, 42, 50, 58, 65, 67, 71, 75, 80], b"booyywpwww"),
    (&[18, 27, 36, 45, 54, 63, 67, 69, 70], b"bbooywwww"),
    (&[10, 20, 30, 40, 50, 60, 67, 68], b"bbboyyww"),
    (&[0, 10, 20, 30, 40, 50, 60], b".bbboyy"),
    (&[0, 0, 10, 20, 30, 40, 50], b"..bbboy"),
    (&[0, 0, 0, 10, 20, 30, 40], b"...bbbo"),
    (&[], b""),
];

// The calls below have no contracts and assert nothing, so that what a test does costs its proof little.

fn at(row: usize, column: usize) -> Place {
    Place { row, column }
}

/// The cell of a price and a letter of `ROWS`.
fn cell_of(price: u16, letter: u8) -> Option<Cell> {
    let (zone, is_par) = match letter {
        b'y' => (Zone::Yellow, false),
        b'o' => (Zone::Orange, false),
        b'b' => (Zone::Brown, false),
        b'p' => (Zone::White, true),
        b'w' => (Zone::White, false),
        _ => return None,
    };
    Some(Cell {
        price,
        zone,
        is_par,
    })
}

fn has_cell(chart: &Chart, row: usize, column: usize, price: u16, letter: u8) -> bool {
    chart.cell(at(row, column)) == cell_of(price, letter)
}

/// Whether the row has the cells of these prices and letters, and none behind them.
fn has_row(chart: &Chart, row: usize, prices: &[u16], letters: &[u8]) -> bool {
    for (column, (price, letter)) in prices.iter().zip(letters).enumerate() {
        if !has_cell(chart, row, column, *price, *letter) {
            return false;
        }
    }
    prices.len() == letters.len() && chart.cell(at(row, prices.len())).is_none()
}

fn has_rows(chart: &Chart, rows: &[(&[u16], &[u8])]) -> bool {
    for (row, (prices, letters)) in rows.iter().enumerate() {
        if !has_row(chart, row, *prices, *letters) {
            return false;
        }
    }
    chart.cell(at(11, 3)).is_none()
}

fn has_every_cell(alloc: Global) -> bool {
    match Chart::read(alloc, SHIPPED) {
        Ok(chart) => has_rows(&chart, &ROWS),
        Err(_) => false,
    }
}

#[test]
fn has_every_cell_of_its_rows(rt: HostRuntime) {
    assert!(rt; has_every_cell(rt.alloc()));
}

#[derive(Clone, Copy)]
enum Side {
    Right,
    Left,
    Up,
    Down,
}

/// A row and a column.
type Spot = (usize, usize);

/// A side, a spot, and the spot of the cell on that side of it.
type Neighbour = (Side, Spot, Option<Spot>);

static NEIGHBOURS: [Neighbour; 10] = [
    (Side::Right, (0, 6), Some((0, 7))),
    (Side::Right, (0, 18), None),
    (Side::Left, (0, 6), Some((0, 5))),
    (Side::Left, (0, 0), None),
    (Side::Left, (9, 2), None),
    (Side::Up, (2, 15), Some((1, 15))),
    (Side::Up, (0, 6), None),
    (Side::Down, (1, 15), Some((2, 15))),
    (Side::Down, (2, 15), None),
    (Side::Down, (10, 3), None),
];

fn beside(chart: &Chart, side: Side, place: Place) -> Option<Place> {
    match side {
        Side::Right => chart.right(place),
        Side::Left => chart.left(place),
        Side::Up => chart.up(place),
        Side::Down => chart.down(place),
    }
}

fn is_at(place: Option<Place>, spot: Option<Spot>) -> bool {
    match (place, spot) {
        (Some(place), Some((row, column))) => place == at(row, column),
        (None, None) => true,
        _ => false,
    }
}

/// Whether each of the cells lies beside its spot, and none where none should.
fn has_neighbours(chart: &Chart, neighbours: &[Neighbour]) -> bool {
    for (side, (row, column), wanted) in neighbours {
        if !is_at(beside(chart, *side, at(*row, *column)), *wanted) {
            return false;
        }
    }
    true
}

fn has_all_neighbours(alloc: Global) -> bool {
    match Chart::read(alloc, SHIPPED) {
        Ok(chart) => has_neighbours(&chart, &NEIGHBOURS),
        Err(_) => false,
    }
}

#[test]
fn finds_neighbours(rt: HostRuntime) {
    assert!(rt; has_all_neighbours(rt.alloc()));
}

/// Prices, and the spots of their par cells.
static PARS: [(u16, Option<Spot>); 3] = [(67, Some((5, 6))), (90, Some((1, 6))), (80, None)];

fn has_pars(chart: &Chart, pars: &[(u16, Option<Spot>)]) -> bool {
    for (price, wanted) in pars {
        if !is_at(chart.par_cell(*price), *wanted) {
            return false;
        }
    }
    true
}

/// Whether the chart has so many par cells, the first one of this price at this place.
fn begins_with_par(chart: &Chart, count: usize, price: u16, place: Place) -> bool {
    let cells = chart.par_cells();
    match cells.first() {
        Some(par) => par.price == price && par.place == place && cells.len() == count,
        None => false,
    }
}

fn has_par_cells(alloc: Global) -> bool {
    match Chart::read(alloc, SHIPPED) {
        Ok(chart) => has_pars(&chart, &PARS) && begins_with_par(&chart, 6, 100, at(0, 6)),
        Err(_) => false,
    }
}

#[test]
fn finds_par_cells(rt: HostRuntime) {
    assert!(rt; has_par_cells(rt.alloc()));
}

/// Texts, and the line and the word that are told to be wrong.
static WRONG_TEXTS: [(&str, usize, usize); 13] = [
    ("", 0, 0),
    ("60 67\n", 0, 0),
    ("100p é", 0, 0),
    ("100p 0", 1, 2),
    ("100p 01", 1, 2),
    ("100p 1000", 1, 2),
    ("100p 10x", 1, 2),
    ("100p ..", 1, 2),
    ("100p y", 1, 2),
    ("100p 90py", 1, 2),
    ("# prices\n\n100p 90p\n  \n  90   100p zz\n", 5, 2),
    (
        "1p\n2\n3\n4\n5\n6\n7\n8\n9\n10\n11\n12\n13\n14\n15\n16\n17\n",
        17,
        1,
    ),
    (
        "1p 2 3 4 5 6 7 8 9 10 11 12 13 14 15 16 17 18 19 20 21 22 23 24 25",
        1,
        25,
    ),
];

fn fault_of(alloc: Global, text: &str) -> Option<Fault> {
    Chart::read(alloc, text).err()
}

/// Whether each of the texts is refused for its word.
fn are_refused(alloc: Global, texts: &[(&str, usize, usize)]) -> bool {
    for (text, line, word) in texts {
        let (line, word) = (*line, *word);
        if fault_of(alloc, *text) != Some(Fault::BadChart { line, word }) {
            return false;
        }
    }
    true
}

#[test]
fn names_the_first_wrong_word(rt: HostRuntime) {
    assert!(rt; are_refused(rt.alloc(), &WRONG_TEXTS));
    assert!(rt; fault_of(rt.alloc(), "# one row\r\n\r\n999p .\r\n").is_none());
}

#[test]
fn faults_have_words(rt: HostRuntime) {
    let bad = Fault::BadChart { line: 17, word: 1 };
    assert!(rt; is_shown(rt.alloc(), &bad, "bad chart 17 1"));
    assert!(rt; is_shown(rt.alloc(), &Fault::OutOfMemory, "out of memory"));
}
