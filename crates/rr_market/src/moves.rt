ghost use Rattle.std.specs.Prelude.{◌≡◌, ◌≤◌, ◌==◌, true, find, is_some, option_map, IfSome, OnSome};
ghost use Rattle.rr_roster.specs.Chart.Chart.{cell_at, par_place};
ghost use Rattle.rr_market.specs.Marks.{place_of};
ghost use Rattle.rr_market.specs.Moves.{cell_of, cell_right, cell_left, cell_above, cell_below, cell_after_paying, cell_after_withholding, cell_after_sale, fallen, fallen_by};

use rr_books::Cell;
use rr_roster::chart::{Chart, ParCell, Place};

// The chart's place of a cell.
pub(crate) fn place_of(cell: Cell) -> Place
    ensures { result ≡ place_of cell }
{
    Place {
        row: usize::from(cell.row),
        column: usize::from(cell.column),
    }
}

// The book's cell of a place, which has one: a chart has at most 16 rows and 24 columns.
fn cell_of(chart: &Chart, place: Place) -> Cell
    requires { is_some (cell_at chart.now place) ≡ true }
    ensures { result ≡ cell_of place }
{
    // The chart is small, so that both numbers fit.
    let _cell = chart.cell(place);
    Cell {
        row: place.row as u8,
        column: place.column as u8,
    }
}

/// The par cell of a price, if the chart has one: a corporation may begin at just these prices.
pub fn par_cell(chart: &Chart, price: u64) -> Option<Cell>
    ensures value { result ≡ option_map cell_of (par_place chart.now price) }
    ensures small { OnSome result (price ≤ 999) }
{
    let par = price_among(chart.par_cells(), price)?;
    let place = chart.par_cell(par)?;
    let _cell = chart.cell(place);
    Some(cell_of(chart, place))
}

// The price, if one of the par cells has it.
fn price_among(pars: &[ParCell], price: u64) -> Option<u16>
    ensures value { result ≡ option_map (λ par. par.price) (find (λ par. par.price == price) pars.now) }
    ensures same { IfSome result (λ par. par ≡ price) }
{
    let par = pars.iter().find(|par| u64::from(par.price) == price)?;
    Some(par.price)
}

fn right(chart: &Chart, cell: Cell) -> Option<Cell>
    ensures { result ≡ cell_right chart.now cell }
{
    let place = chart.right(place_of(cell))?;
    Some(cell_of(chart, place))
}

fn left(chart: &Chart, cell: Cell) -> Option<Cell>
    ensures { result ≡ cell_left chart.now cell }
{
    let place = chart.left(place_of(cell))?;
    Some(cell_of(chart, place))
}

fn down(chart: &Chart, cell: Cell) -> Option<Cell>
    ensures { result ≡ cell_below chart.now cell }
{
    let place = chart.down(place_of(cell))?;
    Some(cell_of(chart, place))
}

// Where a token rises whose corporation is sold out: one row up.
pub(crate) fn up(chart: &Chart, cell: Cell) -> Option<Cell>
    ensures { result ≡ cell_above chart.now cell }
{
    let place = chart.up(place_of(cell))?;
    Some(cell_of(chart, place))
}

// Where a paid dividend moves a token: right, at the right edge up.
pub(crate) fn after_paying(chart: &Chart, cell: Cell) -> Option<Cell>
    ensures { result ≡ cell_after_paying chart.now cell }
{
    match right(chart, cell) {
        Some(next) => Some(next),
        None => up(chart, cell),
    }
}

// Where a withheld dividend moves a token: left, at the left edge down.
pub(crate) fn after_withholding(chart: &Chart, cell: Cell) -> Option<Cell>
    ensures { result ≡ cell_after_withholding chart.now cell }
{
    match left(chart, cell) {
        Some(next) => Some(next),
        None => down(chart, cell),
    }
}

// Where a sale of so many 10% shares moves a token: a row down for each, stopping above the first missing cell.
pub(crate) fn after_sale(chart: &Chart, shares: u8, cell: Cell) -> Option<Cell>
    ensures { result ≡ cell_after_sale chart.now shares cell }
{
    let lower = fallen_by(chart, shares, cell);
    if lower == cell {
        return None;
    }
    Some(lower)
}

fn fallen_by(chart: &Chart, rows: u8, cell: Cell) -> Cell
    ensures { result ≡ fallen_by chart.now rows cell }
{
    let mut lower = cell;
    for _row in 0..rows {
        lower = fallen(chart, lower);
    }
    lower
}

// One row down, or the same cell above a missing one.
fn fallen(chart: &Chart, cell: Cell) -> Cell
    ensures { result ≡ fallen chart.now cell }
{
    match down(chart, cell) {
        Some(lower) => lower,
        None => cell,
    }
}
