//! Reads the rows of a chart, a word at a time.
ghost use Rattle.std.specs.Prelude.{◌≡◌, ◌≤◌, ◌++◌, [], map, OnOk, option_to_list, MatchResult, All, length};
ghost use Rattle.rr_words.specs.Text.{row_of};
ghost use Rattle.rr_roster.specs.Chart.Chart.{par_at, pars_of, IsFront};
ghost use Rattle.rr_roster.specs.Chart.Reading.{has_price, next_cell, IsRowRead, IsRowFault, AreRowsRead, IsRowsFault};

use crate::chart::cell::{Cell, ParCell, Place, cell_of};
use crate::chart::fault::Fault;
use rr_words::text::Row;
use std::alloc::{AllocError, Global};
use std::marker::Model;

const ROWS: usize = 16;

const COLUMNS: usize = 24;

/// A row of the chart, from the left.
#[derive(Debug, Drop)]
pub struct CellRow {
    cells: Vec<Option<Cell>>,
}

impl Model for CellRow {
    ghost use Rattle.std.specs.Prelude.{List, Option};
    ghost use Rattle.rr_roster.specs.declared.chart.cell.Cell.{Cell};

    ghost Value = { List (Option Cell) };

    ghost view = { λ row. row.cells.items };
}

impl CellRow {
    ghost use Rattle.rr_roster.specs.Chart.Chart.{cell_in};

    pub(crate) fn width(&self) -> usize
        ensures { result ≡ length self.now }
    {
        self.cells.len()
    }

    pub(crate) fn cell(&self, column: usize) -> Option<Cell>
        ensures { result ≡ cell_in self.now column }
    {
        match self.cells.get(column) {
            Some(cell) => *cell,
            None => None,
        }
    }
}

/// The rows and the par cells among them.
pub(crate) fn read_rows(alloc: Global, lines: &[Row]) -> Result<(Vec<CellRow>, Vec<ParCell>), Fault>
    requires { All (λ line. 1 ≤ length (row_of line).words) lines.now }
    ensures { MatchResult result
        (λ read. AreRowsRead (map row_of lines.now) read.0.items read.1.items)
        (λ fault. IsRowsFault (map row_of lines.now) fault) }
{
    let mut rows = Vec::new(alloc);
    let mut pars = Vec::new(alloc);
    for line in lines {
        let row = read_row(alloc, &rows, line, &mut pars)?;
        rows.push(row)?;
    }
    Ok((rows, pars))
}

fn read_row(
    alloc: Global,
    above: &[CellRow],
    line: &Row,
    pars: &mut Vec<ParCell>,
) -> Result<CellRow, Fault>
    requires some_word { 1 ≤ length (row_of line.now).words }
    requires front { IsFront above.now [] }
    requires pars { pars.old.items ≡ pars_of above.now }
    ensures { MatchResult result
        (λ row. IsRowRead above.now (row_of line.now) row pars.new.items)
        (λ fault. IsRowFault above.now (row_of line.now) fault) }
{
    let mut cells = Vec::new(alloc);
    for (column, word) in line.words.iter().enumerate() {
        let place = Place {
            row: above.len(),
            column,
        };
        let Some(cell) = next_cell(place, word, pars) else {
            return Err(Fault::BadChart {
                line: line.number,
                word: column + 1,
            });
        };
        note_par(place, cell, pars)?;
        cells.push(cell)?;
    }
    Ok(CellRow { cells })
}

// The cell that a word spells, if it may stand at the place.
fn next_cell(place: Place, word: &[u8], pars: &[ParCell]) -> Option<Option<Cell>>
    ensures { result ≡ next_cell place word.now pars.now }
{
    if place.row >= ROWS || place.column >= COLUMNS {
        return None;
    }
    let cell = cell_of(word)?;
    if let Some(par) = par_at(place, cell) {
        if has_price(pars, par.price) {
            return None;
        }
    }
    Some(cell)
}

fn has_price(pars: &[ParCell], price: u16) -> bool
    ensures { result ≡ has_price pars.now price }
{
    pars.iter().any(|par| par.price == price)
}

fn note_par(place: Place, cell: Option<Cell>, pars: &mut Vec<ParCell>) -> Result<(), AllocError>
    ensures { OnOk result (pars.new.items ≡ pars.old.items ++ option_to_list (par_at place cell)) }
{
    if let Some(par) = par_at(place, cell) {
        pars.push(par)?;
    }
    Ok(())
}

fn par_at(place: Place, cell: Option<Cell>) -> Option<ParCell>
    ensures { result ≡ par_at place cell }
{
    let cell = cell?;
    if cell.is_par {
        Some(ParCell {
            price: cell.price,
            place,
        })
    } else {
        None
    }
}
