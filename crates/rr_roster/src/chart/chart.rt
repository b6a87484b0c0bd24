ghost use Rattle.std.specs.Prelude.{◌≡◌, ◌≤◌, length, List, All, AllPairs, IfOk, IfSome, MatchResult};

use crate::chart::cell::{Cell, ParCell, Place};
use crate::chart::fault::Fault;
use crate::chart::reader::{CellRow, read_rows};
use std::alloc::Global;
use std::marker::Model;

/// The stock chart: a price and a zone at each place that has a cell.
#[derive(Debug, Drop)]
pub struct Chart {
    rows: Vec<CellRow>,
    pars: Vec<ParCell>,
}

impl Model for Chart {
    ghost use Rattle.std.specs.Prelude.{◌≡◌, List, Option};
    ghost use Rattle.rr_roster.specs.Chart.Chart.{IsChart, pars_of};
    ghost use Rattle.rr_roster.specs.declared.chart.cell.Cell.{Cell};

    ghost Value = { List (List (Option Cell)) };

    ghost view = { λ chart. chart.rows.items };

    ghost invariant = { λ chart. (chart.pars.items ≡ pars_of chart.rows.items) × IsChart chart.rows.items };
}

impl Chart {
    ghost use Rattle.rr_roster.specs.Chart.Reading.{Spells, IsRefusal};
    ghost use Rattle.rr_roster.specs.Chart.Cell.{IsSound};
    ghost use Rattle.rr_roster.specs.Chart.Chart.{IsChart, IsParOf, HaveDifferentPrices, Row, cell_at, right_of, left_of, up_of, down_of, pars_of, par_place, with_cell, width_of};

    /// Reads a chart from its text.
    ///
    /// A line is a row from the top, and its words are the row's places from the left: `.` has no
    /// cell, and a number from 1 to 999 is a white cell. Behind the number `y`, `o` and `b` make it
    /// yellow, orange and brown, and `p` makes it a par cell. Empty lines, lines of spaces alone and
    /// lines that begin with `#` are skipped, but are counted. There are at most 16 rows of at most 24
    /// places, and at least one par cell; no two par cells have the same price.
    ///
    /// # Errors
    ///
    /// `BadChart` with the place of the first wrong word, or with 0 and 0 where the text is not ASCII,
    /// is longer than 65,536 bytes or has no par cell; `OutOfMemory` at any text of ASCII that is no longer.
    pub fn read(alloc: Global, text: &str) -> Result<Chart, Fault>
        ensures read { MatchResult result (λ chart. Spells text.now chart) (λ fault. IsRefusal text.now fault) }
        ensures only { IfOk result (λ chart. (other : List Row) → Spells text.now other → other ≡ chart) }
    {
        let Some(lines) = rr_words::rows(alloc, text)? else {
            return Err(Fault::BadChart { line: 0, word: 0 });
        };
        let (rows, pars) = read_rows(alloc, &lines)?;
        if pars.is_empty() {
            return Err(Fault::BadChart { line: 0, word: 0 });
        }
        Ok(Chart { rows, pars })
    }

    /// The cell at a place, if there is one.
    pub fn cell(&self, place: Place) -> Option<Cell>
        ensures cell { result ≡ cell_at self.now place }
        ensures sound { IsSound result }
        ensures chart { IsChart self.now }
    {
        match self.rows.get(place.row) {
            Some(row) => row.cell(place.column),
            None => None,
        }
    }

    /// The place to the right of a place, if it has a cell.
    pub fn right(&self, place: Place) -> Option<Place>
        ensures { result ≡ right_of self.now place }
    {
        if place.column >= self.width(place.row) {
            return None;
        }
        self.with_cell(Place {
            row: place.row,
            column: place.column + 1,
        })
    }

    /// The place to the left of a place, if it has a cell.
    pub fn left(&self, place: Place) -> Option<Place>
        ensures { result ≡ left_of self.now place }
    {
        if place.column == 0 {
            return None;
        }
        self.with_cell(Place {
            row: place.row,
            column: place.column - 1,
        })
    }

    /// The place above a place, if it has a cell.
    pub fn up(&self, place: Place) -> Option<Place>
        ensures { result ≡ up_of self.now place }
    {
        if place.row == 0 {
            return None;
        }
        self.with_cell(Place {
            row: place.row - 1,
            column: place.column,
        })
    }

    /// The place below a place, if it has a cell.
    pub fn down(&self, place: Place) -> Option<Place>
        ensures { result ≡ down_of self.now place }
    {
        if place.row >= self.rows.len() {
            return None;
        }
        self.with_cell(Place {
            row: place.row + 1,
            column: place.column,
        })
    }

    /// The par cells, in reading order.
    pub fn par_cells(&self) -> &[ParCell]
        ensures pars { result.now ≡ pars_of self.now }
        ensures places { All (IsParOf self.now) result.now }
        ensures different { AllPairs HaveDifferentPrices result.now }
        ensures some { 1 ≤ length result.now }
    {
        &self.pars
    }

    /// The place of the par cell of a price, if there is one.
    pub fn par_cell(&self, price: u16) -> Option<Place>
        ensures first { result ≡ par_place self.now price }
        ensures place { IfSome result (λ place. IsParOf self.now (record { price = price; place = place })) }
    {
        self.first_par(price)
    }

    fn first_par(&self, price: u16) -> Option<Place>
        ensures { result ≡ par_place self.now price }
    {
        let par = self.pars.iter().find(|par| par.price == price)?;
        Some(par.place)
    }

    fn width(&self, row: usize) -> usize
        ensures { result ≡ width_of self.now row }
    {
        match self.rows.get(row) {
            Some(row) => row.width(),
            None => 0,
        }
    }

    fn with_cell(&self, place: Place) -> Option<Place>
        ensures { result ≡ with_cell self.now place }
    {
        if self.cell(place).is_some() {
            Some(place)
        } else {
            None
        }
    }
}
