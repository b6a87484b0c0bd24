ghost use Rattle.std.specs.Prelude.{◌≡◌, ◌≤◌, ◌<◌, [], ◌∷◌, ◌++◌, None, Some, option_map, option_and_then, unwrap_or, position, ◌+◌, length, IfOk, IfSome, MatchOption, MatchResult, OnErr};
ghost use Rattle.rr_roster.specs.Chart.Chart.{par_place};
ghost use Rattle.rr_books.specs.Book.{Book};
ghost use Rattle.rr_market.specs.Marks.{mark_of, first_mark_of, price_at, zone_at, price_of, zone_of, par_of};
ghost use Rattle.rr_market.specs.Moves.{cell_of, cell_above, cell_after_paying, cell_after_withholding, cell_after_sale, mark_at, par_marks, dividend_marks, withholding_marks, sale_marks, sold_out_marks};
ghost use Rattle.rr_market.specs.Order.{order_by, operating_order, operates_before, ordered_after, standing_at};
ghost use Rattle.rr_market.specs.State.{IsMarketOf, Follows, after, IsMarked, token_in, cell_in, first_in, arrival_in};

use crate::arrivals::Arrivals;
use crate::moves;
use crate::order::{OperatingOrder, Standing};
use rr_books::{Cell, Corp, Entry, Refusal};
use rr_roster::chart::{Chart, Zone};
use std::marker::Model;

/// A corporation's token on the chart.
#[derive(Clone, Copy, Debug, PartialEq, Eq)]
pub struct Token {
    /// Where it was put first.
    pub first: Cell,
    /// Where it is.
    pub cell: Cell,
}

/// The tokens of the corporations on the stock chart, which stand for the marks of a book. It takes no memory, and
/// `Copy` copies it. The chart is lent to each call: the one of the table, always.
#[derive(Clone, Copy, Debug)]
pub struct Market {
    pub(crate) tokens: [Option<Token>; 8],
    pub(crate) arrivals: Arrivals,
}

impl Model for Market {
    ghost use Rattle.std.specs.Prelude.{◌≡◌, length};
    ghost use Rattle.rr_market.specs.State.{State};

    ghost Value = { State };

    ghost view = { λ m. record { tokens = m.tokens; arrivals = m.arrivals } };

    ghost invariant = { λ m. length m.tokens ≡ 8 };

    ghost inverse = { λ s. record { tokens = s.tokens; arrivals = s.arrivals } };
}

impl Market {
    /// The market before the first par is set: no token is on the chart.
    pub fn new() -> Market
        ensures book { IsMarketOf [] result }
        ensures none { (c : Corp) → token_in result c ≡ None }
    {
        Market {
            tokens: [None; 8],
            arrivals: Arrivals::new(),
        }
    }

    /// The cell of the corporation's token, if it is on the chart.
    pub fn cell(&self, corp: Corp) -> Option<Cell>
        ensures shown { result ≡ cell_in self.now corp }
        ensures book { (book : Book) → IsMarketOf book self.now → result ≡ mark_of book corp }
    {
        match self.tokens[corp.index()] {
            Some(token) => Some(token.cell),
            None => None,
        }
    }

    /// The market price of a share of the corporation, from 1 to 999, if its token is on the chart.
    pub fn price(&self, chart: &Chart, corp: Corp) -> Option<u16>
        ensures shown { result ≡ price_at chart.now (cell_in self.now corp) }
        ensures book { (book : Book) → IsMarketOf book self.now → result ≡ price_of chart.now book corp }
        ensures bound { IfSome result (λ price. (1 ≤ price) × (price ≤ 999)) }
    {
        price_at(chart, self.cell(corp)?)
    }

    /// The zone of the corporation's shares, if its token is on the chart: the colour of the token's cell.
    pub fn zone(&self, chart: &Chart, corp: Corp) -> Option<Zone>
        ensures shown { result ≡ zone_at chart.now (cell_in self.now corp) }
        ensures book { (book : Book) → IsMarketOf book self.now → result ≡ zone_of chart.now book corp }
    {
        let cell = chart.cell(moves::place_of(self.cell(corp)?))?;
        Some(cell.zone)
    }

    /// The par of the corporation, from 1 to 999, if it has set one: the price of the cell where its token was put
    /// first.
    pub fn par(&self, chart: &Chart, corp: Corp) -> Option<u16>
        ensures shown { result ≡ price_at chart.now (first_in self.now corp) }
        ensures book { (book : Book) → IsMarketOf book self.now → result ≡ par_of chart.now book corp }
        ensures bound { IfSome result (λ price. (1 ≤ price) × (price ≤ 999)) }
    {
        price_at(chart, self.first(corp)?)
    }

    /// The cell to which a dividend that is paid moves the corporation's token: right, at the right edge up. None where
    /// it stays, or isn't on the chart.
    pub fn cell_after_paying(&self, chart: &Chart, corp: Corp) -> Option<Cell>
        ensures shown { result ≡ option_and_then (cell_after_paying chart.now) (cell_in self.now corp) }
        ensures book { (book : Book) → IsMarketOf book self.now → mark_at corp result ≡ dividend_marks chart.now corp book }
    {
        moves::after_paying(chart, self.cell(corp)?)
    }

    /// The cell to which a dividend that is withheld moves the corporation's token: left, at the left edge down. None
    /// where it stays, or isn't on the chart.
    pub fn cell_after_withholding(&self, chart: &Chart, corp: Corp) -> Option<Cell>
        ensures shown { result ≡ option_and_then (cell_after_withholding chart.now) (cell_in self.now corp) }
        ensures book { (book : Book) → IsMarketOf book self.now → mark_at corp result ≡ withholding_marks chart.now corp book }
    {
        moves::after_withholding(chart, self.cell(corp)?)
    }

    /// The cell to which a sale of this number of 10% shares moves the corporation's token: a row down for each,
    /// stopping above the first missing cell. None where it stays, or isn't on the chart.
    pub fn cell_after_sale(&self, chart: &Chart, corp: Corp, shares: u8) -> Option<Cell>
        ensures shown { result ≡ option_and_then (cell_after_sale chart.now shares) (cell_in self.now corp) }
        ensures book { (book : Book) → IsMarketOf book self.now → mark_at corp result ≡ sale_marks chart.now shares corp book }
    {
        moves::after_sale(chart, shares, self.cell(corp)?)
    }

    /// The cell to which the corporation's token moves where it is sold out as a stock round ends: one row up. None
    /// where it stays, or isn't on the chart.
    pub fn cell_after_rise(&self, chart: &Chart, corp: Corp) -> Option<Cell>
        ensures shown { result ≡ option_and_then (cell_above chart.now) (cell_in self.now corp) }
        ensures book { (book : Book) → IsMarketOf book self.now → mark_at corp result ≡ sold_out_marks chart.now corp book }
    {
        moves::up(chart, self.cell(corp)?)
    }

    /// Puts the corporation's token on the par cell of a price. The result is the cell of its mark.
    ///
    /// # Errors
    ///
    /// `NotAPar` where the chart has no par cell of this price. The market is as before then.
    pub fn set(&mut self, chart: &Chart, corp: Corp, par: u16) -> Result<Cell, Refusal>
        ensures verdict { MatchResult result
            (λ cell. option_map cell_of (par_place chart.now par) ≡ Some cell)
            (λ fault. (fault ≡ Refusal.NotAPar) × (par_place chart.now par ≡ None)) }
        ensures marked { IfOk result (λ cell. IsMarked self.old self.new corp cell) }
        ensures entries { IfOk result (λ cell. (book : Book) → mark_at corp (Some cell) ≡ par_marks chart.now corp par book) }
        ensures book { Follows self.old self.new (par_marks chart.now corp par) }
        ensures err { OnErr result (self.new ≡ self.old) }
    {
        let Some(cell) = moves::par_cell(chart, u64::from(par)) else {
            return Err(Refusal::NotAPar);
        };
        self.mark(corp, cell);
        Ok(cell)
    }

    /// Moves the corporation's token for a dividend that is paid: right, at the right edge up. The result is the cell
    /// of its mark, if it moves.
    pub fn paid(&mut self, chart: &Chart, corp: Corp) -> Option<Cell>
        ensures cell { result ≡ option_and_then (cell_after_paying chart.now) (cell_in self.old corp) }
        ensures marked { MatchOption result (self.new ≡ self.old) (λ cell. IsMarked self.old self.new corp cell) }
        ensures entries { (book : Book) → IsMarketOf book self.old → mark_at corp result ≡ dividend_marks chart.now corp book }
        ensures book { Follows self.old self.new (dividend_marks chart.now corp) }
    {
        let cell = self.cell_after_paying(chart, corp)?;
        self.mark(corp, cell);
        Some(cell)
    }

    /// Moves the corporation's token for a dividend that is withheld: left, at the left edge down. The result is the
    /// cell of its mark, if it moves.
    pub fn withheld(&mut self, chart: &Chart, corp: Corp) -> Option<Cell>
        ensures cell { result ≡ option_and_then (cell_after_withholding chart.now) (cell_in self.old corp) }
        ensures marked { MatchOption result (self.new ≡ self.old) (λ cell. IsMarked self.old self.new corp cell) }
        ensures entries { (book : Book) → IsMarketOf book self.old → mark_at corp result ≡ withholding_marks chart.now corp book }
        ensures book { Follows self.old self.new (withholding_marks chart.now corp) }
    {
        let cell = self.cell_after_withholding(chart, corp)?;
        self.mark(corp, cell);
        Some(cell)
    }

    /// Moves the corporation's token for a sale of this number of 10% shares: a row down for each, stopping above the
    /// first missing cell. The result is the cell of its mark, if it moves.
    pub fn sold(&mut self, chart: &Chart, corp: Corp, shares: u8) -> Option<Cell>
        ensures cell { result ≡ option_and_then (cell_after_sale chart.now shares) (cell_in self.old corp) }
        ensures marked { MatchOption result (self.new ≡ self.old) (λ cell. IsMarked self.old self.new corp cell) }
        ensures entries { (book : Book) → IsMarketOf book self.old → mark_at corp result ≡ sale_marks chart.now shares corp book }
        ensures book { Follows self.old self.new (sale_marks chart.now shares corp) }
    {
        let cell = self.cell_after_sale(chart, corp, shares)?;
        self.mark(corp, cell);
        Some(cell)
    }

    /// Moves the token of a corporation that is sold out as a stock round ends: one row up. The result is the cell of
    /// its mark, if it moves.
    pub fn soldout(&mut self, chart: &Chart, corp: Corp) -> Option<Cell>
        ensures cell { result ≡ option_and_then (cell_above chart.now) (cell_in self.old corp) }
        ensures marked { MatchOption result (self.new ≡ self.old) (λ cell. IsMarked self.old self.new corp cell) }
        ensures entries { (book : Book) → IsMarketOf book self.old → mark_at corp result ≡ sold_out_marks chart.now corp book }
        ensures book { Follows self.old self.new (sold_out_marks chart.now corp) }
    {
        let cell = self.cell_after_rise(chart, corp)?;
        self.mark(corp, cell);
        Some(cell)
    }

    /// Follows the next entry of the book, of which a mark alone moves a token.
    pub fn follow(&mut self, entry: &Entry)
        ensures value { self.new ≡ after self.old entry.now }
        ensures book { (book : Book) → IsMarketOf book self.old → IsMarketOf (book ++ entry.now ∷ []) self.new }
    {
        match entry {
            Entry::Mark { corp, cell } => self.mark(*corp, *cell),
            _ => (),
        }
    }

    /// The corporations with a price, floated or not, in the order in which they operate: the highest price first;
    /// at equal prices the cell further right, then the one nearer the top; in one cell the token that arrived first.
    pub fn order(&self, chart: &Chart) -> OperatingOrder
        ensures shown { result ≡ order_by chart.now (cell_in self.now) (arrival_in self.now) }
        ensures book { (book : Book) → IsMarketOf book self.now → result ≡ operating_order chart.now book }
    {
        let mut order = OperatingOrder::new();
        for corp in Corp::ALL {
            self.put(chart, corp, &mut order);
        }
        order
    }

    fn put(&self, chart: &Chart, corp: Corp, order: &mut OperatingOrder)
        requires { length order.old < 8 }
        ensures order { order.new ≡ ordered_after chart.now (cell_in self.now) (arrival_in self.now) order.old corp }
        ensures bound { length order.new ≤ length order.old + 1 }
    {
        if self.price(chart, corp).is_none() {
            return;
        }
        let others = order.as_slice();
        let at = self
            .first_behind(chart, corp, others)
            .unwrap_or(others.len());
        order.insert(at, corp);
    }

    // The first of the others that the corporation operates before.
    fn first_behind(&self, chart: &Chart, corp: Corp, others: &[Corp]) -> Option<usize>
        ensures first { result ≡ position (operates_before chart.now (cell_in self.now) (arrival_in self.now) corp) others.now }
        ensures within { IfSome result (λ at. at < length others.now) }
    {
        others
            .iter()
            .position(|other| self.operates_before(chart, corp, *other))
    }

    fn operates_before(&self, chart: &Chart, corp: Corp, other: Corp) -> bool
        ensures { result ≡ operates_before chart.now (cell_in self.now) (arrival_in self.now) corp other }
    {
        match (self.standing(chart, corp), self.standing(chart, other)) {
            (Some(one), Some(another)) => one.comes_before(&another),
            _ => false,
        }
    }

    fn standing(&self, chart: &Chart, corp: Corp) -> Option<Standing>
        ensures { result ≡ standing_at chart.now (cell_in self.now corp) (arrival_in self.now corp) }
    {
        Some(Standing {
            price: self.price(chart, corp)?,
            cell: self.cell(corp)?,
            arrival: self.arrivals.of(corp),
        })
    }

    fn first(&self, corp: Corp) -> Option<Cell>
        ensures shown { result ≡ first_in self.now corp }
        ensures book { (book : Book) → IsMarketOf book self.now → result ≡ first_mark_of book corp }
    {
        match self.tokens[corp.index()] {
            Some(token) => Some(token.first),
            None => None,
        }
    }

    // Puts the corporation's token on a cell, after all the others.
    fn mark(&mut self, corp: Corp, cell: Cell)
        ensures value { self.new ≡ after self.old (Entry.Mark corp cell) }
        ensures marked { IsMarked self.old self.new corp cell }
    {
        let first = match self.first(corp) {
            Some(first) => first,
            None => cell,
        };
        self.tokens[corp.index()] = Some(Token { first, cell });
        self.arrivals.note(corp);
    }
}

// The price at a cell, if the chart has that cell.
fn price_at(chart: &Chart, cell: Cell) -> Option<u16>
    ensures value { result ≡ price_at chart.now (Some cell) }
    ensures bound { IfSome result (λ price. (1 ≤ price) × (price ≤ 999)) }
{
    let cell = chart.cell(moves::place_of(cell))?;
    Some(cell.price)
}
