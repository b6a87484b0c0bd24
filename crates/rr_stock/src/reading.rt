//! What the rules of a stock round read of the position.
ghost use Rattle.std.specs.Prelude.{◌≡◌, ◌*◌, ◌==◌, ◌&&◌, unwrap_or};
ghost use Rattle.rr_books.specs.Book.{Book, holder};
ghost use Rattle.rr_books.specs.State.{holder_in};
ghost use Rattle.rr_market.specs.Marks.{par_of, price_at, price_of};
ghost use Rattle.rr_market.specs.Moves.{mark_at, sale_marks, sold_out_marks};
ghost use Rattle.rr_market.specs.State.{cell_in, first_in};
ghost use Rattle.rr_market.specs.Order.{operating_order};
ghost use Rattle.rr_desk.specs.Position.Position.{IsPositionOf};
ghost use Rattle.rr_rounds.specs.Round.{ends_round, has_floated, progress};
ghost use Rattle.rr_stock.specs.Effects.{is_sold_out};
ghost use Rattle.rr_stock.specs.Rules.{place_of_source, price_by_source};

use rr_books::{Books, Cell, Corp, Place, ShareSource};
use rr_desk::Position;
use rr_market::OperatingOrder;
use rr_roster::chart::Chart;

/// The corporation's par, if it has set one.
pub(crate) fn par(position: &Position, chart: &Chart, corp: Corp) -> Option<u16>
    ensures { (book : Book) → IsPositionOf book position.now → result ≡ par_of chart.now book corp }
{
    position.market().par(chart, corp)
}

/// What a share costs: the par from the offer, the market price from the pool; 0 where there is none.
pub(crate) fn share_price(
    position: &Position,
    chart: &Chart,
    corp: Corp,
    source: ShareSource,
) -> u32
    ensures shown { result ≡ price_by_source (price_at chart.now (first_in position.now.market corp)) (price_at chart.now (cell_in position.now.market corp)) source }
    ensures book { (book : Book) → IsPositionOf book position.now → result ≡ price_by_source (par_of chart.now book corp) (price_of chart.now book corp) source }
{
    match source {
        ShareSource::Offer => u32::from(position.market().par(chart, corp).unwrap_or(0)),
        ShareSource::Pool => u32::from(position.market().price(chart, corp).unwrap_or(0)),
    }
}

/// What a seller gets for `count` 10% shares of the corporation, in dollars: the market price for each, and nothing
/// before its token is on the chart.
pub fn proceeds(position: &Position, chart: &Chart, corp: Corp, count: u8) -> u32
    ensures { (book : Book) → IsPositionOf book position.now → result ≡ count * unwrap_or (price_of chart.now book corp) 0 }
{
    let price = position.market().price(chart, corp).unwrap_or(0);
    u32::from(count) * u32::from(price)
}

/// Whether the corporation has floated.
pub(crate) fn has_floated(position: &Position, corp: Corp) -> bool
    ensures { (book : Book) → IsPositionOf book position.now → result ≡ has_floated (progress book) corp }
{
    position.rounds().has_floated(corp)
}

/// Whether the stock round ends as the seat in turn ends its turn.
pub(crate) fn ends_with_done(position: &Position) -> bool
    ensures { (book : Book) → IsPositionOf book position.now → result ≡ ends_round (progress book) }
{
    position.rounds().ends_with_done()
}

/// Where the corporation's token falls by a sale of so many 10% shares, if it does.
pub(crate) fn cell_after_sale(
    position: &Position,
    chart: &Chart,
    corp: Corp,
    count: u8,
) -> Option<Cell>
    ensures { (book : Book) → IsPositionOf book position.now → mark_at corp result ≡ sale_marks chart.now count corp book }
{
    position.market().cell_after_sale(chart, corp, count)
}

/// Where the corporation's token rises where it is sold out, if it does.
pub(crate) fn cell_after_rise(position: &Position, chart: &Chart, corp: Corp) -> Option<Cell>
    ensures { (book : Book) → IsPositionOf book position.now → mark_at corp result ≡ sold_out_marks chart.now corp book }
{
    position.market().cell_after_rise(chart, corp)
}

/// The corporations with a price in the order in which they operate.
pub(crate) fn order(position: &Position, chart: &Chart) -> OperatingOrder
    ensures { (book : Book) → IsPositionOf book position.now → result ≡ operating_order chart.now book }
{
    position.market().order(chart)
}

/// Whether neither the offer nor the pool has a share of the corporation.
pub(crate) fn is_sold_out(position: &Position, corp: Corp) -> bool
    ensures { (book : Book) → IsPositionOf book position.now → result ≡ is_sold_out (holder book) corp }
{
    position.books().share(Place::Offer, corp) == 0
        && position.books().share(Place::Pool, corp) == 0
}

/// Where the shares of a source are.
pub(crate) fn place_of_source(source: ShareSource) -> Place
    ensures { result ≡ place_of_source source }
{
    match source {
        ShareSource::Offer => Place::Offer,
        ShareSource::Pool => Place::Pool,
    }
}
