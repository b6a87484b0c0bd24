ghost use Rattle.std.specs.Prelude.{◌≡◌, OnOk, IfErr};
ghost use Rattle.rr_desk.specs.Desk.{Takes};
ghost use Rattle.rr_stock.specs.Effects.{ends_if, ends_stock_round, rises, rises_among, rises_if_sold_out};

use crate::reading::{cell_after_rise, is_sold_out, order};
use crate::trading::mark_if;
use rr_books::{Corp, Entry, Marker, Refusal};
use rr_desk::Desk;
use rr_roster::chart::Chart;

/// The stock round ends, if it is to: the tokens of what is sold out go up, and an operating round begins.
pub(crate) fn end_if(desk: &mut Desk, chart: &Chart, ends: bool) -> Result<(), Refusal>
    ensures fault { IfErr result (λ fault. fault ≡ Refusal.OutOfMemory) }
    ensures takes { OnOk result (Takes (ends_if chart.now ends) desk.old desk.new) }
{
    if !ends {
        return Ok(());
    }
    end_stock_round(desk, chart)?;
    Ok(())
}

// The stock round ends, and an operating round begins.
#[tactic(auto, unfolding(crate::specs::Effects::ends_stock_round))]
fn end_stock_round(desk: &mut Desk, chart: &Chart) -> Result<(), Refusal>
    ensures fault { IfErr result (λ fault. fault ≡ Refusal.OutOfMemory) }
    ensures takes { OnOk result (Takes (ends_stock_round chart.now) desk.old desk.new) }
{
    raise_sold_out(desk, chart)?;
    desk.push(Entry::Step(Marker::Operating))?;
    Ok(())
}

// The tokens of what is sold out go up a row, in the operating order before any of them does.
fn raise_sold_out(desk: &mut Desk, chart: &Chart) -> Result<(), Refusal>
    ensures fault { IfErr result (λ fault. fault ≡ Refusal.OutOfMemory) }
    ensures takes { OnOk result (Takes (rises chart.now) desk.old desk.new) }
{
    let order = order(desk.position(), chart);
    raise_among(desk, chart, order.as_slice())?;
    Ok(())
}

// The tokens of those of the corporations that are sold out go up a row, one after another.
fn raise_among(desk: &mut Desk, chart: &Chart, corps: &[Corp]) -> Result<(), Refusal>
    ensures fault { IfErr result (λ fault. fault ≡ Refusal.OutOfMemory) }
    ensures takes { OnOk result (Takes (rises_among chart.now corps.now) desk.old desk.new) }
{
    for corp in corps {
        raise_if_sold_out(desk, chart, *corp)?;
    }
    Ok(())
}

// The corporation's token goes up a row, if it is sold out.
fn raise_if_sold_out(desk: &mut Desk, chart: &Chart, corp: Corp) -> Result<(), Refusal>
    ensures fault { IfErr result (λ fault. fault ≡ Refusal.OutOfMemory) }
    ensures takes { OnOk result (Takes (rises_if_sold_out chart.now corp) desk.old desk.new) }
{
    if !is_sold_out(desk.position(), corp) {
        return Ok(());
    }
    let cell = cell_after_rise(desk.position(), chart, corp);
    mark_if(desk, corp, cell)?;
    Ok(())
}
