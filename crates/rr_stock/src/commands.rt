ghost use Rattle.std.specs.Prelude.{◌≡◌, ◌<◌, ◌≤◌, OnOk, IfErr};
ghost use Rattle.rr_desk.specs.Desk.{Takes};
ghost use Rattle.rr_stock.specs.Effects.{buys_share, ends_turn, sells, sets_par, swaps};
ghost use Rattle.rr_stock.specs.Situation.{situation_of};

use crate::ending::end_if;
use crate::reading::{ends_with_done, has_floated, par, proceeds, share_price};
use crate::trading::{
    Sale, get_share, give_up_private, pay_seller, settle_corporation, take_presidency,
};
use rr_books::{Act, Corp, Entry, Marker, Refusal, Seat, ShareSource};
use rr_desk::Desk;
use rr_roster::chart::Chart;
use rr_shares::{float_if_due, sell_shares};

// What a command adds is defined by the book before it, so prices, pars and whether a corporation had floated are read
// before the first entry is pushed.

/// The seat sets the corporation's par.
pub(crate) fn play_par(
    desk: &mut Desk,
    chart: &Chart,
    seat: Seat,
    corp: Corp,
    price: u64,
) -> Result<(), Refusal>
    requires seated { seat.0 < 6 }
    requires small { price ≤ 999 }
    ensures fault { IfErr result (λ fault. fault ≡ Refusal.OutOfMemory) }
    ensures takes { OnOk result (Takes (λ book. sets_par chart.now (situation_of chart.now book) seat corp price book) desk.old desk.new) }
{
    // (at most 999)
    let par = price as u16;
    let floated = has_floated(desk.position(), corp);
    desk.push(Entry::Step(Marker::Act(Act::Par { seat, corp, price })))?;
    take_presidency(desk, chart, seat, corp, par)?;
    float_if_due(desk, corp, Some(par), floated)?;
    Ok(())
}

/// The seat buys a 10% certificate.
pub(crate) fn play_purchase(
    desk: &mut Desk,
    chart: &Chart,
    seat: Seat,
    corp: Corp,
    source: ShareSource,
) -> Result<(), Refusal>
    requires { seat.0 < 6 }
    ensures fault { IfErr result (λ fault. fault ≡ Refusal.OutOfMemory) }
    ensures takes { OnOk result (Takes (λ book. buys_share (situation_of chart.now book) seat corp source book) desk.old desk.new) }
{
    let price = share_price(desk.position(), chart, corp, source);
    let par = par(desk.position(), chart, corp);
    let floated = has_floated(desk.position(), corp);
    desk.push(Entry::Step(Marker::Act(Act::BuyShare { seat, corp, source })))?;
    get_share(desk, seat, corp, source, price)?;
    settle_corporation(desk, corp, par, floated)?;
    Ok(())
}

/// The seat sells so many 10% shares at the market price, which falls then.
pub(crate) fn play_sale(
    desk: &mut Desk,
    chart: &Chart,
    seat: Seat,
    corp: Corp,
    count: u64,
) -> Result<(), Refusal>
    requires seated { seat.0 < 6 }
    requires small { count ≤ 10 }
    ensures fault { IfErr result (λ fault. fault ≡ Refusal.OutOfMemory) }
    ensures takes { OnOk result (Takes (λ book. sells chart.now (situation_of chart.now book) seat corp count book) desk.old desk.new) }
{
    // (at most 10)
    let shares = count as u8;
    let amount = proceeds(desk.position(), chart, corp, shares);
    let sale = Sale {
        seat,
        corp,
        count: shares,
        amount,
    };
    desk.push(Entry::Step(Marker::Act(Act::Sell { seat, corp, count })))?;
    sell_shares(desk, corp, seat, shares)?;
    pay_seller(desk, chart, sale)?;
    Ok(())
}

/// The seat changes the M&H for a 10% certificate of the NYC.
pub(crate) fn play_swap(
    desk: &mut Desk,
    chart: &Chart,
    seat: Seat,
    source: ShareSource,
) -> Result<(), Refusal>
    ensures fault { IfErr result (λ fault. fault ≡ Refusal.OutOfMemory) }
    ensures takes { OnOk result (Takes (λ book. swaps (situation_of chart.now book) seat source book) desk.old desk.new) }
{
    let par = par(desk.position(), chart, Corp::Nyc);
    let floated = has_floated(desk.position(), Corp::Nyc);
    desk.push(Entry::Step(Marker::Act(Act::Swap { seat, source })))?;
    give_up_private(desk, seat, source)?;
    settle_corporation(desk, Corp::Nyc, par, floated)?;
    Ok(())
}

/// The seat ends its turn.
pub(crate) fn play_done(desk: &mut Desk, chart: &Chart, seat: Seat) -> Result<(), Refusal>
    ensures fault { IfErr result (λ fault. fault ≡ Refusal.OutOfMemory) }
    ensures takes { OnOk result (Takes (λ book. ends_turn chart.now (situation_of chart.now book) seat book) desk.old desk.new) }
{
    let ends = ends_with_done(desk.position());
    desk.push(Entry::Step(Marker::Act(Act::Done { seat })))?;
    end_if(desk, chart, ends)?;
    Ok(())
}
