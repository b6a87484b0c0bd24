ghost use Rattle.std.specs.Prelude.{◌≡◌, OnOk, IfErr};
ghost use Rattle.rr_desk.specs.Desk.{Takes};
ghost use Rattle.rr_stock.specs.Effects.{entries_of};
ghost use Rattle.rr_stock.specs.Small.{HasSeat, HasSmallNumbers};

use crate::commands::{play_done, play_par, play_purchase, play_sale, play_swap};
use rr_books::{Act, Refusal};
use rr_desk::Desk;
use rr_roster::chart::Chart;

/// Adds to the desk what a command of a stock round brings about: `par`, `buy` of a share, `sell`, `swap` or `done`.
/// Any other adds nothing. It doesn't ask whether the command is lawful, which `judge` tells. Where the stock round
/// ends with it, it adds that an operating round begins, and nothing of that round.
///
/// # Errors
///
/// `OutOfMemory`; the desk may have some of the entries then.
pub fn play(chart: &Chart, desk: &mut Desk, act: &Act) -> Result<(), Refusal>
    requires seated { HasSeat act.now }
    requires small { HasSmallNumbers act.now }
    ensures fault { IfErr result (λ fault. fault ≡ Refusal.OutOfMemory) }
    ensures takes { OnOk result (Takes (λ book. entries_of chart.now book act.now) desk.old desk.new) }
{
    match act {
        Act::Par { seat, corp, price } => play_par(desk, chart, *seat, *corp, *price),
        Act::BuyShare { seat, corp, source } => play_purchase(desk, chart, *seat, *corp, *source),
        Act::Sell { seat, corp, count } => play_sale(desk, chart, *seat, *corp, *count),
        Act::Swap { seat, source } => play_swap(desk, chart, *seat, *source),
        Act::Done { seat } => play_done(desk, chart, *seat),
        _ => Ok(()),
    }
}
