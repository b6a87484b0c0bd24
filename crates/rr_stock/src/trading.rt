ghost use Rattle.std.specs.Prelude.{◌≡◌, ◌*◌, ◌<◌, OnOk, IfErr};
ghost use Rattle.rr_desk.specs.Effects.{adds};
ghost use Rattle.rr_desk.specs.Incomes.{dollars};
ghost use Rattle.rr_market.specs.Moves.{par_marks, sale_marks};
ghost use Rattle.rr_desk.specs.Desk.{Takes};
ghost use Rattle.rr_stock.specs.Effects.{gets_share, gives_up_private, marks, pays_bank, pays_seller, settles_corporation, takes_presidency};

use crate::reading::{cell_after_sale, place_of_source};
use rr_books::{Cell, Cert, Corp, Entry, Money, Party, Place, Private, Refusal, Seat, ShareSource};
use rr_desk::{Desk, dollars, give_lowest_share};
use rr_market::par_cell;
use rr_roster::chart::Chart;
use rr_shares::{float_if_due, settle_presidency};

/// The seat gets the corporation's 20% certificate for twice the par, at which the token is put on the chart.
#[tactic(auto, unfolding(crate::specs::Effects::takes_presidency))]
pub(crate) fn take_presidency(
    desk: &mut Desk,
    chart: &Chart,
    seat: Seat,
    corp: Corp,
    par: u16,
) -> Result<(), Refusal>
    requires { seat.0 < 6 }
    ensures fault { IfErr result (λ fault. fault ≡ Refusal.OutOfMemory) }
    ensures takes { OnOk result (Takes (takes_presidency chart.now seat corp par) desk.old desk.new) }
{
    put_at_par(desk, chart, corp, par)?;
    desk.push(Entry::Move {
        cert: Cert::President(corp),
        to: Place::Seat(seat),
    })?;
    pay_presidency(desk, seat, par)?;
    Ok(())
}

// The corporation's token is put on the par cell of a price, if the chart has one.
fn put_at_par(desk: &mut Desk, chart: &Chart, corp: Corp, par: u16) -> Result<(), Refusal>
    ensures fault { IfErr result (λ fault. fault ≡ Refusal.OutOfMemory) }
    ensures takes { OnOk result (Takes (par_marks chart.now corp par) desk.old desk.new) }
{
    let cell = par_cell(chart, u64::from(par));
    mark_if(desk, corp, cell)?;
    Ok(())
}

// The seat pays for a 20% certificate.
fn pay_presidency(desk: &mut Desk, seat: Seat, par: u16) -> Result<(), Refusal>
    requires { seat.0 < 6 }
    ensures fault { IfErr result (λ fault. fault ≡ Refusal.OutOfMemory) }
    ensures takes { OnOk result (Takes (pays_bank seat (2 * par)) desk.old desk.new) }
{
    let price = twice(par);
    pay_bank(desk, seat, price)
}

// What a 20% certificate costs at a par.
fn twice(par: u16) -> u32
    ensures { result ≡ 2 * par }
{
    2 * u32::from(par)
}

// The seat pays the bank.
fn pay_bank(desk: &mut Desk, seat: Seat, amount: u32) -> Result<(), Refusal>
    requires { seat.0 < 6 }
    ensures fault { IfErr result (λ fault. fault ≡ Refusal.OutOfMemory) }
    ensures takes { OnOk result (Takes (pays_bank seat amount) desk.old desk.new) }
{
    let amount = dollars(u64::from(amount));
    desk.push(Entry::Pay {
        from: Party::Seat(seat),
        to: Party::Bank,
        amount,
    })?;
    Ok(())
}

/// The seat gets the lowest of the corporation's 10% certificates that are there, for a price.
pub(crate) fn get_share(
    desk: &mut Desk,
    seat: Seat,
    corp: Corp,
    source: ShareSource,
    price: u32,
) -> Result<(), Refusal>
    requires { seat.0 < 6 }
    ensures fault { IfErr result (λ fault. fault ≡ Refusal.OutOfMemory) }
    ensures takes { OnOk result (Takes (gets_share seat corp source price) desk.old desk.new) }
{
    give_lowest_share(desk, corp, place_of_source(source), Place::Seat(seat))?;
    pay_bank(desk, seat, price)?;
    Ok(())
}

/// What a seat's new share brings about: another president, if it is due, and the corporation's float, if it is due and
/// the corporation hadn't floated before the command.
#[tactic(auto, unfolding(crate::specs::Effects::settles_corporation))]
pub(crate) fn settle_corporation(
    desk: &mut Desk,
    corp: Corp,
    par: Option<u16>,
    floated: bool,
) -> Result<(), Refusal>
    ensures fault { IfErr result (λ fault. fault ≡ Refusal.OutOfMemory) }
    ensures takes { OnOk result (Takes (settles_corporation corp par floated) desk.old desk.new) }
{
    settle_presidency(desk, corp)?;
    float_if_due(desk, corp, par, floated)?;
    Ok(())
}

/// A sale of 10% shares: who sells how many of which corporation, and what the bank pays for all of them.
#[derive(Clone, Copy)]
pub struct Sale {
    pub seat: Seat,
    pub corp: Corp,
    pub count: u8,
    /// What `proceeds` tells before the sale.
    pub amount: u32,
}

/// The bank pays the seller, and the corporation's token falls a row for each share sold, stopping above the first
/// missing cell. The shares themselves are moved elsewhere.
///
/// # Errors
///
/// `OutOfMemory`; the seller may have been paid then.
#[tactic(auto, unfolding(crate::specs::Effects::pays_seller))]
pub fn pay_seller(desk: &mut Desk, chart: &Chart, sale: Sale) -> Result<(), Refusal>
    requires { sale.seat.0 < 6 }
    ensures fault { IfErr result (λ fault. fault ≡ Refusal.OutOfMemory) }
    ensures takes { OnOk result (Takes (pays_seller chart.now sale.seat sale.corp sale.count sale.amount) desk.old desk.new) }
{
    pay_seat(desk, sale.seat, sale.amount)?;
    fall(desk, chart, sale.corp, sale.count)?;
    Ok(())
}

// The bank pays the seat.
fn pay_seat(desk: &mut Desk, seat: Seat, amount: u32) -> Result<(), Refusal>
    requires { seat.0 < 6 }
    ensures fault { IfErr result (λ fault. fault ≡ Refusal.OutOfMemory) }
    ensures takes { OnOk result (Takes (adds (Entry.Pay Party.Bank (Party.Seat seat) (dollars amount))) desk.old desk.new) }
{
    let amount = dollars(u64::from(amount));
    desk.push(Entry::Pay {
        from: Party::Bank,
        to: Party::Seat(seat),
        amount,
    })?;
    Ok(())
}

// The token falls a row for each of so many 10% shares.
fn fall(desk: &mut Desk, chart: &Chart, corp: Corp, count: u8) -> Result<(), Refusal>
    ensures fault { IfErr result (λ fault. fault ≡ Refusal.OutOfMemory) }
    ensures takes { OnOk result (Takes (sale_marks chart.now count corp) desk.old desk.new) }
{
    let cell = cell_after_sale(desk.position(), chart, corp, count);
    mark_if(desk, corp, cell)?;
    Ok(())
}

/// Marks the token at a cell, if there is one.
pub(crate) fn mark_if(desk: &mut Desk, corp: Corp, cell: Option<Cell>) -> Result<(), Refusal>
    ensures fault { IfErr result (λ fault. fault ≡ Refusal.OutOfMemory) }
    ensures takes { OnOk result (Takes (marks corp cell) desk.old desk.new) }
{
    match cell {
        Some(cell) => desk.push(Entry::Mark { corp, cell }),
        None => Ok(()),
    }
}

/// The M&H leaves the game for the lowest 10% certificate of the NYC that is there.
#[tactic(auto, unfolding(crate::specs::Effects::gives_up_private))]
pub(crate) fn give_up_private(
    desk: &mut Desk,
    seat: Seat,
    source: ShareSource,
) -> Result<(), Refusal>
    ensures fault { IfErr result (λ fault. fault ≡ Refusal.OutOfMemory) }
    ensures takes { OnOk result (Takes (gives_up_private seat source) desk.old desk.new) }
{
    desk.push(Entry::Move {
        cert: Cert::Private(Private::Mh),
        to: Place::Gone,
    })?;
    give_lowest_share(desk, Corp::Nyc, place_of_source(source), Place::Seat(seat))?;
    Ok(())
}
