//! Plays a command of a corporation's turn.
ghost use Rattle.std.specs.Prelude.{◌≡◌, ◌≤ℤ◌, pos, OnOk, IfErr};
ghost use Rattle.rr_desk.specs.Desk.{Takes};
ghost use Rattle.rr_desk.specs.Effects.{adds};
ghost use Rattle.rr_trains.specs.Depot.Small.{IsSmall};
ghost use Rattle.rr_trains.specs.Depot.Effects.{says};
ghost use Rattle.rr_operate.specs.Effects.{ends_turn, entries_of, runs_best};
ghost use Rattle.rr_books.specs.declared.acts.Act.TheVariants as A;

use crate::dividends::{pay_out, withhold};
use crate::judging::{tile_of, token_of};
use crate::sets::go_on_in_operating_round;
use rr_books::{Act, Corp, Entry, Marker, Money, Refusal, Words};
use rr_desk::Desk;
use rr_kit::Kit;
use rr_lay::{play_lay, play_station};

/// Adds to the desk what a command of a corporation's turn brings about, where its trains earned this revenue in this
/// turn: what `rr_lay`, `dividends` and `rr_trains::depot` tell; behind `run` its words, behind the certificate where
/// there is one; behind `end` what follows by itself. Any other command adds nothing. It doesn't ask whether the
/// command is lawful, which `judge` tells.
///
/// # Errors
///
/// `OutOfMemory`, also where the board has no room for a tile or token more; the desk may have some of the entries
/// then.
pub fn play(kit: &Kit, desk: &mut Desk, revenue: Money, act: &Act) -> Result<(), Refusal>
    requires least { pos 0 ≤ℤ revenue.0 }
    requires greatest { revenue.0 ≤ℤ pos 10000000000 }
    requires small { IsSmall act.now }
    ensures fault { IfErr result (λ fault. fault ≡ Refusal.OutOfMemory) }
    ensures takes { OnOk result (Takes (λ book. entries_of kit.now revenue book act.now) desk.old desk.new) }
{
    match act {
        Act::Lay {
            corp,
            hex,
            tile,
            turn,
        } => play_lay(kit, desk, *corp, &tile_of(*hex, *tile, *turn)),
        Act::Station { corp, hex, centre } => {
            play_station(desk, &token_of(*corp, *hex, *centre))
        }
        Act::Run { corp, sheet } => play_run(desk, *corp, sheet),
        Act::RunBest {
            corp,
            sheet,
            certificate,
        } => play_best_run(desk, *corp, sheet, certificate),
        Act::PayOut { corp } => pay_out(desk, kit.chart(), *corp, revenue),
        Act::Hold { corp } => withhold(desk, kit.chart(), *corp, revenue),
        Act::End { corp } => end_turn(kit, desk, *corp),
        Act::BuyTrain { .. }
        | Act::BuyTrainFrom { .. }
        | Act::Trade { .. }
        | Act::Discard { .. }
        | Act::TakePrivate { .. } => rr_trains::depot::play(kit.roster(), desk, act),
        _ => Ok(()),
    }
}

// The trains run by a sheet.
fn play_run(desk: &mut Desk, corp: Corp, sheet: &Words) -> Result<(), Refusal>
    ensures fault { IfErr result (λ fault. fault ≡ Refusal.OutOfMemory) }
    ensures takes { OnOk result (Takes (says (A.Run corp sheet.now)) desk.old desk.new) }
{
    let sheet = sheet.copy()?;
    desk.push(Entry::Step(Marker::Act(Act::Run { corp, sheet })))?;
    Ok(())
}

// The trains run by a sheet, and a certificate shows that no run earns more.
#[tactic(auto, unfolding(crate::specs::Effects::runs_best))]
fn play_best_run(
    desk: &mut Desk,
    corp: Corp,
    sheet: &Words,
    certificate: &Words,
) -> Result<(), Refusal>
    ensures fault { IfErr result (λ fault. fault ≡ Refusal.OutOfMemory) }
    ensures takes { OnOk result (Takes (runs_best corp sheet.now certificate.now) desk.old desk.new) }
{
    keep_best(desk, corp, sheet, certificate)?;
    say_best(desk, corp, sheet, certificate)?;
    Ok(())
}

// The certificate is kept, with its sheet.
fn keep_best(desk: &mut Desk, corp: Corp, sheet: &Words, certificate: &Words) -> Result<(), Refusal>
    ensures fault { IfErr result (λ fault. fault ≡ Refusal.OutOfMemory) }
    ensures takes { OnOk result (Takes (adds (Entry.Best corp sheet.now certificate.now)) desk.old desk.new) }
{
    let sheet = sheet.copy()?;
    let certificate = certificate.copy()?;
    desk.push(Entry::Best {
        corp,
        sheet,
        certificate,
    })?;
    Ok(())
}

// The command's words.
fn say_best(desk: &mut Desk, corp: Corp, sheet: &Words, certificate: &Words) -> Result<(), Refusal>
    ensures fault { IfErr result (λ fault. fault ≡ Refusal.OutOfMemory) }
    ensures takes { OnOk result (Takes (says (A.RunBest corp sheet.now certificate.now)) desk.old desk.new) }
{
    let sheet = sheet.copy()?;
    let certificate = certificate.copy()?;
    desk.push(Entry::Step(Marker::Act(Act::RunBest {
        corp,
        sheet,
        certificate,
    })))?;
    Ok(())
}

// The corporation ends its turn, and what follows by itself comes about.
#[tactic(auto, unfolding(crate::specs::Effects::ends_turn))]
fn end_turn(kit: &Kit, desk: &mut Desk, corp: Corp) -> Result<(), Refusal>
    ensures fault { IfErr result (λ fault. fault ≡ Refusal.OutOfMemory) }
    ensures takes { OnOk result (Takes (ends_turn kit.now corp) desk.old desk.new) }
{
    desk.push(Entry::Step(Marker::Act(Act::End { corp })))?;
    go_on_in_operating_round(desk, kit)?;
    Ok(())
}
