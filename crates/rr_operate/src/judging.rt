//! Judges a command of a corporation's turn.
ghost use Rattle.std.specs.Prelude.{◌≡◌, ◌⊎◌, ◌≤ℤ◌, pos, IfOk, true, None, Some, MatchResult};
ghost use Rattle.rr_books.specs.Book.{Book};
ghost use Rattle.rr_desk.specs.Position.Position.{IsPositionOf};
ghost use Rattle.rr_operate.specs.Effects.{keeps_revenue, revenue_after};
ghost use Rattle.rr_operate.specs.Rows.{IsVerdict, IsVerdictOfRow, MayJudge, MayJudgeRow, lay_of, station_of};

use crate::ending::judge_end;
use crate::order::judge_order;
use crate::rows::{judge_best_sheet, judge_purchase, judge_sheet, judge_tile, judge_token};
use rr_books::{Act, Corp, Money, Refusal};
use rr_desk::Position;
use rr_desk::layout::{Lay, Station};
use rr_kit::Kit;
use rr_running::BestRun;
use rr_words::HexName;
use std::alloc::Global;

/// Judges a command of a corporation's turn, where its trains earned this revenue in this turn (0 before a run), and
/// gives what they have earned behind it: what the run earns, nothing behind the turn's end, and the same revenue
/// behind any other command.
///
/// # Errors
///
/// First those of `judge_order`; then those of the command's own rules:
///
/// - `lay` and `station` as `rr_lay` tells;
/// - `run` as `rr_running` tells, with a certificate also `CertificateRefused`;
/// - `train`, `trade`, `drop` and `private` as `rr_trains::depot` tells;
/// - `end`: `MustOwnTrain` where the corporation has no train, one is on sale at the bank or in the pool, whatever it
///   costs, and the corporation has a route.
///
/// `OutOfMemory` where none of those comes that take no memory.
pub fn judge(
    alloc: Global,
    kit: &Kit,
    position: &Position,
    revenue: Money,
    act: &Act,
) -> Result<Money, Refusal>
    requires least { pos 0 ≤ℤ revenue.0 }
    requires greatest { revenue.0 ≤ℤ pos 10000000000 }
    ensures verdict { (book : Book) → IsPositionOf book position.now → MatchResult result
        (λ next. IsVerdict kit.now book revenue act.now None × (next ≡ revenue_after kit.now book revenue act.now))
        (λ fault. MayJudge kit.now book revenue act.now fault) }
    ensures least { IfOk result (λ next. pos 0 ≤ℤ next.0) }
    ensures greatest { IfOk result (λ next. next.0 ≤ℤ pos 10000000000) }
{
    judge_order(kit, position, revenue, act)?;
    let next = judge_row(alloc, kit, position, revenue, act)?;
    Ok(next)
}

// Judges by the command's own rules.
fn judge_row(
    alloc: Global,
    kit: &Kit,
    position: &Position,
    revenue: Money,
    act: &Act,
) -> Result<Money, Refusal>
    requires least { pos 0 ≤ℤ revenue.0 }
    requires greatest { revenue.0 ≤ℤ pos 10000000000 }
    ensures verdict { (book : Book) → IsPositionOf book position.now → MatchResult result
        (λ next. IsVerdictOfRow kit.now book act.now None × (next ≡ revenue_after kit.now book revenue act.now))
        (λ fault. MayJudgeRow kit.now book act.now fault) }
    ensures least { IfOk result (λ next. pos 0 ≤ℤ next.0) }
    ensures greatest { IfOk result (λ next. next.0 ≤ℤ pos 10000000000) }
{
    match act {
        Act::Run { corp, sheet } => judge_sheet(alloc, kit, position, *corp, sheet.as_bytes()),
        Act::RunBest {
            corp,
            sheet,
            certificate,
        } => {
            let run = BestRun {
                words: sheet.as_bytes(),
                certificate: certificate.as_bytes(),
            };
            judge_best_sheet(alloc, kit, position, *corp, &run)
        }
        Act::End { corp } => {
            judge_end(alloc, kit, position, *corp)?;
            Ok(Money(0))
        }
        _ => {
            judge_other(alloc, kit, position, act)?;
            Ok(revenue)
        }
    }
}

// Judges a command behind which the revenue stays.
fn judge_other(alloc: Global, kit: &Kit, position: &Position, act: &Act) -> Result<(), Refusal>
    requires { keeps_revenue act.now ≡ true }
    ensures { (book : Book) → IsPositionOf book position.now → MatchResult result
        (λ _. IsVerdictOfRow kit.now book act.now None)
        (λ fault. MayJudgeRow kit.now book act.now fault) }
{
    match act {
        Act::Lay {
            corp,
            hex,
            tile,
            turn,
        } => {
            let lay = tile_of(*hex, *tile, *turn);
            judge_tile(alloc, kit, position, *corp, &lay)
        }
        Act::Station { corp, hex, centre } => {
            let station = token_of(*corp, *hex, *centre);
            judge_token(alloc, kit, position, &station)
        }
        Act::BuyTrain { .. }
        | Act::BuyTrainFrom { .. }
        | Act::Trade { .. }
        | Act::Discard { .. }
        | Act::TakePrivate { .. } => judge_purchase(kit, position, act),
        _ => Ok(()),
    }
}

// The tile that a command names.
pub(crate) fn tile_of(hex: HexName, tile: u16, turn: u8) -> Lay
    ensures { result ≡ lay_of hex tile turn }
{
    Lay { hex, tile, turn }
}

// The token that a command names.
pub(crate) fn token_of(corp: Corp, hex: HexName, centre: u64) -> Station
    ensures { result ≡ station_of corp hex centre }
{
    Station { corp, hex, centre }
}
