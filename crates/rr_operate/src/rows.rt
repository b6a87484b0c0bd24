//! Judges by the rules of tiles, tokens, runs and purchases.
ghost use Rattle.std.specs.Prelude.{◌≡◌, ◌⊎◌, ◌≤ℤ◌, pos, IfOk, None, Some, MatchResult};
ghost use Rattle.rr_books.specs.Book.{Book};
ghost use Rattle.rr_books.specs.declared.acts.Act.TheVariants as A;
ghost use Rattle.rr_desk.specs.Position.Position.{IsPositionOf};
ghost use Rattle.rr_running.specs.Running.{run_revenue};
ghost use Rattle.rr_operate.specs.Rows.{IsVerdictOfRow, MayJudgeRow, purchase_verdict};

use rr_books::{Act, Corp, Money, Refusal};
use rr_desk::Position;
use rr_desk::layout::{Lay, Station};
use rr_kit::Kit;
use rr_lay::{judge_lay, judge_station};
use rr_running::{BestRun, judge_best_run, judge_run};
use std::alloc::Global;

// Whether the corporation may lay the tile.
pub(crate) fn judge_tile(
    alloc: Global,
    kit: &Kit,
    position: &Position,
    corp: Corp,
    lay: &Lay,
) -> Result<(), Refusal>
    ensures { (book : Book) → IsPositionOf book position.now → MatchResult result
        (λ _. IsVerdictOfRow kit.now book (A.Lay corp lay.now.hex lay.now.tile lay.now.turn) None)
        (λ fault. MayJudgeRow kit.now book (A.Lay corp lay.now.hex lay.now.tile lay.now.turn) fault) }
{
    judge_lay(alloc, kit, position, corp, lay)?;
    Ok(())
}

// Whether the corporation may place the token.
pub(crate) fn judge_token(
    alloc: Global,
    kit: &Kit,
    position: &Position,
    station: &Station,
) -> Result<(), Refusal>
    ensures { (book : Book) → IsPositionOf book position.now → MatchResult result
        (λ _. IsVerdictOfRow kit.now book (A.Station station.now.corp station.now.hex station.now.centre) None)
        (λ fault. MayJudgeRow kit.now book (A.Station station.now.corp station.now.hex station.now.centre) fault) }
{
    judge_station(alloc, kit, position, station)?;
    Ok(())
}

// Whether the corporation may buy, or give up, what it says.
pub(crate) fn judge_purchase(kit: &Kit, position: &Position, act: &Act) -> Result<(), Refusal>
    ensures { (book : Book) → IsPositionOf book position.now → MatchResult result
        (λ _. purchase_verdict kit.now book act.now ≡ None)
        (λ fault. purchase_verdict kit.now book act.now ≡ Some fault) }
{
    rr_trains::depot::judge(kit.roster(), position, act)?;
    Ok(())
}

// What the trains earn by the sheet.
pub(crate) fn judge_sheet(
    alloc: Global,
    kit: &Kit,
    position: &Position,
    corp: Corp,
    words: &[u8],
) -> Result<Money, Refusal>
    ensures verdict { (book : Book) → IsPositionOf book position.now → MatchResult result
        (λ revenue. IsVerdictOfRow kit.now book (A.Run corp words.now) None × (revenue ≡ run_revenue kit.now book corp words.now))
        (λ fault. MayJudgeRow kit.now book (A.Run corp words.now) fault) }
    ensures least { IfOk result (λ revenue. pos 0 ≤ℤ revenue.0) }
    ensures greatest { IfOk result (λ revenue. revenue.0 ≤ℤ pos 10000000000) }
{
    let revenue = judge_run(alloc, kit, position, corp, words)?;
    Ok(revenue)
}

// The same with a certificate that no run earns more.
pub(crate) fn judge_best_sheet(
    alloc: Global,
    kit: &Kit,
    position: &Position,
    corp: Corp,
    run: &BestRun<'_>,
) -> Result<Money, Refusal>
    ensures verdict { (book : Book) → IsPositionOf book position.now → MatchResult result
        (λ revenue. IsVerdictOfRow kit.now book (A.RunBest corp run.now.words.now run.now.certificate.now) None × (revenue ≡ run_revenue kit.now book corp run.now.words.now))
        (λ fault. MayJudgeRow kit.now book (A.RunBest corp run.now.words.now run.now.certificate.now) fault) }
    ensures least { IfOk result (λ revenue. pos 0 ≤ℤ revenue.0) }
    ensures greatest { IfOk result (λ revenue. revenue.0 ≤ℤ pos 10000000000) }
{
    let revenue = judge_best_run(alloc, kit, position, corp, run)?;
    Ok(revenue)
}
