//! Judges the commands of a corporation that must own a train and can't pay it.
ghost use Rattle.std.specs.Prelude.{◌≡◌, ◌⊎◌, ◌≤◌, ◌<◌, ℕ, true, None, Some, MatchResult, OnOk};
ghost use Rattle.rr_books.specs.Book.{Book};
ghost use Rattle.rr_market.specs.Operations.Due.{due};
ghost use Rattle.rr_market.specs.Operations.Progress.{progress};
ghost use Rattle.rr_desk.specs.Position.Position.{IsPositionOf};
ghost use Rattle.rr_operate.specs.Order.{is_due};
ghost use Rattle.rr_rules.specs.Forced.Rules.{IsBankruptVerdict, IsForceVerdict, IsRaiseVerdict, IsRowVerdict, IsVerdict, MayJudge, could_owe, force_verdict, is_forced, order_verdict, row_first};
ghost use Rattle.rr_rules.specs.Forced.Small.{IsSmall};
ghost use Rattle.rr_books.specs.declared.refusal.Refusal.TheVariants.{OutOfMemory};

use crate::forced::bankruptcy::judge_bankrupt_for;
use crate::forced::needs::{Need, due, need_of, needed_train};
use crate::forced::raising::{Raise, can_raise, judge_raise_for};
use rr_books::{Act, Corp, Refusal, Seat};
use rr_desk::Position;
use rr_kit::Kit;
use rr_market::operations::TurnStep;
use rr_trains::depot::is_over_limit_somewhere;
use std::alloc::Global;

/// Judges what a corporation and its president may do that must own a train and can't pay it: with `force` the
/// corporation buys the cheapest on sale, and its president adds what it lacks; with `raise` the president sells shares
/// before; with `bankrupt` it says that it can't help, which ends the game.
///
/// # Errors
///
/// The first of these that applies. `MustDiscardFirst` where some corporation is over its train limit; `WrongStep`
/// where the step of the turn doesn't take the command, or it is none of the three. Then for each command in this
/// order:
///
/// - `force`: `WrongStep` where the corporation needn't own a train (it has one, none is on sale, or it has no route), or
///   can pay the price alone; `NotYourTurn` where another corporation is due; `TooLittleCash` where it and its president
///   have less than the price together.
/// - `raise`: `NotYourTurn` where the seat isn't the president of the corporation due, or that one needn't own a train;
///   `SaleNotNeeded` where the two have the price of the cheapest train together; `NotForSale` and `PoolOverHalf` as for
///   a sale in a stock round, of which it may be the first; `PresidencyWouldChange` where another seat would become
///   president of the corporation due.
/// - `bankrupt`: `NotYourTurn` as for `raise`; `NotBankrupt` where the two have the price together, or some `raise` of
///   the seat's is lawful.
///
/// `OutOfMemory` only where neither of the first two comes, and the corporation that buys, or of `raise` and `bankrupt`
/// the one due, has no train while one is on sale.
pub fn judge(alloc: Global, kit: &Kit, position: &Position, act: &Act) -> Result<(), Refusal>
    ensures verdict { (book : Book) → IsPositionOf book position.now → MatchResult result
        (λ _. IsVerdict kit.now book act.now None)
        (λ fault. MayJudge kit.now book act.now fault) }
    ensures small { OnOk result (IsSmall act.now) }
{
    judge_order(kit, position, act)?;
    judge_row(alloc, kit, position, act)?;
    Ok(())
}

// Whether the command comes in its order.
#[tactic(auto, unfolding(crate::specs::Forced::Rules::order_verdict))]
fn judge_order(kit: &Kit, position: &Position, act: &Act) -> Result<(), Refusal>
    ensures { (book : Book) → IsPositionOf book position.now → MatchResult result
        (λ _. order_verdict kit.now book act.now ≡ None)
        (λ fault. order_verdict kit.now book act.now ≡ Some fault) }
{
    if is_over_limit_somewhere(position) {
        return Err(Refusal::MustDiscardFirst);
    }
    if !(step(position).takes(act) && is_forced(act)) {
        return Err(Refusal::WrongStep);
    }
    Ok(())
}

// Judges by the command's own rules.
fn judge_row(alloc: Global, kit: &Kit, position: &Position, act: &Act) -> Result<(), Refusal>
    ensures verdict { (book : Book) → IsPositionOf book position.now → MatchResult result
        (λ _. IsRowVerdict kit.now book act.now None)
        (λ fault. IsRowVerdict kit.now book act.now (Some fault) ⊎ ((row_first kit.now book act.now ≡ None) × (fault ≡ OutOfMemory))) }
    ensures small { OnOk result (IsSmall act.now) }
{
    match act {
        Act::Force { corp } => judge_force(alloc, kit, position, *corp),
        Act::Raise { seat, corp, count } => {
            let raise = Raise {
                seat: *seat,
                corp: *corp,
                count: *count,
            };
            judge_raise(alloc, kit, position, raise)
        }
        Act::Bankrupt { seat } => judge_bankrupt(alloc, kit, position, *seat),
        _ => Err(Refusal::WrongStep),
    }
}

// Judges a forced purchase by what the buyer needs.
fn judge_force(alloc: Global, kit: &Kit, position: &Position, corp: Corp) -> Result<(), Refusal>
    ensures { (book : Book) → IsPositionOf book position.now → MatchResult result
        (λ _. IsForceVerdict kit.now book corp None)
        (λ fault. IsForceVerdict kit.now book corp (Some fault) ⊎ ((could_owe book (Some corp) ≡ true) × (fault ≡ OutOfMemory))) }
{
    let need = need_of(alloc, kit, position, Some(corp))?;
    judge_need(due(kit, position), need)?;
    Ok(())
}

// Whether the buyer lacks money, is due, and its president has enough.
fn judge_need(due: Option<Corp>, need: Option<Need>) -> Result<(), Refusal>
    ensures { MatchResult result
        (λ _. force_verdict due need ≡ None)
        (λ fault. force_verdict due need ≡ Some fault) }
{
    let Some(need) = need else {
        return Err(Refusal::WrongStep);
    };
    if need.lack == 0 {
        return Err(Refusal::WrongStep);
    }
    if !is_due(due, need.corp) {
        return Err(Refusal::NotYourTurn);
    }
    if need.shortfall != 0 {
        return Err(Refusal::TooLittleCash);
    }
    Ok(())
}

// Judges a sale of shares by what the corporation due needs.
fn judge_raise(alloc: Global, kit: &Kit, position: &Position, raise: Raise) -> Result<(), Refusal>
    ensures verdict { (book : Book) → IsPositionOf book position.now → MatchResult result
        (λ _. IsRaiseVerdict kit.now book raise.seat raise.corp raise.count None)
        (λ fault. IsRaiseVerdict kit.now book raise.seat raise.corp raise.count (Some fault) ⊎ ((could_owe book (due kit.now.chart book) ≡ true) × (fault ≡ OutOfMemory))) }
    ensures small { OnOk result ((raise.seat.0 < 6) × (raise.count ≤ 10)) }
{
    let need = needed_train(alloc, kit, position)?;
    judge_raise_for(kit.chart(), position, need, raise)?;
    Ok(())
}

// Judges a bankruptcy by what the corporation due needs, and what the seat can sell.
fn judge_bankrupt(alloc: Global, kit: &Kit, position: &Position, seat: Seat) -> Result<(), Refusal>
    ensures { (book : Book) → IsPositionOf book position.now → MatchResult result
        (λ _. IsBankruptVerdict kit.now book seat None)
        (λ fault. IsBankruptVerdict kit.now book seat (Some fault) ⊎ ((could_owe book (due kit.now.chart book) ≡ true) × (fault ≡ OutOfMemory))) }
{
    // There are at most six players, among whom one share tells of several.
    let _players = position.books().players();
    let need = needed_train(alloc, kit, position)?;
    let can_raise = can_raise(kit.chart(), position, need, seat);
    judge_bankrupt_for(need, seat, can_raise)?;
    Ok(())
}

fn is_due(due: Option<Corp>, corp: Corp) -> bool
    ensures { result ≡ is_due due (Some corp) }
{
    match due {
        Some(due) => due == corp,
        None => false,
    }
}

fn step(position: &Position) -> TurnStep
    ensures { (book : Book) → IsPositionOf book position.now → result ≡ (progress book).step }
{
    position.operations().step()
}

fn is_forced(act: &Act) -> bool
    ensures { result ≡ is_forced act.now }
{
    matches!(
        act,
        Act::Force { .. } | Act::Raise { .. } | Act::Bankrupt { .. }
    )
}
